// Reads frames from standard input and writes their answers: those of all whole lines read so far are written before it reads again.
#![tactic(auto)]

ghost use Rattle.std.specs.Prelude.{◌≤◌, length, IfOk};
ghost use Rattle.rules.specs.Bytes.{answer_room};
ghost use Rattle.lanebook.specs.Turns.{Took};

use rules::Desk;
use std::fmt;
use std::io::{self, Read};

// A read or a write that fails, which ends the program.
#[derive(Drop)]
enum Stop {
    Read(io::Error),
    Write(io::Error),
}

impl fmt::Display for Stop {
    fn fmt<W: fmt::Write>(&self, f: &mut fmt::Formatter<W>) -> fmt::Result {
        match self {
            Stop::Read(e) => write!(f, "read: {e}"),
            Stop::Write(e) => write!(f, "write: {e}"),
        }
    }
}

// What one read brought, answered: the answers are written whenever there is no room for one more, and at the end.
fn answered(rt: &impl Print, d: Desk, buf: &[u8], out: &mut [u8]) -> Result<Desk, Stop>
    requires { answer_room ≤ length out.old }
    ensures { IfOk result (λ e. Took d buf.now e) }
{
    let mut desk = d;
    let mut i = 0;
    // a turn goes on where `fed` stopped: no index is counted
    while i < buf.len() {
        let f = frames::fed(desk, buf, i, out);
        desk = f.desk;
        i = f.upto;
        rt.write_all(&out[..f.len]).map_err(Stop::Write)?;
    }
    Ok(desk)
}

// Reads and answers until the input ends; its last line may lack its line feed. A proved loop has to end, and nothing says that the input does: the turns
// are counted up to a number that no run uses up.
fn run(rt: &impl Print, input: &mut impl Read, buf: &mut [u8], out: &mut [u8]) -> Result<(), Stop>
    requires { answer_room ≤ length out.old }
{
    let mut desk = frames::first_desk();
    for _ in 0..u64::MAX {
        let n = input.read(buf).map_err(Stop::Read)?;
        if n == 0 {
            let t = frames::ended(desk, out);
            return rt.write_all(&out[..t.len]).map_err(Stop::Write);
        }
        desk = answered(rt, desk, &buf[..n], out)?;
    }
    Ok(())
}

fn main(rt: HostRuntime) {
    let mut buf = [0; 65536];
    let mut out = [0; 65536];
    let mut input = rt.stdin();
    if let Err(e) = run(&rt, &mut input, &mut buf, &mut out) {
        let _ = eprintln!(rt; "{e}");
    }
}
