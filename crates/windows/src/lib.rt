// All free windows of a book, by one sweep a place over the rows in key order.
#![tactic(auto)]

ghost use Rattle.std.specs.Prelude.{◌≡◌, ◌-◌, ◌≤◌, length};
ghost use Rattle.rules.specs.Limits.{capacity_limit, row_limit};
ghost use Rattle.flat.specs.Flat.{entry_of, span_at};
ghost use Rattle.windows.specs.Sweep.{run_load, Sweepable, Sweep, LeastAt};
ghost use Rattle.windows.specs.Places.{Past, Given, AllWindows};

use flat::{Rows, Windows, Yard};
use rules::Map;

fn entry_of(k: u64) -> u32
    ensures { result ≡ entry_of k }
{
    (k / flat::SECOND % flat::SECOND) as u32
}

// where the least of the first c kept exits is
fn least_at(top: &[u32; 16], c: usize) -> usize
    requires le_c { 1 ≤ c }
    requires c_le_capacity_limit { c ≤ capacity_limit }
    ensures { LeastAt top.now c result }
{
    let mut j: usize = 0;
    for k in 1..c {
        if top[k] < top[j] {
            j = k;
        }
    }
    j
}

// The windows of place p, whose rows are a .. b, written from number `from` on: the number after the last, None where the place is overfull.
// `top` keeps the exits of the rows inside; there is room from second `free` on.
fn sweep(
    key: &[u64; 1024],
    tail: &[u32; 1024],
    a: usize,
    b: usize,
    c: usize,
    d: u32,
    p: u8,
    from: usize,
    start: &mut [u32; 1280],
    end: &mut [u32; 1280],
    place: &mut [u8; 1280],
) -> Option<usize>
    requires sweepable { Sweepable key.now tail.now a b c d from }
    requires start_len { length start.old ≡ 1280 }
    requires end_len { length end.old ≡ 1280 }
    requires place_len { length place.old ≡ 1280 }
    ensures { Sweep (run_load key.now tail.now a b) c d p from (b - a) (span_at place.old start.old end.old) result start.new end.new place.new }
{
    let mut top = [0u32; 16];
    let mut low: usize = 0;
    let mut w = from;
    let mut free: u32 = 0;
    for i in a..b {
        let t = entry_of(key[i]);
        if t < top[low] {
            return None;
        }
        top[low] = flat::exit_of(tail[i]);
        low = least_at(&top, c);
        let u = top[low];
        if t < u {
            if free + d <= t {
                start[w] = free;
                end[w] = t;
                place[w] = p;
                w += 1;
            }
            free = u;
        }
    }
    if free + d <= Map::DAY {
        start[w] = free;
        end[w] = Map::DAY;
        place[w] = p;
        w += 1;
    }
    Some(w)
}

// the first row from a on that is not of place p, count where there is none
fn past(key: &[u64; 1024], count: usize, a: usize, p: usize) -> usize
    requires a_le_count { a ≤ count }
    requires count_le_row_limit { count ≤ row_limit }
    ensures { Past key.now count a p result }
{
    // any u64 is a key here, so that no bound is asked for as by flat::place_of
    for i in a..count {
        if (key[i] / flat::PLACE) as usize != p {
            return i;
        }
    }
    count
}

// The free windows of the places 0 .. n, place after place, and the first window of each: the number of windows, None where a place is overfull.
pub fn all_windows(yard: &Yard, rows: &Rows, windows: &mut Windows, count: usize) -> Option<usize>
    requires given { Given yard.now.places count yard.now.cap yard.now.dur rows.now.key rows.now.tail }
    requires start_len { length windows.old.start ≡ 1280 }
    requires end_len { length windows.old.end ≡ 1280 }
    requires place_len { length windows.old.place ≡ 1280 }
    requires first_len { length windows.old.first ≡ 257 }
    ensures { AllWindows yard.now.places count yard.now.cap yard.now.dur rows.now.key rows.now.tail result windows.new.start windows.new.end windows.new.place windows.new.first }
{
    windows.first[0] = 0;
    let mut a: usize = 0;
    let mut w: usize = 0;
    for p in 0..yard.places {
        let b = past(&rows.key, count, a, p);
        let c = yard.cap[p] as usize;
        let d = yard.dur[p];
        w = sweep(
            &rows.key,
            &rows.tail,
            a,
            b,
            c,
            d,
            p as u8,
            w,
            &mut windows.start,
            &mut windows.end,
            &mut windows.place,
        )?;
        a = b;
        windows.first[p + 1] = w as u16;
    }
    Some(w)
}
