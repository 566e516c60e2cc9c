// The search for the earliest entry into the destination's windows, over lent arrays.
#![tactic(auto)]

ghost use Rattle.std.specs.Prelude.{◌≡◌, true, false, ℕ, ◌+◌, ◌-◌, ◌≤◌, ◌<◌, min, max, length};
ghost use Rattle.laws.specs.Lists.{at};
ghost use Rattle.flat.specs.Flat.{rows_held, yard_held};
ghost use Rattle.settle.specs.Blocks.{Blocks};
ghost use Rattle.lookup.specs.Crossings.{Kept, Between};
ghost use Rattle.search.specs.Entries.{FirstClear};
ghost use Rattle.search.specs.Offers.{Row1, Labels, Tried, OfferedTo, OpenFrom, BeginsAt};
ghost use Rattle.settle.specs.Search.{Answer, Rooted};
ghost use Rattle.search.specs.Relax.{Ground, Relaxed, next_by};
ghost use Rattle.search.specs.Lanes.{LanesHeld, is_at_dest};
ghost use Rattle.search.specs.Trail.{Trailed};

use flat::{Rows, Ways, Windows, Yard};
use settle::Nodes;

// The least second of lo to hi at which the crossing is not barred. Most often it is the first.
fn first_entry(rows: &Rows, q: u8, p: u8, lo: u32, hi: u32) -> Option<u32>
    requires between { Between rows.now.key rows.now.tail rows.now.count q p }
    requires hi_bound { hi ≤ 86400 }
    ensures { FirstClear (rows_held rows.now) q p lo hi result }
{
    if lo > hi {
        return None;
    }
    if !lookup::barred(rows, rows.count, q, p, lo) {
        return Some(lo);
    }
    let mut t = lo + 1;
    // the rules ask for a loop over seconds that yields by `break`, left by a label
    'window: loop {
        if t > hi {
            break 'window None;
        }
        if !lookup::barred(rows, rows.count, q, p, t) {
            break Some(t);
        }
        t += 1;
    }
}

// Window v, to be entered from lo to hi, offered the way through w.
fn try_window(rows: &Rows, q: u8, p: u8, lo: u32, hi: u32, v: usize, w: usize, nodes: &mut Nodes)
    requires between { Between rows.now.key rows.now.tail rows.now.count q p }
    requires hi_bound { hi ≤ 86400 }
    requires v_bound { (v < 1280) × (w < 1280) }
    requires labels { Labels nodes.old.label nodes.old.live nodes.old.before }
    requires blocks { Blocks nodes.old.live nodes.old.least }
    ensures { Tried (rows_held rows.now) q p lo hi v w nodes.old.label nodes.old.live nodes.old.before nodes.new.label nodes.new.live nodes.new.before × (Labels nodes.new.label nodes.new.live nodes.new.before × Blocks nodes.new.live nodes.new.least) }
{
    if lo < nodes.label[v] {
        if let Some(t) = first_entry(rows, q, p, lo, hi) {
            settle::offer(nodes, v, w, t);
        }
    }
}

// The first of windows a .. b that ends at x or later, b where there is none.
fn first_open(end: &[u32; 1280], a: usize, b: usize, x: u32) -> usize
    requires a_le_b { (a ≤ b) × (b ≤ 1280) }
    requires by_index { (i j : ℕ) → a ≤ i → i ≤ j → j < b → at end.now i ≤ at end.now j }
    ensures { OpenFrom end.now a b x result }
{
    a + end[a..b].partition_point(|e| *e < x)
}

// Windows a .. b of place q, of duration d, offered the way through w, which p may be left for from `soonest` to `leave`.
fn relax_place(
    rows: &Rows,
    windows: &Windows,
    a: usize,
    b: usize,
    q: u8,
    p: u8,
    d: u32,
    soonest: u32,
    leave: u32,
    w: usize,
    nodes: &mut Nodes,
)
    requires between { Between rows.now.key rows.now.tail rows.now.count q p }
    requires a_le_b { (a ≤ b) × (b ≤ 1280) × (w < 1280) }
    requires d_bound { (d ≤ 3600) × (soonest ≤ 90000) × (leave ≤ 86400) }
    requires row1 { Row1 windows.now.start windows.now.end a b d }
    requires labels { Labels nodes.old.label nodes.old.live nodes.old.before }
    requires blocks { Blocks nodes.old.live nodes.old.least }
    ensures { OfferedTo (rows_held rows.now) q p soonest leave d windows.now.start windows.now.end a b w nodes.old.label nodes.old.live nodes.old.before b nodes.new.label nodes.new.live nodes.new.before × (Labels nodes.new.label nodes.new.live nodes.new.before × Blocks nodes.new.live nodes.new.least) }
{
    for v in first_open(&windows.end, a, b, soonest + d)..b {
        let from = windows.start[v];
        if from > leave {
            return;
        }
        let lo = soonest.max(from);
        let hi = leave.min(windows.end[v] - d);
        try_window(rows, q, p, lo, hi, v, w, nodes);
    }
}

// The windows of place q offered the way through w.
fn relax_link(
    yard: &Yard,
    rows: &Rows,
    windows: &Windows,
    q: u8,
    p: u8,
    soonest: u32,
    leave: u32,
    w: usize,
    nodes: &mut Nodes,
)
    requires between { Between rows.now.key rows.now.tail rows.now.count q p × (w < 1280) × (soonest ≤ 90000) × (leave ≤ 86400) }
    requires q_bound { (at windows.now.first q ≤ at windows.now.first (q + 1)) × (at windows.now.first (q + 1) ≤ 1280) × (at yard.now.dur q ≤ 3600) }
    requires row1 { Row1 windows.now.start windows.now.end (at windows.now.first q) (at windows.now.first (q + 1)) (at yard.now.dur q) }
    requires labels { Labels nodes.old.label nodes.old.live nodes.old.before }
    requires blocks { Blocks nodes.old.live nodes.old.least }
    ensures { OfferedTo (rows_held rows.now) q p soonest leave (at yard.now.dur q) windows.now.start windows.now.end (at windows.now.first q) (at windows.now.first (q + 1)) w nodes.old.label nodes.old.live nodes.old.before (at windows.now.first (q + 1)) nodes.new.label nodes.new.live nodes.new.before × (Labels nodes.new.label nodes.new.live nodes.new.before × Blocks nodes.new.live nodes.new.least) }
{
    let i = q as usize;
    let a = windows.first[i] as usize;
    let b = windows.first[i + 1] as usize;
    let d = yard.dur[i];
    relax_place(rows, windows, a, b, q, p, d, soonest, leave, w, nodes);
}

// The way through window w of place p offered to every window that a link of p leads to.
fn relax(yard: &Yard, ways: &Ways, rows: &Rows, windows: &Windows, w: usize, nodes: &mut Nodes)
    requires ground { Ground yard.now.places yard.now.links windows.now.count yard.now.dur yard.now.from yard.now.to ways.now.head ways.now.chain windows.now.place windows.now.start windows.now.end windows.now.first }
    requires w_lt_windows { (w < windows.now.count) × (at nodes.old.label w ≤ 86400) × Kept rows.now.key rows.now.tail rows.now.count }
    requires labels { Labels nodes.old.label nodes.old.live nodes.old.before }
    requires blocks { Blocks nodes.old.live nodes.old.least }
    ensures { Relaxed (rows_held rows.now) yard.now.places yard.now.links windows.now.count yard.now.dur yard.now.from yard.now.to windows.now.place windows.now.start windows.now.end w nodes.old.label nodes.old.live nodes.old.before nodes.new.label nodes.new.live nodes.new.before × (Labels nodes.new.label nodes.new.live nodes.new.before × Blocks nodes.new.live nodes.new.least) }
{
    let p = windows.place[w];
    let here = p as usize;
    let soonest = nodes.label[w] + yard.dur[here];
    let leave = windows.end[w];
    // the links of p by number, from its last to its first; 0 ends them
    let mut cur = ways.head[here] as usize;
    while cur > 0 {
        let j = cur - 1;
        let q = yard.to[j];
        relax_link(yard, rows, windows, q, p, soonest, leave, w, nodes);
        cur = ways.chain[j] as usize;
    }
}

// The window of the destination of least entry, of those the first, with labels and windows before; none where no window of it is reached.
pub fn search(
    yard: &Yard,
    ways: &Ways,
    rows: &Rows,
    windows: &Windows,
    src: usize,
    s: u32,
    dest: usize,
    nodes: &mut Nodes,
) -> Option<usize>
    requires lanes { LanesHeld yard.now ways.now rows.now windows.now }
    requires src_lt_windows { (src < windows.now.count) × (s < 86401) }
    requires by_index { (v : ℕ) → v < 1280 → at nodes.old.label v ≡ 86401 }
    requires src_value { at nodes.old.before src ≡ 0 }
    requires label_len { (length nodes.old.label ≡ 1280) × (length nodes.old.before ≡ 1280) }
    ensures { Answer windows.now.count (next_by (yard_held yard.now) (rows_held rows.now) windows.now.place windows.now.start windows.now.end) (is_at_dest windows.now.place dest) src s nodes.new.label nodes.new.before result }
{
    let blocks = (windows.count + 31) / 32;
    nodes.live = [86401; 1280];
    nodes.least = [86401; 40];
    nodes.label[src] = s;
    nodes.live[src] = s;
    nodes.least[src / 32] = s;
    while let Some(w) = settle::pick(&nodes.live, &nodes.least, blocks) {
        if windows.place[w] as usize == dest {
            return Some(w);
        }
        settle::close(&mut nodes.live, &mut nodes.least, w);
        relax(yard, ways, rows, windows, w, nodes);
    }
    None
}

// The window of a .. b that may be entered at s for d seconds.
pub fn begin_at(windows: &Windows, a: usize, b: usize, s: u32, d: u32) -> Option<usize>
    requires a_le_b { (a ≤ b) × (b ≤ 1280) × (s ≤ 86400) × (d ≤ 3600) }
    requires row1 { Row1 windows.now.start windows.now.end a b d }
    ensures { BeginsAt windows.now.start windows.now.end a b s d result }
{
    let w = first_open(&windows.end, a, b, s + d);
    if w < b && windows.start[w] <= s {
        Some(w)
    } else {
        None
    }
}

// The windows that lead to w, itself the last, in travel order; how many. The rules ask for a recursion along the windows before.
#[tactic(auto, using(crate::specs::Trail::rooted_room))]
pub fn trail(before: &[u16; 1280], label: &[u32; 1280], w: usize, path: &mut [u16; 1280]) -> usize
    requires rooted { Rooted label.now before.now w }
    requires path_len { length path.old ≡ 1280 }
    ensures { Trailed label.now before.now w result path.new }
{
    let v = before[w] as usize;
    if v == 0 {
        path[0] = w as u16;
        return 1;
    }
    let k = trail(before, label, v - 1, path);
    path[k] = w as u16;
    k + 1
}
