// The earliest permitted plan beside a book, over lent arrays.
#![tactic(auto)]

ghost use Rattle.std.specs.Prelude.{◌≡◌, ℕ, ◌+◌, ◌*◌, ◌≤◌, ◌<◌, length, take};
ghost use Rattle.laws.specs.Lists.{at};
ghost use Rattle.rules.specs.Limits.{day};
ghost use Rattle.rules.specs.Rows.{row_at, load};
ghost use Rattle.rules.specs.Plan.{run_rows};
ghost use Rattle.rules.specs.Bytes.{row_size, written};
ghost use Rattle.flat.specs.Flat.{rows_held, yard_held};
ghost use Rattle.search.specs.Lanes.{LanesHeld};
ghost use Rattle.planner.specs.Choice.{plan_of};
ghost use Rattle.planner.specs.Route.{Routed, PathFits};

use flat::{Rows, Ways, Windows, Yard};
use rules::Row;
use settle::Nodes;

// The row at k of the first count windows of a path, under a ticket: it is left when the next is entered, the last after its place's duration.
pub fn step_at(
    yard: &Yard,
    windows: &Windows,
    label: &[u32; 1280],
    path: &[u16; 1280],
    count: usize,
    k: usize,
    ticket: u32,
) -> Row
    requires path_fits { PathFits yard.now.dur windows.now.place label.now path.now count }
    requires k_lt_count { k < count }
    ensures { result ≡ row_at (run_rows ticket (plan_of yard.now.dur windows.now.place label.now (take count path.now))) k }
{
    let w = path[k] as usize;
    let p = windows.place[w];
    let e = label[w];
    if k + 1 < count {
        let v = path[k + 1] as usize;
        return Row::new(p, e, ticket, label[v], windows.place[v]);
    }
    Row::new(p, e, ticket, e + yard.dur[p as usize], p)
}

// The chosen plan from `origin` to `dest` at s as windows of path, in travel order: how many, none where no plan is permitted; and each window's
// earliest entry as its label, up to the plan's last entry, or all of them where no plan is permitted.
pub fn route(
    yard: &Yard,
    ways: &Ways,
    rows: &Rows,
    windows: &Windows,
    origin: usize,
    dest: usize,
    s: u32,
    nodes: &mut Nodes,
    path: &mut [u16; 1280],
) -> Option<usize>
    requires lanes { LanesHeld yard.now ways.now rows.now windows.now }
    requires by_index { (p t : ℕ) → p < (yard_held yard.now).places → load (rows_held rows.now) p t ≤ (yard_held yard.now).cap p }
    requires origin_lt_places { (origin < yard.now.places) × (dest < yard.now.places) × (s ≤ day) }
    requires by_index_2 { (v : ℕ) → v < 1280 → at nodes.old.label v ≡ 86401 }
    requires label_len { (length nodes.old.label ≡ 1280) × (length path.old ≡ 1280) }
    ensures { Routed (yard_held yard.now) (rows_held rows.now) origin dest s windows.now.count yard.now.dur windows.now.place windows.now.start windows.now.end nodes.new.label path.new result }
{
    let a = windows.first[origin] as usize;
    let b = windows.first[origin + 1] as usize;
    let src = search::begin_at(windows, a, b, s, yard.dur[origin])?;
    nodes.before = [0; 1280];
    let g = search::search(yard, ways, rows, windows, src, s, dest, nodes)?;
    Some(search::trail(&nodes.before, &nodes.label, g, path))
}

// The rows of a path over the first records of the caller's list, with ticket 0.
pub fn write_plan(
    yard: &Yard,
    windows: &Windows,
    label: &[u32; 1280],
    path: &[u16; 1280],
    count: usize,
    out: &mut [u8],
)
    requires path_fits { PathFits yard.now.dur windows.now.place label.now path.now count }
    requires count_in_bounds { row_size * count ≤ length out.old }
    ensures { out.new ≡ written (run_rows 0 (plan_of yard.now.dur windows.now.place label.now (take count path.now))) out.old }
{
    for j in 0..count {
        let r = step_at(yard, windows, label, path, count, j, 0);
        wire::put_at(r, j, out);
    }
}
