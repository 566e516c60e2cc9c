// Label setting over lent arrays: the choice of the next node through block minima.
#![tactic(auto)]

ghost use Rattle.std.specs.Prelude.{◌≡◌, ◌+◌, ◌*◌, ◌≤◌, ◌<◌, min, get_or, set};
ghost use Rattle.std.specs.List.{fold};
ghost use Rattle.settle.specs.Blocks.{Blocks, Stands, FirstAt, Picked, Offered};

// What a search knows of its nodes: the label of each, 86,401 where it has none; the label again while the node is open, and the least of each 32 of these;
// and the node before, with one added, 0 where there is none.
#[derive(Default, Drop)]
pub struct Nodes {
    pub label: [u32; 1280],
    pub live: [u32; 1280],
    pub least: [u32; 40],
    pub before: [u16; 1280],
}

// the least of the entries, the mark 86,401 where none is open
fn least_of(entries: &[u32]) -> u32
    ensures { result ≡ fold min 86401 entries.now }
{
    entries.iter().fold(86401, |x, y| x.min(*y))
}

// where x first stands
fn first_at(entries: &[u32], x: u32) -> usize
    requires { Stands entries.now x }
    ensures { FirstAt entries.now x result }
{
    entries.iter().position(|y| *y == x).unwrap()
}

// the open node of least entry, of those the first
pub fn pick(live: &[u32; 1280], least: &[u32; 40], blocks: usize) -> Option<usize>
    requires le_blocks { 1 ≤ blocks }
    requires blocks_bound { blocks ≤ 40 }
    requires blocks { Blocks live.now least.now }
    ensures { Picked (32 * blocks) live.now result }
{
    let x = least_of(&least[..blocks]);
    if x > 86400 {
        return None;
    }
    let k = first_at(&least[..blocks], x);
    let a = 32 * k;
    Some(a + first_at(&live[a..a + 32], x))
}

// node w is open no more
pub fn close(live: &mut [u32; 1280], least: &mut [u32; 40], w: usize)
    requires w_bound { w < 1280 }
    requires blocks { Blocks live.old least.old }
    ensures { (live.new ≡ set live.old w 86401) × Blocks live.new least.new }
{
    live[w] = 86401;
    let k = w / 32;
    let a = 32 * k;
    least[k] = least_of(&live[a..a + 32]);
}

// entry t into v by way of w, taken where it is sooner than what v has
pub fn offer(nodes: &mut Nodes, v: usize, w: usize, t: u32)
    requires v_bound { v < 1280 }
    requires w_bound { w < 1280 }
    requires blocks { Blocks nodes.old.live nodes.old.least }
    requires v_bound_2 { get_or nodes.old.label v 0 ≤ get_or nodes.old.live v 0 }
    ensures { Offered nodes.old.label nodes.old.live nodes.old.before v w t nodes.new.label nodes.new.live nodes.new.before × Blocks nodes.new.live nodes.new.least }
{
    if t < nodes.label[v] {
        nodes.label[v] = t;
        nodes.live[v] = t;
        nodes.before[v] = (w + 1) as u16;
        let k = v / 32;
        let least = nodes.least[k];
        if t < least {
            nodes.least[k] = t;
        }
    }
}
