// Label setting as mathematics, over any nodes and any next function that is monotone and strictly later.
// It stands in specs/; the crate has no code to run.
#![tactic(auto)]

pub fn same(x: u32) -> u32 {
    x
}
