// Each ticket's rows are a whole plan exactly where every row finds its successor: as mathematics.
// It stands in specs/; the crate has no code to run.
#![tactic(auto)]

pub fn same(x: u32) -> u32 {
    x
}
