// A walk over a moving book, page by page, as a theorem about the calls' contracts. It stands in specs/; the crate has no code to run.
#![tactic(auto)]

pub fn same(x: u32) -> u32 {
    x
}
