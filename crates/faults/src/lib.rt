// A book is good or has exactly one fault, and what the row that a fault names says, as mathematics. It stands in specs/; the crate has no code to run.
#![tactic(auto)]

pub fn same(x: u32) -> u32 {
    x
}
