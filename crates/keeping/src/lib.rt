// A booking and a cancellation leave a well-formed book well formed, as mathematics. It stands in specs/; the crate has no code to run.
#![tactic(auto)]

pub fn same(x: u32) -> u32 {
    x
}
