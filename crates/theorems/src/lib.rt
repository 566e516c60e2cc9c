// What is proved, gathered: specs/Theorems.antt states each demand of the barn as a theorem about the calls' own contracts.
// The crate has no code to run.
#![tactic(auto)]

pub fn same(x: u32) -> u32 {
    x
}
