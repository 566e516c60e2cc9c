// Laws that speak of no barn: order, tests, lists. They stand in specs/; the crate has no code to run.
#![tactic(auto)]

pub fn same(x: u32) -> u32 {
    x
}
