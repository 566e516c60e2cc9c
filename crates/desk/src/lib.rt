// The calls' answers over lent arrays: what is said once map and book are known as numbers.
#![tactic(auto)]

ghost use Rattle.std.specs.Prelude.{ℕ, ◌≤◌, ◌<◌};
ghost use Rattle.rules.specs.Rows.{load};
ghost use Rattle.rules.specs.Answer.{PlanSound, PlanSays};
ghost use Rattle.flat.specs.Flat.{Packed, papers_held, rows_held, yard_held};
ghost use Rattle.search.specs.Lanes.{LanesHeld};

use flat::{Rows, Ways, Windows, Yard};
use rules::{Map, Refusal, Row, Trip};
use settle::Nodes;

// Planning where map and book are sound: 3, 4, 5, 6, or the plan.
fn plan_sound(
    yard: &Yard,
    ways: &Ways,
    rows: &Rows,
    windows: &Windows,
    origin: u32,
    dest: u32,
    s: u32,
    out: &mut [u8],
) -> Result<Trip, Refusal>
    requires lanes { LanesHeld yard.now ways.now rows.now windows.now }
    requires by_index { (p t : ℕ) → p < (yard_held yard.now).places → load (rows_held rows.now) p t ≤ (yard_held yard.now).cap p }
    ensures { PlanSound (yard_held yard.now) (rows_held rows.now) origin dest s out.old out.new result }
{
    let a = origin as usize;
    let z = dest as usize;
    if a >= yard.places || z >= yard.places {
        return Err(Refusal::OffMap);
    }
    if s > Map::DAY {
        return Err(Refusal::OffDay);
    }
    let mut nodes = Nodes::default();
    nodes.label = [86401; 1280];
    let mut path = [0u16; 1280];
    let Some(c) = planner::route(yard, ways, rows, windows, a, z, s, &mut nodes, &mut path) else {
        return Err(Refusal::NoPlan);
    };
    if out.len() / Row::BYTES < c {
        return Err(Refusal::ShortList);
    }
    planner::write_plan(yard, windows, &nodes.label, &path, c, out);
    let last = planner::step_at(yard, windows, &nodes.label, &path, c, c - 1, 0);
    Ok(Trip {
        arrival: last.exit,
        count: c,
    })
}

// Planning over arrays: 1, 2, 3, 4, 5, 6, or the plan.
pub fn plan_flat(
    yard: &Yard,
    rows: &Rows,
    origin: u32,
    dest: u32,
    s: u32,
    out: &mut [u8],
) -> Result<Trip, Refusal>
    requires { Packed rows.now.key }
    ensures { PlanSays (papers_held yard.now rows.now) origin dest s out.old out.new result }
{
    let mut ways = Ways::default();
    let mut windows = Windows::default();
    windows.count = vet::vet(yard, &mut ways, rows, &mut windows)?;
    plan_sound(yard, &ways, rows, &windows, origin, dest, s, out)
}
