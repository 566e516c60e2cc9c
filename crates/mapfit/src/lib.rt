// Tests a map that is given as arrays, and links its links by place.
#![tactic(auto)]

ghost use Rattle.std.specs.Prelude.{◌≡◌, ℕ, ◌≤◌, ◌<◌, length};
ghost use Rattle.laws.specs.Lists.{at};
ghost use Rattle.laws.specs.Tests.{Decides};
ghost use Rattle.rules.specs.Limits.{place_limit, link_limit};
ghost use Rattle.rules.specs.Map.{linked};
ghost use Rattle.flat.specs.Flat.{links_in, Chained};
ghost use Rattle.mapfit.specs.Fits.{PlaceFits, LinkFits, PlacesFit, LinksFit, Once, MapFits};
ghost use Rattle.mapfit.specs.Walk.{Linking, PlaceOnce};

use flat::{Ways, Yard};
use rules::Map;

// a capacity from 1 to 16 and a duration from 1 to 3,600
fn place_fits(c: u8, d: u32) -> bool
    ensures { Decides result (PlaceFits c d) }
{
    (1..=Map::CAPACITY).contains(&c) && (1..=Map::DURATION).contains(&d)
}

// each of the first n places has a capacity and a duration within the limits
fn places_fit(yard: &Yard) -> bool
    requires { yard.now.places ≤ place_limit }
    ensures { Decides result (PlacesFit yard.now.cap yard.now.dur yard.now.places) }
{
    yard.cap[..yard.places]
        .iter()
        .zip(&yard.dur)
        .all(|(c, d)| place_fits(*c, *d))
}

// a link between two different places of n
fn link_fits(n: usize, f: u8, t: u8) -> bool
    ensures { Decides result (LinkFits n f t) }
{
    usize::from(f) < n && usize::from(t) < n && f != t
}

// each of the first k links is one between two different places of n
fn links_fit(yard: &Yard) -> bool
    requires { yard.now.links ≤ link_limit }
    ensures { Decides result (LinksFit yard.now.from yard.now.to yard.now.places yard.now.links) }
{
    yard.from[..yard.links]
        .iter()
        .zip(&yard.to)
        .all(|(f, t)| link_fits(yard.places, *f, *t))
}

// the first k links by the place that they leave, each place's last link first
fn chain_links(yard: &Yard, ways: &mut Ways)
    requires k_le_link_limit { yard.now.links ≤ link_limit }
    requires head_len { length ways.old.head ≡ 256 }
    requires chain_len { length ways.old.chain ≡ 1024 }
    requires by_index { (p : ℕ) → at ways.old.head p ≡ 0 }
    ensures { Linking yard.now.from yard.now.links ways.new.head ways.new.chain }
{
    for j in 0..yard.links {
        let f = usize::from(yard.from[j]);
        ways.chain[j] = ways.head[f];
        ways.head[f] = (j + 1) as u16;
    }
}

// no two links leave p for the same place: each place that a link of p goes to is marked with p + 1
fn place_once(yard: &Yard, ways: &Ways, p: usize, mark: &mut [u16; 256]) -> bool
    requires p_bound { p < 256 }
    requires k_le_link_limit { yard.now.links ≤ link_limit }
    requires chained { Chained yard.now.from yard.now.links ways.now.head ways.now.chain }
    requires by_index { (q : ℕ) → at mark.old q ≤ p }
    requires mark_len { length mark.old ≡ 256 }
    ensures { PlaceOnce yard.now.from yard.now.to yard.now.links p mark.new result }
{
    let m = (p + 1) as u16;
    let mut l = ways.head[p] as usize;
    // from link to link by the numbers in fixed memory, so no range to go over
    while l > 0 {
        let q = usize::from(yard.to[l - 1]);
        if mark[q] == m {
            return false;
        }
        mark[q] = m;
        l = ways.chain[l - 1] as usize;
    }
    true
}

// no two of the first k links are the same
fn links_once(yard: &Yard, ways: &Ways) -> bool
    requires n_le_place_limit { yard.now.places ≤ place_limit }
    requires k_le_link_limit { yard.now.links ≤ link_limit }
    requires chained { Chained yard.now.from yard.now.links ways.now.head ways.now.chain }
    requires by_index { (j : ℕ) → j < yard.now.links → at yard.now.from j < yard.now.places }
    ensures { Decides result (Once yard.now.from yard.now.to yard.now.links) }
{
    let mut mark = [0u16; 256];
    for p in 0..yard.places {
        if !place_once(yard, ways, p, &mut mark) {
            return false;
        }
    }
    true
}

// The arrays are a map that keeps the rules; head and chain then have its links by place.
pub fn map_fits(yard: &Yard, ways: &mut Ways) -> bool
    requires head_len { length ways.old.head ≡ 256 }
    requires chain_len { length ways.old.chain ≡ 1024 }
    requires by_index { (p : ℕ) → at ways.old.head p ≡ 0 }
    ensures { MapFits yard.now.places yard.now.links yard.now.cap yard.now.dur yard.now.from yard.now.to ways.new.head ways.new.chain result }
{
    if yard.places < 1 || yard.places > Map::PLACES || yard.links > Map::LINKS {
        return false;
    }
    if !places_fit(yard) || !links_fit(yard) {
        return false;
    }
    chain_links(yard, ways);
    links_once(yard, ways)
}

// a link goes from p to q
pub fn linked_by(yard: &Yard, ways: &Ways, p: usize, q: u8) -> bool
    requires p_bound { p < 256 }
    requires k_le_link_limit { yard.now.links ≤ link_limit }
    requires chained { Chained yard.now.from yard.now.links ways.now.head ways.now.chain }
    ensures { result ≡ linked (links_in yard.now.from yard.now.to yard.now.links) p q }
{
    let mut l = ways.head[p] as usize;
    // from link to link by the numbers in fixed memory, so no range to go over
    while l > 0 {
        if yard.to[l - 1] == q {
            return true;
        }
        l = ways.chain[l - 1] as usize;
    }
    false
}
