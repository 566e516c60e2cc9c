// Map and book vetted together, as every call does first.
#![tactic(auto)]

ghost use Rattle.std.specs.Prelude.{◌≡◌, ℕ, length};
ghost use Rattle.laws.specs.Lists.{at};
ghost use Rattle.flat.specs.Flat.{Packed, papers_held, rows_held};
ghost use Rattle.search.specs.Lanes.{Lanes};
ghost use Rattle.vet.specs.Vetted.{Vetted};

use flat::{Rows, Ways, Windows, Yard};
use rules::Refusal;

// Map and book tested: how many free windows there are, which the caller counts in `windows`, or why one is refused.
pub fn vet(
    yard: &Yard,
    ways: &mut Ways,
    rows: &Rows,
    windows: &mut Windows,
) -> Result<usize, Refusal>
    requires head_len { (length ways.old.head ≡ 256) × (length ways.old.chain ≡ 1024) }
    requires by_index { (p : ℕ) → at ways.old.head p ≡ 0 }
    requires packed { Packed rows.now.key }
    requires start_len { (length windows.old.start ≡ 1280) × (length windows.old.end ≡ 1280) × (length windows.old.place ≡ 1280) × (length windows.old.first ≡ 257) }
    ensures { Vetted (papers_held yard.now rows.now) (Lanes yard.now.cap yard.now.dur yard.now.from yard.now.to ways.new.head ways.new.chain yard.now.places yard.now.links (rows_held rows.now) rows.now.count windows.new.place windows.new.start windows.new.end windows.new.first) result }
{
    if !mapfit::map_fits(yard, ways) {
        return Err(Refusal::BadMap);
    }
    bookfit::book_fits(yard, ways, rows, windows)
}
