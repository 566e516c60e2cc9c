// The page call: over lent arrays of numbers, and on a map and a book by value.
#![tactic(auto)]

ghost use Rattle.std.specs.Prelude.{◌≡◌, ◌≤◌};
ghost use Rattle.rules.specs.Map.{Yard as AnyYard};
ghost use Rattle.rules.specs.Rows.{cursor_key};
ghost use Rattle.rules.specs.Answer.{PageSound, PageSays, PageIs};
ghost use Rattle.flat.specs.Flat.{Packed, KeysRise, papers_held, rows_held};

use flat::{Rows, Ways, Windows, Yard};
use rules::{Book, Cursor, Map, Refusal, Row, Shown};

// A page where map and book are sound, on a map of n places: 10, 11, 6, or the rows after the cursor.
fn page_sound(n: usize, rows: &Rows, size: u32, c: Cursor, out: &mut [u8]) -> Result<Shown, Refusal>
    requires count_bound { rows.now.count ≤ 1024 }
    requires keys_rise { KeysRise rows.now.key rows.now.count }
    requires packed { Packed rows.now.key }
    ensures { (Y : AnyYard) → Y.places ≡ n → PageSound Y (rows_held rows.now) size (cursor_key c) out.old out.new result }
{
    if size == 0 || size > Cursor::PAGE {
        return Err(Refusal::BadSize);
    }
    let p = c.place as usize;
    if p >= n || c.entry > Map::DAY || c.ticket >= Book::TICKETS {
        return Err(Refusal::BadCursor);
    }
    if out.len() / Row::BYTES < size as usize {
        return Err(Refusal::ShortList);
    }
    Ok(pages::page_of(rows, size, c, out))
}

// A page over arrays: 1, 2, 10, 11, 6, or the rows after the cursor.
pub fn page_flat(
    yard: &Yard,
    rows: &Rows,
    size: u32,
    c: Cursor,
    out: &mut [u8],
) -> Result<Shown, Refusal>
    requires { Packed rows.now.key }
    ensures { PageSays (papers_held yard.now rows.now) size (cursor_key c) out.old out.new result }
{
    let mut ways = Ways::default();
    let mut windows = Windows::default();
    // named, so that must-fail/bad_map_as_bad_book can change it before it is handed on
    let vetted = vet::vet(yard, &mut ways, rows, &mut windows);
    vetted?;
    page_sound(yard.places, rows, size, c, out)
}

// The rows of the book after a cursor: they are written to the caller's list.
pub fn page(m: Map, b: Book, size: u32, c: Cursor, out: &mut [u8]) -> Result<Shown, Refusal>
    ensures { PageIs m b size (cursor_key c) out.old out.new result }
{
    let mut yard = Yard {
        places: m.place_count,
        links: m.link_count,
        ..Yard::default()
    };
    flatten::flat_places(m, &mut yard.cap, &mut yard.dur);
    flatten::flat_links(m, &mut yard.from, &mut yard.to);
    let mut rows = Rows {
        next_ticket: b.next_ticket,
        ..Rows::default()
    };
    rows.count = flatten::read_book(b, &mut rows.key, &mut rows.tail);
    page_flat(&yard, &rows, size, c, out)
}
