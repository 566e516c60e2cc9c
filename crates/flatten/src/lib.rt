// Turns a map and a book, as they are handed over by value, into the arrays of numbers that all below works on.
#![tactic(auto)]

ghost use Rattle.std.specs.Prelude.{◌≡◌, ℕ, ◌<◌, length};
ghost use Rattle.laws.specs.Lists.{at};
ghost use Rattle.laws.specs.Tests.{Decides};
ghost use Rattle.rules.specs.Rows.{no_row};
ghost use Rattle.flat.specs.Flat.{key_of};
ghost use Rattle.flatten.specs.Maps.{PlacesFlat, LinksFlat};
ghost use Rattle.flatten.specs.Read.{BookRead};
ghost use Rattle.flatten.specs.Books.{InRange, Unused};

use rules::{Book, Map, Row};

// capacity and duration of each place
pub fn flat_places(m: Map, cap: &mut [u8; 256], dur: &mut [u32; 256])
    requires cap_len { length cap.old ≡ 256 }
    requires dur_len { length dur.old ≡ 256 }
    ensures { PlacesFlat m cap.new dur.new }
{
    // by index: over `iter().enumerate()` the compiler gathers byte by byte
    for p in 0..Map::PLACES {
        let place = m.places[p];
        cap[p] = place.capacity;
        dur[p] = u32::from(place.duration);
    }
}

// where each link goes from and to
pub fn flat_links(m: Map, from: &mut [u8; 1024], to: &mut [u8; 1024])
    requires from_len { length from.old ≡ 1024 }
    requires to_len { length to.old ≡ 1024 }
    ensures { LinksFlat m from.new to.new }
{
    // by index: over `iter().enumerate()` the compiler gathers byte by byte
    for j in 0..Map::LINKS {
        let link = m.links[j];
        from[j] = link.from;
        to[j] = link.to;
    }
}

// an entry and an exit of the day, and a ticket that can be issued
fn row_in_range(r: Row) -> bool
    ensures { Decides result (InRange r) }
{
    r.entry <= Map::DAY && r.exit <= Map::DAY && r.ticket < Book::TICKETS
}

// a row's key as one number, and that its place is a byte
fn row_key(r: Row) -> u64
    ensures { (result ≡ key_of r.place r.entry r.ticket) × (r.place < 256) }
{
    u64::from(r.place) * flat::PLACE + u64::from(r.entry) * flat::SECOND + u64::from(r.ticket)
}

// all fields zero
fn is_zero(r: Row) -> bool
    ensures { Decides result (r ≡ no_row) }
{
    // by `&`: `==` of two rows is a branch for each field, and most slots of a book are unused
    (r.place == 0) & (r.entry == 0) & (r.ticket == 0) & (r.exit == 0) & (r.next == 0)
}

// slots with all fields zero
fn are_unused(rows: &[Row]) -> bool
    ensures { Decides result (Unused rows.now) }
{
    rows.iter().all(|r| is_zero(*r))
}

// The book's rows in the arrays: their count, and 1,025, which no book has, where the book is not one.
// A count, and no Option: refusals ask the map first, so an unread book is handed on as a count that no book has.
pub fn read_book(b: Book, key: &mut [u64; 1024], tail: &mut [u32; 1024]) -> usize
    requires key_len { length key.old ≡ 1024 }
    requires tail_len { length tail.old ≡ 1024 }
    requires by_index { (i : ℕ) → at key.old i ≡ 0 }
    ensures { BookRead b key.new tail.new result }
{
    let n = b.count;
    if n > Book::ROWS {
        return Book::UNREAD;
    }
    for (i, r) in b.rows[..n].iter().enumerate() {
        if !row_in_range(*r) {
            return Book::UNREAD;
        }
        key[i] = row_key(*r);
        tail[i] = flat::tail_of(r.exit, r.next);
    }
    if !are_unused(&b.rows[n..]) {
        return Book::UNREAD;
    }
    n
}
