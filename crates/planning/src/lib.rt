// The planning call on a map and a book by value.
#![tactic(auto)]

ghost use Rattle.rules.specs.Answer.{PlanIs};

use flat::{Rows, Yard};
use rules::{Book, Map, Refusal, Trip};

// The earliest permitted plan from start to destination at a second beside the book: its rows are written to the caller's list.
pub fn plan(
    m: Map,
    b: Book,
    start: u32,
    destination: u32,
    second: u32,
    out: &mut [u8],
) -> Result<Trip, Refusal>
    ensures { PlanIs m b start destination second out.old out.new result }
{
    let mut yard = Yard {
        places: m.place_count,
        links: m.link_count,
        ..Yard::default()
    };
    flatten::flat_places(m, &mut yard.cap, &mut yard.dur);
    flatten::flat_links(m, &mut yard.from, &mut yard.to);
    let mut rows = Rows {
        next_ticket: b.next_ticket,
        ..Rows::default()
    };
    rows.count = flatten::read_book(b, &mut rows.key, &mut rows.tail);
    desk::plan_flat(&yard, &rows, start, destination, second, out)
}
