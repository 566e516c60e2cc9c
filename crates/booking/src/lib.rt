// The two calls that change the book, on a map and a book by value.
#![tactic(auto)]

ghost use Rattle.std.specs.Prelude.{◌≡◌, ℕ, ◌≤◌, length, take};
ghost use Rattle.laws.specs.Lists.{at};
ghost use Rattle.rules.specs.Rows.{insert_all};
ghost use Rattle.rules.specs.Plan.{run_rows};
ghost use Rattle.rules.specs.Book.{rows_of, book_of};
ghost use Rattle.rules.specs.Limits.{row_limit};
ghost use Rattle.rules.specs.Answer.{BookSound, BookIs, CancelSound, CancelIs};
ghost use Rattle.flat.specs.Flat.{yard_held};
ghost use Rattle.planner.specs.Choice.{plan_of};
ghost use Rattle.planner.specs.Route.{PathFits};
ghost use Rattle.ledger.specs.Inserting.{Inserting};
ghost use Rattle.booking.specs.Survey.{Surveyed, Ready};

use flat::{Rows, Ways, Windows, Yard};
use rules::{Book, Change, Cursor, Issued, Map, Refusal};
use settle::Nodes;

// Map and book written to arrays and vetted.
fn survey(
    m: Map,
    b: Book,
    yard: &mut Yard,
    ways: &mut Ways,
    rows: &mut Rows,
    windows: &mut Windows,
) -> Result<usize, Refusal>
    requires ways_len { (length ways.old.head ≡ 256) × (length ways.old.chain ≡ 1024) }
    requires windows_len { (length windows.old.start ≡ 1280) × (length windows.old.end ≡ 1280) × (length windows.old.place ≡ 1280) × (length windows.old.first ≡ 257) }
    requires no_links { (p : ℕ) → at ways.old.head p ≡ 0 }
    requires no_rows { (i : ℕ) → at rows.old.key i ≡ 0 }
    ensures counts { (yard.new.places ≡ m.place_count) × (yard.new.links ≡ m.link_count) }
    ensures surveyed { Surveyed m b yard.new.cap yard.new.dur yard.new.from yard.new.to ways.new.head ways.new.chain rows.new.key rows.new.tail rows.new.count windows.new.place windows.new.start windows.new.end windows.new.first result }
{
    yard.places = m.place_count;
    yard.links = m.link_count;
    flatten::flat_places(m, &mut yard.cap, &mut yard.dur);
    flatten::flat_links(m, &mut yard.from, &mut yard.to);
    rows.next_ticket = b.next_ticket;
    rows.count = flatten::read_book(b, &mut rows.key, &mut rows.tail);
    vet::vet(yard, ways, rows, windows)
}

// The rows of a path under a ticket put into the book, one after the other: the rows above a new one move up, the last first.
fn enter_rows(
    b: &mut Book,
    yard: &Yard,
    windows: &Windows,
    label: &[u32; 1280],
    path: &[u16; 1280],
    count: usize,
    ticket: u32,
)
    requires path_fits { PathFits yard.now.dur windows.now.place label.now path.now count }
    requires inserting { Inserting (run_rows ticket (plan_of yard.now.dur windows.now.place label.now (take count path.now))) (rows_of b.old) b.old.next_ticket 0 b.old }
    ensures { b.new ≡ book_of (insert_all (run_rows ticket (plan_of yard.now.dur windows.now.place label.now (take count path.now))) (rows_of b.old)) b.old.next_ticket }
{
    for k in 0..count {
        let r = planner::step_at(yard, windows, label, path, count, k, ticket);
        let key = Cursor::from(r);
        let n = b.count;
        // Where this loop ends is where the row goes.
        let mut j = n;
        while 0 < j {
            let x = b.rows[j - 1];
            if !key.before(x) {
                break;
            }
            b.rows[j] = x;
            j -= 1;
        }
        b.rows[j] = r;
        b.count = n + 1;
    }
}

// Booking where map and book are sound: 3, 4, 8, 5, 7, or the plan's rows under the next ticket.
fn book_sound(
    yard: &Yard,
    ways: &Ways,
    rows: &Rows,
    windows: &Windows,
    b: &mut Book,
    origin: u32,
    dest: u32,
    s: u32,
) -> Result<Issued, Refusal>
    requires { Ready b.old yard.now.cap yard.now.dur yard.now.from yard.now.to ways.now.head ways.now.chain yard.now.places yard.now.links rows.now.key rows.now.tail rows.now.count windows.now.place windows.now.start windows.now.end windows.now.first windows.now.count }
    ensures { BookSound (yard_held yard.now) (rows_of b.old) b.old origin dest s (record { book = b.new; answer = result }) }
{
    let a = origin as usize;
    let z = dest as usize;
    if a >= yard.places || z >= yard.places {
        return Err(Refusal::OffMap);
    }
    if s > Map::DAY {
        return Err(Refusal::OffDay);
    }
    let ticket = b.next_ticket;
    if ticket >= Book::TICKETS {
        return Err(Refusal::NoTickets);
    }
    let mut nodes = Nodes::default();
    nodes.label = [86401; 1280];
    let mut path = [0u16; 1280];
    let Some(c) = planner::route(yard, ways, rows, windows, a, z, s, &mut nodes, &mut path) else {
        return Err(Refusal::NoPlan);
    };
    if b.count + c > Book::ROWS {
        return Err(Refusal::FullBook);
    }
    let last = planner::step_at(yard, windows, &nodes.label, &path, c, c - 1, ticket);
    enter_rows(b, yard, windows, &nodes.label, &path, c, ticket);
    *b = ledger::issued(*b);
    Ok(Issued {
        ticket,
        arrival: last.exit,
        count: c,
    })
}

// The plan that planning gives, booked in place: a refusal leaves the book as it was.
fn book_in(
    m: Map,
    b: &mut Book,
    start: u32,
    destination: u32,
    second: u32,
) -> Result<Issued, Refusal>
    ensures { BookIs m b.old start destination second (record { book = b.new; answer = result }) }
{
    let mut yard = Yard::default();
    let mut ways = Ways::default();
    let mut rows = Rows::default();
    let mut windows = Windows::default();
    windows.count = survey(m, *b, &mut yard, &mut ways, &mut rows, &mut windows)?;
    book_sound(&yard, &ways, &rows, &windows, b, start, destination, second)
}

// The plan that planning gives, booked under the next ticket.
pub fn book(m: Map, b: Book, start: u32, destination: u32, second: u32) -> Change<Issued>
    ensures { BookIs m b start destination second result }
{
    let mut book = b;
    let answer = book_in(m, &mut book, start, destination, second);
    Change { book, answer }
}

// A ticket's rows taken out of a sound book.
fn cancel_sound(b: &mut Book, ticket: u32) -> Result<usize, Refusal>
    requires { b.old.count ≤ row_limit }
    ensures { CancelSound b.old ticket (record { book = b.new; answer = result }) }
{
    let r = ledger::remove_ticket(*b, ticket);
    if r.count == 0 {
        return Err(Refusal::UnknownTicket);
    }
    *b = r.book;
    Ok(r.count)
}

// A ticket's rows taken out in place: a refusal leaves the book as it was.
fn cancel_in(m: Map, b: &mut Book, ticket: u32) -> Result<usize, Refusal>
    ensures { CancelIs m b.old ticket (record { book = b.new; answer = result }) }
{
    let mut yard = Yard::default();
    let mut ways = Ways::default();
    let mut rows = Rows::default();
    let mut windows = Windows::default();
    survey(m, *b, &mut yard, &mut ways, &mut rows, &mut windows)?;
    cancel_sound(b, ticket)
}

// A ticket's rows taken out of the book.
pub fn cancel(m: Map, b: Book, ticket: u32) -> Change<usize>
    ensures { CancelIs m b ticket result }
{
    let mut book = b;
    let answer = cancel_in(m, &mut book, ticket);
    Change { book, answer }
}
