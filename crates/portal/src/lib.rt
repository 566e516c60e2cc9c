// The advisers' portal: map, book and answers as byte slices, for C or Rust to call.
#![tactic(auto)]

ghost use Rattle.std.specs.Prelude.{◌≡◌, ℕ, ◌≤◌, length};
ghost use Rattle.laws.specs.Lists.{at};
ghost use Rattle.rules.specs.Limits.{row_limit};
ghost use Rattle.rules.specs.Rows.{bit};
ghost use Rattle.rules.specs.Answer.{number, fault_row, answer_number, planned_arrival, planned_count, paged_count, paged_more};
ghost use Rattle.rules.specs.Portal.{one_number, PortalPlan, PortalPage};
ghost use Rattle.portal.specs.Read.{MapRead, BookRead};

use flat::{Rows, Yard};
use rules::{Book, Cursor, Place, Refusal, Shown, Trip};

// The places and links of a map slice in the arrays; no places, which no map has, where its counts don't give its length.
fn read_map(s: &[u8], yard: &mut Yard)
    ensures { MapRead s.now yard.new.cap yard.new.dur yard.new.from yard.new.to yard.new.places yard.new.links }
{
    if !wire::map_shape(s) {
        yard.places = 0;
        yard.links = 0;
        return;
    }
    let n = wire::two(s, 0) as usize;
    let k = wire::two(s, 2) as usize;
    wire::read_places(s, n, &mut yard.cap, &mut yard.dur);
    wire::read_links(s, 4 + Place::BYTES * n, k, &mut yard.from, &mut yard.to);
    yard.places = n;
    yard.links = k;
}

// The rows of a book slice in the arrays; 1,025 rows, which no book has, where its count doesn't give its length.
fn read_book(s: &[u8], rows: &mut Rows)
    requires { (i : ℕ) → at rows.old.key i ≡ 0 }
    ensures { BookRead s.now rows.new.key rows.new.tail rows.new.count rows.new.next_ticket }
{
    if !wire::book_shape(s) {
        rows.count = Book::UNREAD;
        rows.next_ticket = 0;
        return;
    }
    rows.next_ticket = wire::three(s, 0);
    rows.count = wire::two(s, 3) as usize;
    wire::read_rows(s, rows.count, &mut rows.key, &mut rows.tail);
}

// A refusal as one number: its own, and the row that it names.
fn packed_refusal(r: Refusal) -> u64
    requires { fault_row r ≤ 1844674407370955161 }
    ensures { result ≡ one_number (number r) 0 (fault_row r) }
{
    u64::from(r.number()) * 4294967296 + r.row() as u64
}

// A plan's answer as one number; this and a page's stay apart, since each packs other numbers.
fn packed_plan(p: Result<Trip, Refusal>) -> u64
    requires { planned_count p ≤ 1844674407370955161 }
    ensures { result ≡ one_number (answer_number p) (planned_arrival p) (planned_count p) }
{
    match p {
        Ok(t) => u64::from(t.arrival) * 2048 + t.count as u64,
        Err(r) => packed_refusal(r),
    }
}

// A page's answer as one number.
fn packed_page(p: Result<Shown, Refusal>) -> u64
    requires { paged_count p ≤ row_limit }
    ensures { result ≡ one_number (answer_number p) (bit (paged_more p)) (paged_count p) }
{
    match p {
        Ok(s) => u64::from(s.more) * 2048 + s.count as u64,
        Err(r) => packed_refusal(r),
    }
}

// The earliest permitted plan from start to destination at a second: its rows in the answer's records.
#[unsafe(no_mangle)]
pub extern "C" fn lanebook_plan(
    map: &[u8],
    book: &[u8],
    start: u32,
    destination: u32,
    second: u32,
    answer: &mut [u8],
) -> u64
    ensures { PortalPlan map.now book.now start destination second answer.old answer.new result }
{
    let mut yard = Yard::default();
    let mut rows = Rows::default();
    read_map(map, &mut yard);
    read_book(book, &mut rows);
    let p = desk::plan_flat(&yard, &rows, start, destination, second, answer);
    packed_plan(p)
}

// The rows of the book after a cursor, in the answer's records.
#[unsafe(no_mangle)]
pub extern "C" fn lanebook_page(
    map: &[u8],
    book: &[u8],
    size: u32,
    place: u32,
    entry: u32,
    ticket: u32,
    answer: &mut [u8],
) -> u64
    ensures { PortalPage map.now book.now size (record { place = place; entry = entry; ticket = ticket }) answer.old answer.new result }
{
    let mut yard = Yard::default();
    let mut rows = Rows::default();
    read_map(map, &mut yard);
    read_book(book, &mut rows);
    let c = Cursor {
        place: place,
        entry: entry,
        ticket: ticket,
    };
    let p = paging::page_flat(&yard, &rows, size, c, answer);
    packed_page(p)
}
