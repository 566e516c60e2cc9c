// Plan and page on the small barn, with their rows written to lists of row records of different lengths: none, too short, exact and longer; and each
// of their refusals.
#![tactic(auto)]

ghost use Rattle.std.specs.Prelude.{◌≡◌, ◌≤◌, take, drop};
ghost use Rattle.laws.specs.Tests.{Decides};
ghost use Rattle.rules.specs.Rows.{cursor_key};
ghost use Rattle.rules.specs.Answer.{PlanRecords, PageRecords};
ghost use Rattle.records_show.specs.Shown.{barn_map, marks, planned, paged, both_book, PlanOn, PageOn};

use rules::{Book, Cursor, Link, Map, Place, Refusal, Row, Shown, Trip};
use std::io;

// Eight records after a call, and its answer.
#[derive(Clone, Copy)]
struct After<T> {
    rows: [Row; 8],
    answer: Result<T, Refusal>,
}

// The first n of eight records are lent to the plan.
fn lend_plan(
    m: Map,
    b: Book,
    start: u32,
    destination: u32,
    second: u32,
    rows: [Row; 8],
    n: usize,
) -> After<Trip>
    requires { n ≤ 8 }
    ensures { PlanRecords m b start destination second (take n rows) (take n result.rows) result.answer × (drop n result.rows ≡ drop n rows) }
{
    let mut list = rows;
    let answer = records::plan_rows(m, b, start, destination, second, &mut list[..n]);
    After { rows: list, answer }
}

// The first n of eight records are lent to the page.
fn lend_page(m: Map, b: Book, size: u32, c: Cursor, rows: [Row; 8], n: usize) -> After<Shown>
    requires { n ≤ 8 }
    ensures { PageRecords m b size (cursor_key c) (take n rows) (take n result.rows) result.answer × (drop n result.rows ≡ drop n rows) }
{
    let mut list = rows;
    let answer = records::page_rows(m, b, size, c, &mut list[..n]);
    After { rows: list, answer }
}

// "place 0 capacity 2 duration 10; 1, 2, 3 capacity 1, durations 20, 30, 10", with the links 0 to 1, 1 to 3, 0 to 2, 2 to 3, 3 to 1, 1 to 0.
fn barn() -> Map
    ensures { result ≡ barn_map }
{
    let mut places = [Place::default(); Map::PLACES];
    places[0] = Place {
        capacity: 2,
        duration: 10,
    };
    places[1] = Place {
        capacity: 1,
        duration: 20,
    };
    places[2] = Place {
        capacity: 1,
        duration: 30,
    };
    places[3] = Place {
        capacity: 1,
        duration: 10,
    };
    let mut links = [Link::default(); Map::LINKS];
    links[0] = Link { from: 0, to: 1 };
    links[1] = Link { from: 1, to: 3 };
    links[2] = Link { from: 0, to: 2 };
    links[3] = Link { from: 2, to: 3 };
    links[4] = Link { from: 3, to: 1 };
    links[5] = Link { from: 1, to: 0 };
    Map {
        places,
        links,
        place_count: 4,
        link_count: 6,
    }
}

// The book with tickets 1 and 2 of the cases.
fn booked() -> Book
    ensures { result ≡ both_book }
{
    let mut rows = [Row::none(); Book::ROWS];
    rows[0] = Row::new(0, 0, 1, 10, 1);
    rows[1] = Row::new(0, 0, 2, 10, 2);
    rows[2] = Row::new(1, 10, 1, 30, 3);
    rows[3] = Row::new(2, 10, 2, 40, 3);
    rows[4] = Row::new(3, 30, 1, 40, 3);
    rows[5] = Row::new(3, 40, 2, 50, 3);
    Book {
        rows,
        count: 6,
        next_ticket: 3,
    }
}

// Eight records before a call.
fn marked() -> [Row; 8]
    ensures { result ≡ marks }
{
    [Row::new(9, 9, 9, 9, 9); 8]
}

// The same with the plan's three rows in front.
fn planned_rows() -> [Row; 8]
    ensures { result ≡ planned }
{
    let mut rows = marked();
    rows[0] = Row::new(0, 10, 0, 30, 1);
    rows[1] = Row::new(1, 30, 0, 50, 3);
    rows[2] = Row::new(3, 50, 0, 60, 3);
    rows
}

// The same with the page's two rows in front.
fn paged_rows() -> [Row; 8]
    ensures { result ≡ paged }
{
    let mut rows = marked();
    rows[0] = Row::new(0, 0, 1, 10, 1);
    rows[1] = Row::new(0, 0, 2, 10, 2);
    rows
}

// All eight records are equal, each to its own.
fn same_rows(a: [Row; 8], b: [Row; 8]) -> bool
    ensures { Decides result (a ≡ b) }
{
    a == b
}

// From 0 to 3 at second 10, with the first n of eight records lent.
fn plan_into(n: usize) -> After<Trip>
    requires { n ≤ 8 }
    ensures { PlanOn n result.rows result.answer }
{
    lend_plan(barn(), booked(), 0, 3, 10, marked(), n)
}

// A page of 2 from the first cursor, with the first n of eight records lent.
fn page_into(n: usize) -> After<Shown>
    requires { n ≤ 8 }
    ensures { PageOn n result.rows result.answer }
{
    lend_page(barn(), booked(), 2, Cursor::first(), marked(), n)
}

// One line: how many records were lent, the number returned and the rows.
fn say(rt: &impl Print, n: usize, code: u8, count: usize) -> io::Result<()> {
    println!(rt; "{n} {code} {count}")
}

// A plan has three rows: a shorter list is refused with 6 and stays as it was.
fn check_plan(rt: &impl Print, n: usize) -> io::Result<()>
    requires { n ≤ 8 }
{
    let s = plan_into(n);
    let code = rules::number_of(s.answer);
    let count = rules::rows_of(s.answer);
    say(rt, n, code, count)?;
    if n < 3 {
        let kept = same_rows(s.rows, marked());
        prove!(kept);
        prove!(code == 6);
        return Ok(());
    }
    let written = same_rows(s.rows, planned_rows());
    prove!(written);
    prove!(code == 0);
    let arrival = s.answer.map_or(0, |t| t.arrival);
    prove!(arrival == 60);
    prove!(count == 3);
    Ok(())
}

// A page of 2 asks for two records, and has two rows and more after them.
fn check_page(rt: &impl Print, n: usize) -> io::Result<()>
    requires { n ≤ 8 }
{
    let s = page_into(n);
    let code = rules::number_of(s.answer);
    let count = rules::rows_of(s.answer);
    say(rt, n, code, count)?;
    if n < 2 {
        let kept = same_rows(s.rows, marked());
        prove!(kept);
        prove!(code == 6);
        return Ok(());
    }
    let written = same_rows(s.rows, paged_rows());
    prove!(written);
    prove!(code == 0);
    prove!(count == 2);
    let more = s.answer.is_ok_and(|t| t.more);
    prove!(more);
    Ok(())
}

// ---- refusals

// A place with capacity 17.
fn bad_map() -> Map {
    let mut m = barn();
    m.places[0] = Place {
        capacity: 17,
        duration: 10,
    };
    m
}

// Next ticket 0.
fn bad_book() -> Book {
    let mut b = booked();
    b.next_ticket = 0;
    b
}

// One line: the call, the number returned, and whether all eight records are as they were.
fn tell(rt: &impl Print, call: &[u8], code: u8, kept: bool) -> io::Result<()> {
    rt.write_all(call)?;
    if kept {
        println!(rt; " {code}, unchanged")
    } else {
        println!(rt; " {code}, changed")
    }
}

fn refused_plan(
    rt: &impl Print,
    m: Map,
    b: Book,
    start: u32,
    destination: u32,
    second: u32,
) -> io::Result<()> {
    let s = lend_plan(m, b, start, destination, second, marked(), 8);
    let kept = same_rows(s.rows, marked());
    tell(rt, b"plan", rules::number_of(s.answer), kept)
}

fn refused_page(rt: &impl Print, m: Map, b: Book, size: u32, c: Cursor) -> io::Result<()> {
    let s = lend_page(m, b, size, c, marked(), 8);
    let kept = same_rows(s.rows, marked());
    tell(rt, b"page", rules::number_of(s.answer), kept)
}

// Each refusal but 6, which lists that are too short have shown.
fn refusals(rt: &impl Print) -> io::Result<()> {
    let m = barn();
    let b = booked();
    refused_plan(rt, bad_map(), b, 0, 3, 10)?;
    refused_plan(rt, m, bad_book(), 0, 3, 10)?;
    refused_plan(rt, m, b, 0, 4, 10)?;
    refused_plan(rt, m, b, 0, 3, 86401)?;
    refused_plan(rt, m, b, 0, 3, 0)?;
    let first = Cursor::first();
    let off = Cursor {
        place: 4,
        entry: 0,
        ticket: 0,
    };
    refused_page(rt, bad_map(), b, 2, first)?;
    refused_page(rt, m, bad_book(), 2, first)?;
    refused_page(rt, m, b, 65, first)?;
    refused_page(rt, m, b, 2, off)
}

fn main(rt: HostRuntime) -> io::Result<()> {
    check_plan(&rt, 0)?;
    check_plan(&rt, 2)?;
    check_plan(&rt, 3)?;
    check_plan(&rt, 8)?;
    check_page(&rt, 0)?;
    check_page(&rt, 1)?;
    check_page(&rt, 2)?;
    check_page(&rt, 8)?;
    refusals(&rt)
}
