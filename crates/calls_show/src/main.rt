// The calls by value on good and bad maps and books, a line for each call: what was asked, the number answered, and whether the caller's memory
// is as it was. Each call stands with the number that the rules ask for, and its line ends with "wrong" where the answer or the memory is another.
#![tactic(auto)]

ghost use Rattle.std.specs.Prelude.{◌*◌, ◌≤◌, ◌<◌};
ghost use Rattle.rules.specs.Limits.{page_limit};
ghost use Rattle.rules.specs.Bytes.{row_size};

use rules::{Book, Cursor, InRows, Link, Map, Place, Refusal, Row};
use std::io;

// What every byte of the caller's list holds before a call.
const MARK: u8 = 165;

// The bytes of as many packed rows as a page can have.
const ROOM: usize = 64 * Row::BYTES;

const ONE: usize = Row::BYTES;

const TWO: usize = 2 * Row::BYTES;

const THREE: usize = 3 * Row::BYTES;

// A byte or a row too few.
const TWO_BUT: usize = TWO - 1;

const THREE_BUT: usize = THREE - 1;

const ROOM_BUT: usize = ROOM - Row::BYTES;

// ---- maps

fn with_place(m: Map, p: usize, capacity: u8, duration: u16) -> Map
    requires { p < 256 }
{
    let mut n = m;
    n.places[p] = Place { capacity, duration };
    n
}

fn with_link(m: Map, i: usize, from: u8, to: u8) -> Map
    requires { i < 1024 }
{
    let mut n = m;
    n.links[i] = Link { from, to };
    n
}

fn with_counts(m: Map, places: usize, links: usize) -> Map {
    let mut n = m;
    n.place_count = places;
    n.link_count = links;
    n
}

// "place 0 capacity 2 duration 10; 1, 2, 3 capacity 1, durations 20, 30, 10", with the links 0 to 1, 1 to 3, 0 to 2, 2 to 3, 3 to 1, 1 to 0.
fn barn() -> Map {
    let mut m = Map {
        places: [Place::default(); Map::PLACES],
        links: [Link::default(); Map::LINKS],
        place_count: 4,
        link_count: 6,
    };
    m = with_place(m, 0, 2, 10);
    m = with_place(m, 1, 1, 20);
    m = with_place(m, 2, 1, 30);
    m = with_place(m, 3, 1, 10);
    m = with_link(m, 0, 0, 1);
    m = with_link(m, 1, 1, 3);
    m = with_link(m, 2, 0, 2);
    m = with_link(m, 3, 2, 3);
    m = with_link(m, 4, 3, 1);
    with_link(m, 5, 1, 0)
}

// The barn with a fifth place, to which no link goes.
fn fifth(capacity: u8, duration: u16) -> Map {
    with_counts(with_place(barn(), 4, capacity, duration), 5, 6)
}

// The barn with a seventh link.
fn seventh(from: u8, to: u8) -> Map {
    with_counts(with_link(barn(), 6, from, to), 4, 7)
}

// The barn with slots past its counts that would break every rule.
fn littered() -> Map {
    let mut m = with_place(barn(), 4, 17, 3601);
    m = with_place(m, 255, 255, 65535);
    m = with_link(m, 6, 0, 1);
    m = with_link(m, 7, 2, 2);
    with_link(m, 1023, 255, 254)
}

// 256 places with four links each: every slot is good.
fn wide() -> Map {
    let place = Place {
        capacity: 1,
        duration: 10,
    };
    let mut links = [Link::default(); Map::LINKS];
    for i in 0..Map::LINKS {
        let from = (i / 4) as u8;
        let to = ((i / 4 + i % 4 + 1) % 256) as u8;
        links[i] = Link { from, to };
    }
    Map {
        places: [place; Map::PLACES],
        links,
        place_count: 256,
        link_count: 1024,
    }
}

// ---- books

fn with_row(b: Book, i: usize, r: Row) -> Book
    requires { i < 1024 }
{
    let mut n = b;
    n.rows[i] = r;
    n
}

fn counted(b: Book, count: usize, next_ticket: u32) -> Book {
    let mut n = b;
    n.count = count;
    n.next_ticket = next_ticket;
    n
}

// No rows.
fn empty() -> Book {
    Book {
        rows: [Row::none(); Book::ROWS],
        count: 0,
        next_ticket: 1,
    }
}

// One to four rows, with next ticket 3.
fn one(r: Row) -> Book {
    counted(with_row(empty(), 0, r), 1, 3)
}

fn two(r: Row, s: Row) -> Book {
    counted(with_row(one(r), 1, s), 2, 3)
}

fn three(r: Row, s: Row, t: Row) -> Book {
    counted(with_row(two(r, s), 2, t), 3, 3)
}

fn four(r: Row, s: Row, t: Row, u: Row) -> Book {
    counted(with_row(three(r, s, t), 3, u), 4, 3)
}

// Ticket 1 of the small barn's cases.
fn first(next_ticket: u32) -> Book {
    let b = three(
        Row::new(0, 0, 1, 10, 1),
        Row::new(1, 10, 1, 30, 3),
        Row::new(3, 30, 1, 40, 3),
    );
    counted(b, 3, next_ticket)
}

// Tickets 1 and 2.
fn both() -> Book {
    let mut b = four(
        Row::new(0, 0, 1, 10, 1),
        Row::new(0, 0, 2, 10, 2),
        Row::new(1, 10, 1, 30, 3),
        Row::new(2, 10, 2, 40, 3),
    );
    b = with_row(b, 4, Row::new(3, 30, 1, 40, 3));
    b = with_row(b, 5, Row::new(3, 40, 2, 50, 3));
    counted(b, 6, 3)
}

// Tickets 1 and 2, and 0 to 3 at 10 as ticket 3.
fn third() -> Book {
    let mut b = four(
        Row::new(0, 0, 1, 10, 1),
        Row::new(0, 0, 2, 10, 2),
        Row::new(0, 10, 3, 30, 1),
        Row::new(1, 10, 1, 30, 3),
    );
    b = with_row(b, 4, Row::new(1, 30, 3, 50, 3));
    b = with_row(b, 5, Row::new(2, 10, 2, 40, 3));
    b = with_row(b, 6, Row::new(3, 30, 1, 40, 3));
    b = with_row(b, 7, Row::new(3, 40, 2, 50, 3));
    b = with_row(b, 8, Row::new(3, 50, 3, 60, 3));
    counted(b, 9, 4)
}

// Place 3 taken without a break from second 0 on, by as many tickets as there are rows.
fn crowd(count: u32) -> Book
    requires { count ≤ 1024 }
{
    let mut b = empty();
    for i in 0..count {
        b.rows[i as usize] = Row::new(3, 10 * i, i + 1, 10 * i + 10, 3);
    }
    b.count = count as usize;
    b.next_ticket = count + 1;
    b
}

// ---- memory after a call

// The list's bytes from this one on are as they were.
fn marked_from(list: &[u8; ROOM], from: usize) -> bool {
    list.iter().skip(from).all(|x| *x == MARK)
}

// ---- answers

// The number, and beside it how many rows there are; at a refusal the row of the book that it names, or 0.
#[derive(Clone, Copy)]
struct Said {
    number: u8,
    count: usize,
}

fn said_by<T: InRows>(answer: Result<T, Refusal>) -> Said {
    Said {
        number: rules::number_of(answer),
        count: match answer {
            Ok(done) => done.rows(),
            Err(r) => r.row(),
        },
    }
}

// What was asked, the number, the rows where it is 0 or the row that it names, whether the memory is as it was, and whether all this is right.
fn line(
    rt: &impl Print,
    call: &[u8],
    what: &[u8],
    said: Said,
    unchanged: bool,
    right: bool,
) -> io::Result<()> {
    rt.write_all(call)?;
    rt.write_all(b", ")?;
    rt.write_all(what)?;
    print!(rt; ": {}", said.number)?;
    if said.number == 0 {
        print!(rt; ", rows {}", said.count)?;
    } else if said.count > 0 {
        print!(rt; ", row {}", said.count)?;
    }
    if unchanged {
        print!(rt; ", unchanged")?;
    } else {
        print!(rt; ", changed")?;
    }
    if !right {
        print!(rt; ", wrong")?;
    }
    println!(rt)
}

// The number and the count are those asked for.
fn says(said: Said, number: u8, count: usize) -> bool {
    said.number == number && said.count == count
}

// The rows written to the list: none beside a refusal.
fn written(number: u8, count: usize) -> usize
    requires { count ≤ 64 }
    ensures { result ≤ 64 }
{
    if number == 0 {
        return count;
    }
    0
}

// The bytes past the rows are as they were, and those of the rows are not.
fn list_right(list: &[u8; ROOM], rows: usize) -> bool
    requires { rows ≤ 64 }
{
    marked_from(list, Row::BYTES * rows) && marked_from(list, 0) == (rows == 0)
}

// ---- the calls, each with the number and the count that it must answer

// A plan into a list of so many bytes.
fn try_plan(
    rt: &impl Print,
    what: &[u8],
    m: Map,
    b: Book,
    start: u32,
    destination: u32,
    second: u32,
    room: usize,
    number: u8,
    count: usize,
) -> io::Result<()>
    requires room_bound { room ≤ page_limit * row_size }
    requires count_bound { count ≤ 64 }
{
    let mut list = [MARK; ROOM];
    let a = planning::plan(m, b, start, destination, second, &mut list[..room]);
    let said = said_by(a);
    let unchanged = marked_from(&list, 0);
    let right = list_right(&list, written(number, count)) && says(said, number, count);
    line(rt, b"plan", what, said, unchanged, right)
}

// A page into a list of so many bytes.
fn try_page(
    rt: &impl Print,
    what: &[u8],
    m: Map,
    b: Book,
    size: u32,
    place: u32,
    entry: u32,
    ticket: u32,
    room: usize,
    number: u8,
    count: usize,
) -> io::Result<()>
    requires room_bound { room ≤ page_limit * row_size }
    requires count_bound { count ≤ 64 }
{
    let mut list = [MARK; ROOM];
    let c = Cursor {
        place,
        entry,
        ticket,
    };
    let a = paging::page(m, b, size, c, &mut list[..room]);
    let said = said_by(a);
    let unchanged = marked_from(&list, 0);
    let right = list_right(&list, written(number, count)) && says(said, number, count);
    line(rt, b"page", what, said, unchanged, right)
}

// A booking, and the book that it must leave.
fn try_book(
    rt: &impl Print,
    what: &[u8],
    m: Map,
    b: Book,
    start: u32,
    destination: u32,
    second: u32,
    number: u8,
    count: usize,
    after: Book,
) -> io::Result<()> {
    let r = booking::book(m, b, start, destination, second);
    let said = said_by(r.answer);
    let right = r.book == after && says(said, number, count);
    line(rt, b"book", what, said, r.book == b, right)
}

// A cancellation, and the book that it must leave.
fn try_cancel(
    rt: &impl Print,
    what: &[u8],
    m: Map,
    b: Book,
    ticket: u32,
    number: u8,
    count: usize,
    after: Book,
) -> io::Result<()> {
    let r = booking::cancel(m, b, ticket);
    let said = said_by(r.answer);
    let right = r.book == after && says(said, number, count);
    line(rt, b"cancel", what, said, r.book == b, right)
}

// All four calls, each refused with this number and row.
fn refused(rt: &impl Print, what: &[u8], m: Map, b: Book, number: u8, row: usize) -> io::Result<()>
    requires { row ≤ 64 }
{
    try_plan(rt, what, m, b, 0, 3, 10, THREE, number, row)?;
    try_book(rt, what, m, b, 0, 3, 10, number, row, b)?;
    try_cancel(rt, what, m, b, 1, number, row, b)?;
    try_page(rt, what, m, b, 2, 0, 0, 0, TWO, number, row)
}

// "1: the map breaks a rule above"
fn bad_map(rt: &impl Print, what: &[u8], m: Map) -> io::Result<()> {
    refused(rt, what, m, both(), 1, 0)
}

// The map is good with tickets 1 and 2, as the barn is.
fn good_map(rt: &impl Print, what: &[u8], m: Map) -> io::Result<()> {
    let b = both();
    try_plan(rt, what, m, b, 0, 3, 10, THREE, 0, 3)?;
    try_book(rt, what, m, b, 0, 3, 10, 0, 3, third())?;
    try_cancel(rt, what, m, b, 2, 0, 3, first(3))?;
    try_page(rt, what, m, b, 2, 0, 0, 0, TWO, 0, 2)
}

// "13 keys not rising, 14 a ticket's rows are no plan, 15 a place overfilled, 16 a barred crossing"
fn faulty(rt: &impl Print, what: &[u8], b: Book, number: u8, row: usize) -> io::Result<()>
    requires { row ≤ 64 }
{
    refused(rt, what, barn(), b, number, row)
}

// "Refusal 2 stays for counts, ranges, spare slots and the next ticket number, with row 0."
fn bad_book(rt: &impl Print, what: &[u8], b: Book) -> io::Result<()> {
    faulty(rt, what, b, 2, 0)
}

fn bad_row(rt: &impl Print, what: &[u8], r: Row) -> io::Result<()> {
    bad_book(rt, what, one(r))
}

// Tickets 1 and 2 with this row in a slot past the count.
fn spare(rt: &impl Print, what: &[u8], i: usize, r: Row) -> io::Result<()>
    requires { i < 1024 }
{
    bad_book(rt, what, with_row(both(), i, r))
}

// The book is good on the barn: a page of 64 shows so many rows.
fn good_book(rt: &impl Print, what: &[u8], b: Book, rows: usize) -> io::Result<()>
    requires { rows ≤ 64 }
{
    try_page(rt, what, barn(), b, 64, 0, 0, 0, ROOM, 0, rows)
}

// ---- the table

fn maps(rt: &impl Print) -> io::Result<()> {
    bad_map(rt, b"place with capacity 0", fifth(0, 10))?;
    bad_map(rt, b"place with capacity 17", fifth(17, 10))?;
    bad_map(rt, b"place with capacity 255", fifth(255, 10))?;
    bad_map(rt, b"place with duration 0", fifth(1, 0))?;
    bad_map(rt, b"place with duration 3,601", fifth(1, 3601))?;
    bad_map(rt, b"place with duration 65,535", fifth(1, 65535))?;
    bad_map(rt, b"link to a place off the map", seventh(0, 4))?;
    bad_map(rt, b"link from a place off the map", seventh(4, 0))?;
    bad_map(rt, b"link from a place to itself", seventh(2, 2))?;
    bad_map(rt, b"link twice", seventh(0, 1))?;
    bad_map(rt, b"no places", with_counts(barn(), 0, 0))?;
    let m = wide();
    let most = usize::MAX;
    bad_map(rt, b"257 places", with_counts(m, 257, 1024))?;
    bad_map(rt, b"largest place count", with_counts(m, most, 1024))?;
    bad_map(rt, b"1,025 links", with_counts(m, 256, 1025))?;
    bad_map(rt, b"largest link count", with_counts(m, 256, most))
}

fn good_maps(rt: &impl Print) -> io::Result<()> {
    good_map(rt, b"garbage past the map's counts", littered())?;
    good_map(rt, b"capacity 1 and duration 1", fifth(1, 1))?;
    good_map(rt, b"capacity 16 and duration 3,600", fifth(16, 3600))?;
    good_map(rt, b"link both ways", seventh(3, 2))?;
    let e = empty();
    let m = wide();
    let r = Row::new(0, 0, 1, 10, 3);
    let s = Row::new(3, 10, 1, 20, 3);
    let after = counted(two(r, s), 2, 2);
    try_plan(rt, b"256 places, 1,024 links", m, e, 0, 3, 0, TWO, 0, 2)?;
    try_book(rt, b"256 places, 1,024 links", m, e, 0, 3, 0, 0, 2, after)?;
    try_page(
        rt,
        b"256 places, 1,024 links",
        m,
        e,
        1,
        255,
        0,
        0,
        ONE,
        0,
        0,
    )?;
    let alone = with_counts(m, 1, 0);
    try_plan(rt, b"one place, no links", alone, e, 0, 0, 0, ONE, 0, 1)?;
    let apart = with_counts(m, 256, 0);
    try_plan(rt, b"no links, 0 to 3", apart, e, 0, 3, 0, THREE, 5, 0)
}

fn spare_slots(rt: &impl Print) -> io::Result<()> {
    spare(rt, b"place in a spare slot", 6, Row::new(1, 0, 0, 0, 0))?;
    spare(rt, b"entry in a spare slot", 6, Row::new(0, 1, 0, 0, 0))?;
    spare(rt, b"ticket in a spare slot", 6, Row::new(0, 0, 1, 0, 0))?;
    spare(rt, b"exit in a spare slot", 6, Row::new(0, 0, 0, 1, 0))?;
    spare(rt, b"next in a spare slot", 6, Row::new(0, 0, 0, 0, 1))?;
    spare(rt, b"place in the last slot", 1023, Row::new(1, 0, 0, 0, 0))?;
    spare(rt, b"next in the last slot", 1023, Row::new(0, 0, 0, 0, 1))?;
    let b = counted(one(Row::new(0, 0, 0, 1, 0)), 0, 3);
    bad_book(rt, b"exit in the first slot, no rows", b)?;
    bad_book(rt, b"spare slot counted", counted(both(), 7, 3))
}

fn ranges(rt: &impl Print) -> io::Result<()> {
    let most = u32::MAX;
    bad_row(rt, b"place off the map", Row::new(4, 30, 1, 40, 4))?;
    bad_row(rt, b"next off the map", Row::new(3, 30, 1, 40, 4))?;
    bad_row(rt, b"entry 86,401", Row::new(3, 86401, 1, 86411, 3))?;
    bad_row(rt, b"entry 2^24 late", Row::new(3, 16777246, 1, 40, 3))?;
    bad_row(rt, b"largest entry", Row::new(3, most, 1, 9, 3))?;
    bad_row(rt, b"exit 86,401", Row::new(3, 86391, 1, 86401, 3))?;
    bad_row(rt, b"exit 2^24 late", Row::new(3, 30, 1, 16777256, 3))?;
    bad_row(rt, b"largest exit", Row::new(3, 30, 1, most, 3))?;
    bad_row(rt, b"ticket 0", Row::new(3, 30, 0, 40, 3))?;
    bad_row(rt, b"ticket equal to the next", Row::new(3, 30, 3, 40, 3))?;
    bad_row(rt, b"ticket 2^24 high", Row::new(3, 30, 16777217, 40, 3))?;
    bad_row(rt, b"largest ticket", Row::new(3, 30, most, 40, 3))?;
    let b = one(Row::new(3, 30, 1000000, 40, 3));
    bad_book(rt, b"ticket 1,000,000", counted(b, 1, 1000000))?;
    bad_book(rt, b"ticket below 1,000,001", counted(b, 1, 1000001))
}

fn counts(rt: &impl Print) -> io::Result<()> {
    let b = crowd(1024);
    let e = empty();
    bad_book(rt, b"1,025 rows", counted(b, 1025, 1025))?;
    bad_book(rt, b"largest row count", counted(b, usize::MAX, 1025))?;
    bad_book(rt, b"next ticket 0", counted(e, 0, 0))?;
    bad_book(rt, b"next ticket 1,000,001", counted(e, 0, 1000001))?;
    bad_book(rt, b"largest next ticket", counted(e, 0, u32::MAX))
}

fn orders(rt: &impl Print) -> io::Result<()> {
    let r = Row::new(0, 0, 1, 10, 0);
    let s = Row::new(0, 0, 2, 10, 0);
    let t = Row::new(0, 1, 2, 11, 0);
    let u = Row::new(3, 0, 2, 10, 3);
    faulty(rt, b"rows falling by place", two(u, r), 13, 2)?;
    faulty(rt, b"rows falling by entry", two(t, r), 13, 2)?;
    faulty(rt, b"rows falling by ticket", two(s, r), 13, 2)?;
    faulty(rt, b"row twice", two(r, r), 13, 2)
}

fn runs(rt: &impl Print) -> io::Result<()> {
    let r = Row::new(0, 0, 1, 10, 1);
    let s = Row::new(1, 10, 1, 30, 3);
    let t = Row::new(3, 30, 1, 40, 3);
    faulty(rt, b"run without its last row", two(r, s), 14, 1)?;
    faulty(rt, b"run without its second row", two(r, t), 14, 1)?;
    let again = Row::new(3, 50, 1, 60, 3);
    faulty(rt, b"two runs under one ticket", two(t, again), 14, 1)?;
    let other = Row::new(2, 0, 1, 30, 3);
    faulty(rt, b"two rows before one", three(s, other, t), 14, 1)?;
    let back = Row::new(2, 0, 1, 30, 0);
    let there = Row::new(0, 30, 1, 40, 0);
    faulty(rt, b"step without a link", two(there, back), 14, 1)?;
    let late = Row::new(1, 11, 1, 31, 1);
    faulty(rt, b"step to a later entry", two(r, late), 14, 1)?;
    let short = Row::new(0, 0, 1, 9, 1);
    let soon = Row::new(1, 9, 1, 29, 1);
    faulty(rt, b"first stay too short", two(short, soon), 14, 1)?;
    faulty(
        rt,
        b"last stay too short",
        one(Row::new(3, 30, 1, 39, 3)),
        14,
        1,
    )?;
    faulty(
        rt,
        b"last stay too long",
        one(Row::new(3, 30, 1, 41, 3)),
        14,
        1,
    )?;
    faulty(
        rt,
        b"exit before entry",
        one(Row::new(3, 30, 1, 20, 3)),
        14,
        1,
    )
}

fn conflicts(rt: &impl Print) -> io::Result<()> {
    let r = Row::new(3, 30, 1, 40, 3);
    let s = Row::new(3, 39, 2, 49, 3);
    faulty(rt, b"overfilled place", two(r, s), 15, 2)?;
    let leaves = Row::new(0, 0, 1, 30, 1);
    let enters = Row::new(0, 30, 2, 40, 0);
    let meets = Row::new(1, 0, 2, 30, 0);
    let met = Row::new(1, 30, 1, 50, 1);
    let b = four(leaves, enters, meets, met);
    faulty(rt, b"head-on exchange", b, 16, 3)
}

// The checks go over the whole book one after the other, and of two broken runs the lower ticket's is named.
fn checks_in_order(rt: &impl Print) -> io::Result<()> {
    let short = Row::new(0, 0, 2, 9, 0);
    let brief = Row::new(3, 30, 1, 39, 3);
    faulty(rt, b"two broken runs", two(short, brief), 14, 2)?;
    let r = Row::new(3, 30, 1, 40, 3);
    bad_book(rt, b"2 before 13", two(r, Row::new(0, 0, 0, 10, 0)))?;
    faulty(rt, b"13 before 14", two(brief, short), 13, 2)?;
    let long = Row::new(3, 39, 2, 50, 3);
    faulty(rt, b"14 before 15", two(r, long), 14, 2)?;
    let b = four(
        Row::new(0, 0, 1, 30, 1),
        Row::new(0, 30, 2, 40, 0),
        Row::new(1, 0, 2, 30, 0),
        Row::new(1, 30, 1, 50, 1),
    );
    let crowded = with_row(b, 4, Row::new(1, 40, 3, 60, 1));
    faulty(rt, b"15 before 16", counted(crowded, 5, 4), 15, 5)
}

fn good_books(rt: &impl Print) -> io::Result<()> {
    good_book(rt, b"no rows", empty(), 0)?;
    good_book(rt, b"tickets 1 and 2", both(), 6)?;
    good_book(rt, b"1,024 rows", crowd(1024), 64)?;
    good_book(rt, b"next ticket 1,000,000", counted(both(), 6, 1000000), 6)?;
    let r = Row::new(3, 86390, 1, 86400, 3);
    good_book(rt, b"exit 86,400", one(r), 1)?;
    let s = Row::new(3, 30, 999999, 40, 3);
    good_book(rt, b"ticket 999,999", counted(one(s), 1, 1000000), 1)?;
    let t = Row::new(3, 30, 1, 40, 3);
    let u = Row::new(3, 40, 2, 50, 3);
    good_book(rt, b"entry at an exit", two(t, u), 2)?;
    let v = Row::new(0, 0, 1, 10, 0);
    let w = Row::new(0, 0, 2, 10, 0);
    good_book(rt, b"full place", two(v, w), 2)?;
    let leaves = Row::new(0, 0, 1, 31, 1);
    let enters = Row::new(0, 30, 2, 40, 0);
    let meets = Row::new(1, 0, 2, 30, 0);
    let met = Row::new(1, 31, 1, 51, 1);
    let b = four(leaves, enters, meets, met);
    good_book(rt, b"exchange a second apart", b, 4)?;
    let m = fifth(1, 10);
    let c = one(Row::new(4, 30, 1, 40, 4));
    try_page(rt, b"place 4 of five", m, c, 1, 0, 0, 0, ONE, 0, 1)
}

// "plan 1, 2, 3, 4, 5, 6"
fn planned(rt: &impl Print) -> io::Result<()> {
    let m = barn();
    let b = both();
    let most = u32::MAX;
    try_plan(rt, b"0 to 3 at 10, list of 3", m, b, 0, 3, 10, THREE, 0, 3)?;
    try_plan(rt, b"0 to 3 at 10, list of 64", m, b, 0, 3, 10, ROOM, 0, 3)?;
    try_plan(rt, b"start 4", m, b, 4, 3, 10, THREE, 3, 0)?;
    try_plan(rt, b"start 256", m, b, 256, 3, 10, THREE, 3, 0)?;
    try_plan(rt, b"destination 4", m, b, 0, 4, 10, THREE, 3, 0)?;
    try_plan(rt, b"largest destination", m, b, 0, most, 10, THREE, 3, 0)?;
    try_plan(rt, b"second 86,401", m, b, 3, 3, 86401, THREE, 4, 0)?;
    try_plan(rt, b"largest second", m, b, 3, 3, most, THREE, 4, 0)?;
    try_plan(rt, b"second 86,400", m, b, 3, 3, 86400, THREE, 5, 0)?;
    try_plan(rt, b"second 86,391", m, b, 3, 3, 86391, THREE, 5, 0)?;
    try_plan(rt, b"second 86,390", m, b, 3, 3, 86390, THREE, 0, 1)?;
    try_plan(rt, b"0 to 3 at 0", m, b, 0, 3, 0, THREE, 5, 0)?;
    try_plan(rt, b"list of 3 but a byte", m, b, 0, 3, 10, THREE_BUT, 6, 0)?;
    try_plan(rt, b"list of none", m, b, 0, 3, 10, 0, 6, 0)?;
    let k = fifth(17, 10);
    let c = one(Row::new(3, 30, 0, 40, 3));
    try_plan(rt, b"1 before 2, 3, 4, 5", k, c, 9, 9, 86401, 0, 1, 0)?;
    try_plan(rt, b"2 before 3, 4, 5", m, c, 9, 9, 86401, 0, 2, 0)?;
    try_plan(rt, b"3 before 4 and 5", m, b, 0, 4, 86401, 0, 3, 0)?;
    try_plan(rt, b"4 before 5", m, b, 0, 3, 86401, 0, 4, 0)?;
    try_plan(rt, b"no plan, list of none", m, b, 0, 3, 0, 0, 5, 0)
}

// "book 1, 2, 3, 4, 8, 5, 7"
fn booked(rt: &impl Print) -> io::Result<()> {
    let m = barn();
    let f = first(2);
    let b = both();
    try_book(rt, b"0 to 3 at 0 beside 1", m, f, 0, 3, 0, 0, 3, b)?;
    try_book(rt, b"0 to 3 at 10", m, b, 0, 3, 10, 0, 3, third())?;
    try_book(rt, b"start 4", m, b, 4, 3, 10, 3, 0, b)?;
    try_book(rt, b"destination 256", m, b, 0, 256, 10, 3, 0, b)?;
    try_book(rt, b"second 86,401", m, b, 0, 3, 86401, 4, 0, b)?;
    let s = counted(b, 6, 1000000);
    try_book(rt, b"next ticket 1,000,000", m, s, 0, 3, 10, 8, 0, s)?;
    try_book(rt, b"0 to 3 at 0", m, b, 0, 3, 0, 5, 0, b)
}

fn booked_full(rt: &impl Print) -> io::Result<()> {
    let m = barn();
    let b = crowd(1024);
    try_book(rt, b"1 row, none free", m, b, 3, 3, 20000, 7, 0, b)?;
    let c = crowd(1022);
    try_book(rt, b"3 rows, 2 free", m, c, 0, 3, 0, 7, 0, c)?;
    let d = crowd(1023);
    let r = Row::new(3, 20000, 1024, 20010, 3);
    let after = counted(with_row(d, 1023, r), 1024, 1025);
    try_book(rt, b"1 row, 1 free", m, d, 3, 3, 20000, 0, 1, after)
}

fn booked_in_order(rt: &impl Print) -> io::Result<()> {
    let m = barn();
    let b = crowd(1024);
    let k = fifth(17, 10);
    let x = counted(one(Row::new(3, 30, 0, 40, 3)), 1, 1000000);
    try_book(rt, b"1 before 2, 3, 4, 8, 5", k, x, 9, 9, 86401, 1, 0, x)?;
    try_book(rt, b"2 before 3, 4, 8, 5", m, x, 9, 9, 86401, 2, 0, x)?;
    let s = counted(b, 1024, 1000000);
    try_book(rt, b"3 before 4, 8, 5", m, s, 4, 3, 86401, 3, 0, s)?;
    try_book(rt, b"4 before 8 and 5", m, s, 3, 3, 86401, 4, 0, s)?;
    try_book(rt, b"8 before 5", m, s, 3, 3, 0, 8, 0, s)?;
    try_book(rt, b"8 before 7", m, s, 3, 3, 20000, 8, 0, s)?;
    try_book(rt, b"5 in a full book", m, b, 3, 3, 0, 5, 0, b)
}

// "cancel 1, 2, 9"
fn cancelled(rt: &impl Print) -> io::Result<()> {
    let m = barn();
    let b = both();
    let f = first(3);
    try_cancel(rt, b"ticket 2", m, b, 2, 0, 3, f)?;
    try_cancel(rt, b"ticket 2, cancelled before", m, f, 2, 9, 0, f)?;
    let e = counted(empty(), 0, 3);
    try_cancel(rt, b"only ticket", m, f, 1, 0, 3, e)?;
    try_cancel(rt, b"ticket of no rows", m, e, 1, 9, 0, e)?;
    try_cancel(rt, b"ticket 0", m, b, 0, 9, 0, b)?;
    try_cancel(rt, b"next ticket", m, b, 3, 9, 0, b)?;
    try_cancel(rt, b"ticket 2^24 high", m, b, 16777217, 9, 0, b)?;
    try_cancel(rt, b"largest ticket", m, b, u32::MAX, 9, 0, b)?;
    let s = counted(b, 6, 1000000);
    try_cancel(rt, b"ticket 1,000,000", m, s, 1000000, 9, 0, s)?;
    let k = fifth(17, 10);
    let c = one(Row::new(3, 30, 0, 40, 3));
    try_cancel(rt, b"1 before 2 and 9", k, c, 9, 1, 0, c)?;
    try_cancel(rt, b"2 before 9", m, c, 9, 2, 0, c)
}

// "page 1, 2, 10, 11, 6"
fn paged(rt: &impl Print) -> io::Result<()> {
    let m = barn();
    let b = both();
    let most = u32::MAX;
    let past = 1000000;
    try_page(rt, b"2 rows, list of 2", m, b, 2, 0, 0, 0, TWO, 0, 2)?;
    try_page(rt, b"after the fifth row", m, b, 64, 3, 30, 1, ROOM, 0, 1)?;
    try_page(rt, b"last cursor", m, b, 64, 3, 86400, 999999, ROOM, 0, 0)?;
    try_page(rt, b"size 0", m, b, 0, 0, 0, 0, ROOM, 10, 0)?;
    try_page(rt, b"size 65", m, b, 65, 0, 0, 0, ROOM, 10, 0)?;
    try_page(rt, b"largest size", m, b, most, 0, 0, 0, ROOM, 10, 0)?;
    try_page(rt, b"cursor place 4", m, b, 2, 4, 0, 0, TWO, 11, 0)?;
    try_page(rt, b"cursor place 256", m, b, 2, 256, 0, 0, TWO, 11, 0)?;
    try_page(rt, b"largest cursor place", m, b, 2, most, 0, 0, TWO, 11, 0)?;
    try_page(rt, b"cursor entry 86,401", m, b, 2, 0, 86401, 0, TWO, 11, 0)?;
    try_page(rt, b"largest cursor entry", m, b, 2, 0, most, 0, TWO, 11, 0)?;
    try_page(
        rt,
        b"cursor ticket 1,000,000",
        m,
        b,
        2,
        0,
        0,
        past,
        TWO,
        11,
        0,
    )?;
    try_page(
        rt,
        b"largest cursor ticket",
        m,
        b,
        2,
        0,
        0,
        most,
        TWO,
        11,
        0,
    )?;
    try_page(rt, b"list of 2 but a byte", m, b, 2, 0, 0, 0, TWO_BUT, 6, 0)?;
    try_page(
        rt,
        b"size 64, list of 63",
        m,
        b,
        64,
        0,
        0,
        0,
        ROOM_BUT,
        6,
        0,
    )?;
    let k = fifth(17, 10);
    let c = one(Row::new(3, 30, 0, 40, 3));
    try_page(rt, b"1 before 2, 10, 11, 6", k, c, 65, 9, 0, 0, 0, 1, 0)?;
    try_page(rt, b"2 before 10, 11, 6", m, c, 65, 9, 0, 0, 0, 2, 0)?;
    try_page(rt, b"10 before 11", m, b, 0, 4, 0, 0, 0, 10, 0)?;
    try_page(rt, b"10 before 11 and 6", m, b, 65, 4, 0, 0, 0, 10, 0)?;
    try_page(rt, b"11 before 6", m, b, 2, 4, 0, 0, 0, 11, 0)
}

fn main(rt: HostRuntime) -> io::Result<()> {
    maps(&rt)?;
    good_maps(&rt)?;
    spare_slots(&rt)?;
    ranges(&rt)?;
    counts(&rt)?;
    orders(&rt)?;
    runs(&rt)?;
    conflicts(&rt)?;
    checks_in_order(&rt)?;
    good_books(&rt)?;
    planned(&rt)?;
    booked(&rt)?;
    booked_full(&rt)?;
    booked_in_order(&rt)?;
    cancelled(&rt)?;
    paged(&rt)
}
