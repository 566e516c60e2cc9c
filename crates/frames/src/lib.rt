// The program's frames: a line of digits in, the state after it and the answer's digits out.
#![tactic(auto)]

ghost use Rattle.std.specs.Prelude.{◌≡◌, true, ℕ, ◌+◌, ◌*◌, ◌%◌, ◌<◌, ◌≤◌, List, [], ◌∷◌, ◌++◌, length, take, drop};
ghost use Rattle.rules.specs.declared.State.{State};
ghost use Rattle.rules.specs.Rows.{bit};
ghost use Rattle.rules.specs.Bytes.{bytes2, bytes3, row_size, row_line_size, answer_room};
ghost use Rattle.rules.specs.Answer.{number, answer_number, planned_arrival, planned_count, booked_ticket, booked_arrival, booked_count, cancelled_count, paged_count, paged_rows, paged_more};
ghost use Rattle.rules.specs.Frames.{digit, hex_of, line_of, row_lines, after00, Said, PlaceFrame, LinkFrame, PlanFrame, BookFrame, CancelFrame, PageFrame, begins};
ghost use Rattle.rules.specs.Program.{AnswerIs, EndedIs, FedIs, LineIs, Spoken, Tells, empty_line, pushed};
ghost use Rattle.frames.specs.Lines.{ValueIs, Decoded, FormIs};
ghost use Rattle.frames.specs.Heads.{HeadIs};
ghost use Rattle.frames.specs.Told.{Answers, told, kept};
ghost use Rattle.frames.specs.Answering.{WordIs};
ghost use Rattle.frames.specs.Cutting.{CutIs};
ghost use Rattle.frames.specs.Put.{Put, Digits, RowsPut};

use rules::{
    Cursor, Desk, Intake, Issued, Line, Link, Map, Place, Refusal, Row, Shown, State, Told, Trip,
};

// ---- a line

fn no_digits() -> Line
    ensures { result ≡ empty_line }
{
    Line {
        digits: [0; 18],
        len: 0,
    }
}

// The line with one byte more.
fn push(l: Line, c: u8) -> Line
    ensures { (result ≡ pushed l c) × ((line : List ℕ) → LineIs line l → LineIs (line ++ (c ∷ [])) result) }
{
    if l.len >= 18 {
        return Line { len: 19, ..l };
    }
    let mut more = l;
    more.digits[l.len] = c;
    more.len = l.len + 1;
    more
}

// ---- a line's bytes

// The value of an uppercase hexadecimal digit.
fn value(c: u8) -> Option<u8>
    ensures { ValueIs c result }
{
    match c {
        b'0'..=b'9' => Some(c - b'0'),
        b'A'..=b'F' => Some(c - b'A' + 10),
        _ => None,
    }
}

#[derive(Clone, Copy)]
struct Bytes {
    bytes: [u8; 9],
    count: usize,
}

// The bytes of a line: none where the line is empty, too long, of odd length, or has another digit.
fn bytes_of(l: Line) -> Option<Bytes>
    ensures { (line : List ℕ) → LineIs line l → Decoded line result }
{
    if l.len == 0 || l.len > 18 || l.len % 2 != 0 {
        return None;
    }
    let count = l.len / 2;
    let mut bytes = [0; 9];
    for i in 0..count {
        let high = value(l.digits[2 * i])?;
        let low = value(l.digits[2 * i + 1])?;
        bytes[i] = high * 16 + low;
    }
    Some(Bytes { bytes, count })
}

// What reads a frame's bytes.
#[derive(Clone, Copy)]
enum Decoder {
    Place,
    Link,
    Plan,
    Book,
    Cancel,
    Page,
}

// "What a line means goes by its first byte": the length of a frame of this kind, and its decoder.
#[derive(Clone, Copy)]
struct Form {
    length: usize,
    decoder: Decoder,
}

impl Form {
    // "01 capacity(1) duration(2)"
    const PLACE: usize = 1 + Place::BYTES;

    // "02 from(1) to(1)"
    const LINK: usize = 1 + Link::BYTES;
}

#[tactic(auto, unfolding(rules::specs::Frames::frame_length))]
fn form_of(kind: u8) -> Option<Form>
    ensures { FormIs kind result }
{
    match kind {
        1 => Some(Form {
            length: Form::PLACE,
            decoder: Decoder::Place,
        }),
        2 => Some(Form {
            length: Form::LINK,
            decoder: Decoder::Link,
        }),
        3 => Some(Form {
            length: 6,
            decoder: Decoder::Plan,
        }),
        4 => Some(Form {
            length: 6,
            decoder: Decoder::Book,
        }),
        5 => Some(Form {
            length: 4,
            decoder: Decoder::Cancel,
        }),
        6 => Some(Form {
            length: 9,
            decoder: Decoder::Page,
        }),
        0 | 7..=255 => None,
    }
}

// A line read: its bytes, and what reads them on.
#[derive(Clone, Copy)]
struct Word {
    bytes: [u8; 9],
    decoder: Decoder,
}

// None where the line is no frame.
fn word_of(l: Line) -> Option<Word>
    ensures { WordIs l result }
{
    let b = bytes_of(l)?;
    let form = form_of(b.bytes[0])?;
    if form.length != b.count {
        return None;
    }
    Some(Word {
        bytes: b.bytes,
        decoder: form.decoder,
    })
}

// ---- lines printed

// The digit of a value.
#[tactic(auto, unfolding(rules::specs::Frames::digit))]
fn digit_of(x: u8) -> u8
    requires { x < 16 }
    ensures { result ≡ digit x }
{
    if x < 10 {
        return x + b'0';
    }
    x - 10 + b'A'
}

// The two digits of a byte, over the bytes of out from an index on.
fn put_byte(x: u8, at: usize, out: &mut [u8])
    requires { at + 2 ≤ length out.old }
    ensures { Put (hex_of (x ∷ [])) at out.old out.new }
{
    out[at] = digit_of(x / 16);
    out[at + 1] = digit_of(x % 16);
}

// The digits of n bytes of a list.
fn put_digits(list: &[u8], from: usize, n: usize, at: usize, out: &mut [u8])
    requires n_in_bounds { from + n ≤ length list.now }
    requires n_in_bounds_2 { at + 2 * n ≤ length out.old }
    ensures { Digits list.now from n at out.old out.new }
{
    for i in 0..n {
        put_byte(list[from + i], at + 2 * i, out);
    }
}

// A line: the digits of n bytes of a list and a line feed.
fn put_line(list: &[u8], from: usize, n: usize, at: usize, out: &mut [u8])
    requires n_in_bounds { from + n ≤ length list.now }
    requires n_in_bounds_2 { at + 2 * n < length out.old }
    ensures { Put (line_of (take n (drop from list.now))) at out.old out.new }
{
    put_digits(list, from, n, at, out);
    out[at + 2 * n] = b'\n';
}

// A line for each of the first n records of a list.
fn put_rows(list: &[u8], n: usize, at: usize, out: &mut [u8])
    requires n_in_bounds { row_size * n ≤ length list.now }
    requires n_in_bounds_2 { at + row_line_size * n ≤ length out.old }
    ensures { RowsPut list.now n at out.old out.new }
{
    for j in 0..n {
        put_line(list, Row::BYTES * j, Row::BYTES, at + Row::LINE * j, out);
    }
}

// The bytes of an answer's first line.
#[derive(Clone, Copy)]
struct Head {
    bytes: [u8; 9],
    count: usize,
}

fn refused_head(r: Refusal) -> Head
    ensures { (more : List ℕ) → HeadIs (after00 (number r) more) result }
{
    Head {
        bytes: [r.number(); 9],
        count: 1,
    }
}

// The four heads stay apart: each writes other numbers, and what they share is `refused_head`.
fn plan_head(p: Result<Trip, Refusal>) -> Head
    ensures { HeadIs (after00 (answer_number p) (bytes3 (planned_arrival p) ++ bytes2 (planned_count p))) result }
{
    match p {
        Ok(t) => {
            let [_, a, b, c] = t.arrival.to_be_bytes();
            let [.., d, e] = t.count.to_be_bytes();
            Head {
                bytes: [0, a, b, c, d, e, 0, 0, 0],
                count: 6,
            }
        }
        Err(r) => refused_head(r),
    }
}

fn book_head(b: Result<Issued, Refusal>) -> Head
    ensures { HeadIs (after00 (answer_number b) (bytes3 (booked_ticket b) ++ (bytes3 (booked_arrival b) ++ bytes2 (booked_count b)))) result }
{
    match b {
        Ok(t) => {
            let [_, a, b, c] = t.ticket.to_be_bytes();
            let [_, d, e, f] = t.arrival.to_be_bytes();
            let [.., g, h] = t.count.to_be_bytes();
            Head {
                bytes: [0, a, b, c, d, e, f, g, h],
                count: 9,
            }
        }
        Err(r) => refused_head(r),
    }
}

fn cancel_head(a: Result<usize, Refusal>) -> Head
    ensures { HeadIs (after00 (answer_number a) (bytes2 (cancelled_count a))) result }
{
    match a {
        Ok(n) => {
            let [.., a, b] = n.to_be_bytes();
            Head {
                bytes: [0, a, b, 0, 0, 0, 0, 0, 0],
                count: 3,
            }
        }
        Err(r) => refused_head(r),
    }
}

fn page_head(p: Result<Shown, Refusal>) -> Head
    requires { paged_rows p < 256 }
    ensures { HeadIs (after00 (answer_number p) (paged_count p ∷ (bit (paged_more p) ∷ []))) result }
{
    match p {
        Ok(s) => Head {
            bytes: [0, s.count as u8, u8::from(s.more), 0, 0, 0, 0, 0, 0],
            count: 3,
        },
        Err(r) => refused_head(r),
    }
}

// An answer's lines: the first, and the row lines.
fn put_answer(h: Head, list: &[u8], rows: usize, out: &mut [u8]) -> usize
    requires count_bound { (h.count ≤ 9) × (length h.bytes ≡ 9) }
    requires rows_in_bounds { row_size * rows ≤ length list.now }
    requires rows_in_bounds_2 { 19 + row_line_size * rows ≤ length out.old }
    ensures { Answers (line_of (take h.count h.bytes) ++ row_lines rows list.now) out.old out.new result }
{
    put_line(&h.bytes, 0, h.count, 0, out);
    let at = 2 * h.count + 1;
    put_rows(list, rows, at, out);
    at + Row::LINE * rows
}

// ---- frames

// A line of one byte.
#[tactic(auto, unfolding(rules::specs::Frames::hex_of))]
fn put_number(x: u8, out: &mut [u8]) -> usize
    requires { 3 ≤ length out.old }
    ensures { Answers (line_of (x ∷ [])) out.old out.new result }
{
    put_line(&[x], 0, 1, 0, out);
    3
}

// "A line refused with 12 changes nothing."
fn refused(out: &mut [u8]) -> usize
    requires { answer_room ≤ length out.old }
    ensures { (s : State) → Spoken (Said s (line_of (12 ∷ []))) out.old out.new (told s result) }
{
    put_number(12, out)
}

// This and `link_frame` stay apart: each fills another list of the map, and what they share is `refused` and `put_number`.
fn place_frame(s: &mut State, b: &[u8; 9], out: &mut [u8]) -> usize
    requires { answer_room ≤ length out.old }
    ensures { Spoken (PlaceFrame s.old b.now) out.old out.new (told s.new result) }
{
    let n = s.map.place_count;
    if s.closed || n >= Map::PLACES {
        return refused(out);
    }
    s.map.places[n] = Place {
        capacity: b[1],
        duration: wire::two(b, 2) as u16,
    };
    s.map.place_count = n + 1;
    put_number(0, out)
}

fn link_frame(s: &mut State, b: &[u8; 9], out: &mut [u8]) -> usize
    requires { answer_room ≤ length out.old }
    ensures { Spoken (LinkFrame s.old b.now) out.old out.new (told s.new result) }
{
    let n = s.map.link_count;
    if s.closed || n >= Map::LINKS {
        return refused(out);
    }
    s.map.links[n] = Link {
        from: b[1],
        to: b[2],
    };
    s.map.link_count = n + 1;
    put_number(0, out)
}

fn plan_frame(s: &State, b: &[u8; 9], out: &mut [u8]) -> usize
    requires { answer_room ≤ length out.old }
    ensures { Spoken (PlanFrame s.now b.now) out.old out.new (kept s.now true result) }
{
    let start = b[1] as u32;
    let destination = b[2] as u32;
    let second = wire::three(b, 3);
    let mut list = [0; Row::LIST];
    let p = planning::plan(s.map, s.book, start, destination, second, &mut list);
    put_answer(plan_head(p), &list, rules::rows_of(p), out)
}

fn book_frame(s: &mut State, b: &[u8; 9], out: &mut [u8]) -> usize
    requires { answer_room ≤ length out.old }
    ensures { Spoken (BookFrame s.old b.now) out.old out.new (kept s.new true result) }
{
    let start = b[1] as u32;
    let destination = b[2] as u32;
    let second = wire::three(b, 3);
    let r = booking::book(s.map, s.book, start, destination, second);
    s.book = r.book;
    put_answer(book_head(r.answer), &[], 0, out)
}

fn cancel_frame(s: &mut State, b: &[u8; 9], out: &mut [u8]) -> usize
    requires { answer_room ≤ length out.old }
    ensures { Spoken (CancelFrame s.old b.now) out.old out.new (kept s.new true result) }
{
    let r = booking::cancel(s.map, s.book, wire::three(b, 1));
    s.book = r.book;
    put_answer(cancel_head(r.answer), &[], 0, out)
}

fn page_frame(s: &State, b: &[u8; 9], out: &mut [u8]) -> usize
    requires { answer_room ≤ length out.old }
    ensures { Spoken (PageFrame s.now b.now) out.old out.new (kept s.now true result) }
{
    let cursor = Cursor {
        place: b[2] as u32,
        entry: wire::three(b, 3),
        ticket: wire::three(b, 6),
    };
    let mut list = [0; Row::LIST];
    let p = paging::page(s.map, s.book, b[1] as u32, cursor, &mut list);
    put_answer(page_head(p), &list, rules::rows_of(p), out)
}

// A line's answer over the first of out; the state becomes the one after the line.
fn tell(s: &mut State, l: Line, out: &mut [u8]) -> usize
    requires { answer_room ≤ length out.old }
    ensures { Spoken (Tells s.old l) out.old out.new (told s.new result) }
{
    let Some(w) = word_of(l) else {
        return refused(out);
    };
    let b = &w.bytes;
    let len = match w.decoder {
        Decoder::Place => return place_frame(s, b, out),
        Decoder::Link => return link_frame(s, b, out),
        Decoder::Plan => plan_frame(s, b, out),
        Decoder::Book => book_frame(s, b, out),
        Decoder::Cancel => cancel_frame(s, b, out),
        Decoder::Page => page_frame(s, b, out),
    };
    // "01 or 02 after any well-shaped frame of another kind" is refused: such a frame closes the map.
    s.closed = true;
    len
}

// The state after a line, and the bytes that it prints over the first of out. A list too short for the longest answer is left as it is, and so is
// the state.
pub fn answer(s: State, l: Line, out: &mut [u8]) -> Told
    ensures { AnswerIs s l out.old out.new result }
{
    if out.len() < Row::ANSWER {
        return Told { state: s, len: 0 };
    }
    let mut state = s;
    let len = tell(&mut state, l, out);
    Told { state, len }
}

// ---- input cut into lines

// The line as far as the bytes reach: to its line feed, where it is ended, or to their end; both have all three.
#[derive(Clone, Copy)]
struct Cut {
    line: Line,
    upto: usize,
    ended: bool,
}

fn take_line(l: Line, buf: &[u8], from: usize) -> Cut
    requires { from ≤ length buf.now }
    ensures { CutIs l buf.now from result }
{
    let mut line = l;
    for i in from..buf.len() {
        if buf[i] == b'\n' {
            return Cut {
                line,
                upto: i + 1,
                ended: true,
            };
        }
        line = push(line, buf[i]);
    }
    Cut {
        line,
        upto: buf.len(),
        ended: false,
    }
}

// The answers of the lines that the bytes from an index on end, as long as the caller's list has room for one more.
pub fn fed(d: Desk, buf: &[u8], from: usize, out: &mut [u8]) -> Intake
    ensures { FedIs d buf.now from out.old out.new result }
{
    let mut desk = d;
    let mut upto = from;
    let mut len = 0;
    // a turn takes a line, or what is begun of one: no index is counted
    'lines: while upto < buf.len() && out.len() - len >= Row::ANSWER {
        let cut = take_line(desk.line, buf, upto);
        upto = cut.upto;
        if !cut.ended {
            desk.line = cut.line;
            break;
        }
        desk.line = no_digits();
        len += tell(&mut desk.state, cut.line, &mut out[len..]);
    }
    Intake { desk, upto, len }
}

// The last line, where it lacks its line feed: it is fed one.
pub fn ended(d: Desk, out: &mut [u8]) -> Told
    ensures { EndedIs d out.old out.new result }
{
    if d.line.len == 0 {
        return Told {
            state: d.state,
            len: 0,
        };
    }
    let f = fed(d, b"\n", 0, out);
    Told {
        state: f.desk.state,
        len: f.len,
    }
}

// "`lanebook` begins with no places, no links and an empty book whose next ticket is 1."
pub fn first_desk() -> Desk
    ensures { (result.state ≡ begins) × (result.line ≡ empty_line) }
{
    let map = Map {
        places: [Place::default(); Map::PLACES],
        links: [Link::default(); Map::LINKS],
        place_count: 0,
        link_count: 0,
    };
    let book = ledger::empty_book();
    Desk {
        state: State {
            map,
            book,
            closed: false,
        },
        line: no_digits(),
    }
}
