// What the barn's papers speak of: map, row, book, cursor and answers, each with its limits.
// What they mean stands in specs/.
#![tactic(auto)]

ghost use Rattle.std.specs.Prelude.{◌≡◌, ℕ};
ghost use Rattle.rules.specs.Limits.{day, place_limit, capacity_limit, duration_limit, link_limit, row_limit, ticket_limit, plan_limit, page_limit};
ghost use Rattle.rules.specs.Bytes.{place_size, link_size, row_size, row_line_size, list_size, answer_room};
ghost use Rattle.rules.specs.Rows.{row, no_row, cursor_key, row_key, first_key, lessb};
ghost use Rattle.rules.specs.Answer.{number, fault_row, answer_number, answer_rows};

#[derive(Clone, Copy, Default)]
pub struct Place {
    pub capacity: u8,
    pub duration: u16,
}

#[derive(Clone, Copy, Default)]
pub struct Link {
    pub from: u8,
    pub to: u8,
}

impl Place {
    // "capacity(1) duration(2)"
    pub const BYTES: usize = 3;
}

impl Link {
    // "from(1) to(1)"
    pub const BYTES: usize = 2;
}

#[derive(Clone, Copy)]
pub struct Map {
    pub places: [Place; Map::PLACES],
    pub links: [Link; Map::LINKS],
    pub place_count: usize,
    pub link_count: usize,
}

impl Map {
    pub const PLACES: usize = 256;

    pub const LINKS: usize = 1024;

    pub const CAPACITY: u8 = 16;

    pub const DURATION: u32 = 3600;

    pub const DAY: u32 = 86400;
}

#[derive(Clone, Copy, PartialEq, Eq)]
pub struct Row {
    pub place: u8,
    pub entry: u32,
    pub ticket: u32,
    pub exit: u32,
    pub next: u8,
}

impl Row {
    // "place(1) entry(3) ticket(3) exit(3) next(1)"
    pub const BYTES: usize = 11;

    // A row's line: two digits a byte and a line feed.
    pub const LINE: usize = 2 * Row::BYTES + 1;

    // The bytes of a list that holds every plan.
    pub const LIST: usize = Row::BYTES * Trip::STAYS;

    // The bytes of a list with room for every answer of the program.
    pub const ANSWER: usize = Row::LINE * Trip::STAYS + 560;

    // A row of these numbers.
    pub fn new(place: u8, entry: u32, ticket: u32, exit: u32, next: u8) -> Self
        ensures { result ≡ row place entry ticket exit next }
    {
        Row {
            place,
            entry,
            ticket,
            exit,
            next,
        }
    }

    // A slot that holds no row.
    pub fn none() -> Self
        ensures { result ≡ no_row }
    {
        Row::new(0, 0, 0, 0, 0)
    }
}

#[derive(Clone, Copy, PartialEq, Eq)]
pub struct Book {
    pub rows: [Row; Book::ROWS],
    pub count: usize,
    pub next_ticket: u32,
}

impl Book {
    pub const ROWS: usize = 1024;

    pub const TICKETS: u32 = 1000000;

    // More rows than any book has: the count of one that cannot be read.
    pub const UNREAD: usize = Book::ROWS + 1;
}

#[derive(Clone, Copy, Default, PartialEq, Eq, PartialOrd, Ord)]
pub struct Cursor {
    pub place: u32,
    pub entry: u32,
    pub ticket: u32,
}

impl Cursor {
    pub const PAGE: u32 = 64;

    // "The first cursor is place 0, entry 0, ticket 0."
    pub fn first() -> Self
        ensures { cursor_key result ≡ first_key }
    {
        Cursor::default()
    }

    // The row's key is above the cursor.
    pub fn before(self, r: Row) -> bool
        ensures { result ≡ lessb (cursor_key self) (row_key r) }
    {
        self < Cursor::from(r)
    }

    // The cursor after this row.
    pub fn moved(self, r: Row) -> Self
        ensures { cursor_key result ≡ row_key r }
    {
        Cursor::from(r)
    }
}

impl From<Row> for Cursor {
    fn from(r: Row) -> Self
        ensures { cursor_key result ≡ row_key r }
    {
        Cursor {
            place: u32::from(r.place),
            entry: r.entry,
            ticket: r.ticket,
        }
    }
}

#[derive(Clone, Copy)]
pub enum Refusal {
    BadMap,
    BadBook,
    OffMap,
    OffDay,
    NoPlan,
    ShortList,
    FullBook,
    NoTickets,
    UnknownTicket,
    BadSize,
    BadCursor,
    BadFrame,
    KeysFall(usize),
    BrokenRun(usize),
    Overfull(usize),
    Barred(usize),
}

impl Refusal {
    // Its number in the table.
    pub fn number(self) -> u8
        ensures { result ≡ number self }
    {
        match self {
            Refusal::BadMap => 1,
            Refusal::BadBook => 2,
            Refusal::OffMap => 3,
            Refusal::OffDay => 4,
            Refusal::NoPlan => 5,
            Refusal::ShortList => 6,
            Refusal::FullBook => 7,
            Refusal::NoTickets => 8,
            Refusal::UnknownTicket => 9,
            Refusal::BadSize => 10,
            Refusal::BadCursor => 11,
            Refusal::BadFrame => 12,
            Refusal::KeysFall(_) => 13,
            Refusal::BrokenRun(_) => 14,
            Refusal::Overfull(_) => 15,
            Refusal::Barred(_) => 16,
        }
    }

    // The number, from 1, of the row at which it shows; 0 where it names none.
    pub fn row(self) -> usize
        ensures { result ≡ fault_row self }
    {
        match self {
            Refusal::KeysFall(i)
            | Refusal::BrokenRun(i)
            | Refusal::Overfull(i)
            | Refusal::Barred(i) => i,
            _ => 0,
        }
    }
}

// What a call answers: it did this, or refuses. Its number in the table, 0 where it is done.
pub fn number_of<T: Copy>(answer: Result<T, Refusal>) -> u8
    ensures { result ≡ answer_number answer }
{
    match answer {
        Ok(_) => 0,
        Err(r) => r.number(),
    }
}

// What a call did, counted in rows.
pub trait InRows: Copy {
    ghost rows: { Self → ℕ };

    fn rows(self) -> usize
        ensures { result ≡ rows self };
}

// How many rows an answer counts, 0 at a refusal.
pub fn rows_of<T: InRows>(answer: Result<T, Refusal>) -> usize
    ensures { result ≡ answer_rows T.rows answer }
{
    match answer {
        Ok(t) => t.rows(),
        Err(_) => 0,
    }
}

#[derive(Clone, Copy)]
pub struct Trip {
    pub arrival: u32,
    pub count: usize,
}

impl Trip {
    // As many stays as there can be free windows.
    pub const STAYS: usize = Map::PLACES + Book::ROWS;
}

impl InRows for Trip {
    ghost rows = { λ t. t.count };

    fn rows(self) -> usize {
        self.count
    }
}

#[derive(Clone, Copy)]
pub struct Issued {
    pub ticket: u32,
    pub arrival: u32,
    pub count: usize,
}

impl InRows for Issued {
    ghost rows = { λ i. i.count };

    fn rows(self) -> usize {
        self.count
    }
}

// A cancellation answers with the number of rows itself.
impl InRows for usize {
    ghost rows = { λ n. n };

    fn rows(self) -> usize {
        self
    }
}

// The book after a call that changes it, and what the call answers.
#[derive(Clone, Copy)]
pub struct Change<T> {
    pub book: Book,
    pub answer: Result<T, Refusal>,
}

#[derive(Clone, Copy)]
pub struct Shown {
    pub count: usize,
    pub more: bool,
    pub cursor: Cursor,
}

impl InRows for Shown {
    ghost rows = { λ s. s.count };

    fn rows(self) -> usize {
        self.count
    }
}

// What `lanebook` keeps between frames.
#[derive(Clone, Copy)]
pub struct State {
    pub map: Map,
    pub book: Book,
    pub closed: bool,
}

// The digits of a line, of which a frame has at most 18: len 19 stands for any longer line.
#[derive(Clone, Copy)]
pub struct Line {
    pub digits: [u8; 18],
    pub len: usize,
}

// The state after a line, and how many bytes of its answer are in the caller's list.
#[derive(Clone, Copy)]
pub struct Told {
    pub state: State,
    pub len: usize,
}

// What stands between two reads: the state, and the line that is begun.
#[derive(Clone, Copy)]
pub struct Desk {
    pub state: State,
    pub line: Line,
}

// How far the bytes are taken, and how many bytes of answers are in the caller's list.
#[derive(Clone, Copy)]
pub struct Intake {
    pub desk: Desk,
    pub upto: usize,
    pub len: usize,
}

// The limits above, which are those of the definitions.
#[derive(Clone, Copy)]
pub struct Limits {
    pub day: u32,
    pub places: usize,
    pub capacity: u8,
    pub duration: u32,
    pub links: usize,
    pub rows: usize,
    pub tickets: u32,
    pub stays: usize,
    pub page: u32,
    pub place_bytes: usize,
    pub link_bytes: usize,
    pub row_bytes: usize,
    pub row_line: usize,
    pub list: usize,
    pub answer: usize,
}

pub fn all_limits() -> Limits
    ensures day_value { (result.day ≡ day) × (result.places ≡ place_limit) × (result.capacity ≡ capacity_limit) × (result.duration ≡ duration_limit) × (result.links ≡ link_limit) }
    ensures rows_value { (result.rows ≡ row_limit) × (result.tickets ≡ ticket_limit) × (result.stays ≡ plan_limit) × (result.page ≡ page_limit) }
    ensures place_bytes_value { (result.place_bytes ≡ place_size) × (result.link_bytes ≡ link_size) × (result.row_bytes ≡ row_size) }
    ensures row_line_value { (result.row_line ≡ row_line_size) × (result.list ≡ list_size) × (result.answer ≡ answer_room) }
{
    Limits {
        day: Map::DAY,
        places: Map::PLACES,
        capacity: Map::CAPACITY,
        duration: Map::DURATION,
        links: Map::LINKS,
        rows: Book::ROWS,
        tickets: Book::TICKETS,
        stays: Trip::STAYS,
        page: Cursor::PAGE,
        place_bytes: Place::BYTES,
        link_bytes: Link::BYTES,
        row_bytes: Row::BYTES,
        row_line: Row::LINE,
        list: Row::LIST,
        answer: Row::ANSWER,
    }
}
