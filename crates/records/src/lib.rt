// Plan and page with their rows written to the caller's own list of row records.
#![tactic(auto)]

ghost use Rattle.std.specs.Prelude.{◌≡◌, ◌++◌, ◌*◌, ◌≤◌, length, take, drop};
ghost use Rattle.rules.specs.Limits.{plan_limit};
ghost use Rattle.rules.specs.Rows.{cursor_key};
ghost use Rattle.rules.specs.Bytes.{row_size};
ghost use Rattle.rules.specs.Answer.{answer_rows, PlanRecords, PageRecords};
ghost use Rattle.records.specs.Reading.{RowsRead};
ghost use Rattle.records.specs.Found.{Lent, PlanFound, PageFound};

use rules::{Book, Cursor, InRows, Map, Refusal, Row, Shown, Trip};

// An answer and its rows, none where it is a refusal.
#[derive(Clone, Copy)]
pub struct Found<T> {
    pub rows: [Row; Trip::STAYS],
    pub count: usize,
    pub answer: Result<T, Refusal>,
}

// The first count rows over the first records of the caller's list.
fn copy_rows(rows: [Row; Trip::STAYS], count: usize, out: &mut [Row])
    requires { (count ≤ plan_limit) × (count ≤ length out.old) }
    ensures { out.new ≡ take count rows ++ drop count out.old }
{
    out[..count].copy_from_slice(&rows[..count]);
}

// The length of a list of packed rows with as many records as there is room for, but for no more than a plan can have.
fn lent(room: usize) -> usize
    ensures { Lent room result }
{
    if room < Trip::STAYS {
        return Row::BYTES * room;
    }
    Row::LIST
}

// The first count rows of a list of packed rows.
fn read_rows(s: &[u8], count: usize) -> [Row; Trip::STAYS]
    requires count_le_plan_limit { count ≤ plan_limit }
    requires count_in_bounds { row_size * count ≤ length s.now }
    ensures { RowsRead s.now count result }
{
    let mut rows = [Row::none(); Trip::STAYS];
    for j in 0..count {
        rows[j] = wire::read_row(s, Row::BYTES * j);
    }
    rows
}

// An answer with the rows that it wrote to a list of packed rows.
fn read_answer<T: InRows>(list: &[u8; Row::LIST], answer: Result<T, Refusal>) -> Found<T>
    requires { answer_rows T.rows answer ≤ plan_limit }
    ensures { (result.count ≡ answer_rows T.rows answer) × (result.answer ≡ answer) × RowsRead list.now result.count result.rows }
{
    let count = rules::rows_of(answer);
    let rows = read_rows(list, count);
    Found {
        rows,
        count,
        answer,
    }
}

// The plan for a caller with room for so many records.
fn find_plan(m: Map, b: Book, start: u32, destination: u32, second: u32, room: usize) -> Found<Trip>
    ensures { PlanFound m b start destination second room result }
{
    let mut list = [0u8; Row::LIST];
    let n = lent(room);
    let a = planning::plan(m, b, start, destination, second, &mut list[..n]);
    read_answer(&list, a)
}

// The earliest permitted plan, its rows written to the caller's own list of row records.
pub fn plan_rows(
    m: Map,
    b: Book,
    start: u32,
    destination: u32,
    second: u32,
    out: &mut [Row],
) -> Result<Trip, Refusal>
    ensures { PlanRecords m b start destination second out.old out.new result }
{
    let f = find_plan(m, b, start, destination, second, out.len());
    copy_rows(f.rows, f.count, out);
    f.answer
}

// The page for a caller with room for so many records.
fn find_page(m: Map, b: Book, size: u32, c: Cursor, room: usize) -> Found<Shown>
    ensures { PageFound m b size (cursor_key c) room result }
{
    let mut list = [0u8; Row::LIST];
    let n = lent(room);
    let a = paging::page(m, b, size, c, &mut list[..n]);
    read_answer(&list, a)
}

// The rows of the book after a cursor, written to the caller's own list of row records.
pub fn page_rows(m: Map, b: Book, size: u32, c: Cursor, out: &mut [Row]) -> Result<Shown, Refusal>
    ensures { PageRecords m b size (cursor_key c) out.old out.new result }
{
    let f = find_page(m, b, size, c, out.len());
    copy_rows(f.rows, f.count, out);
    f.answer
}
