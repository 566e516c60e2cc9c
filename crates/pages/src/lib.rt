// The rows after a cursor, over lent arrays of numbers, as records in the caller's list.
#![tactic(auto)]

ghost use Rattle.std.specs.Prelude.{◌≡◌, ◌+◌, ◌≤◌, ◌<◌};
ghost use Rattle.rules.specs.Limits.{row_limit, page_limit};
ghost use Rattle.rules.specs.Rows.{cursor_key};
ghost use Rattle.rules.specs.Page.{last_key};
ghost use Rattle.rules.specs.Bytes.{records};
ghost use Rattle.rules.specs.Answer.{PageDone};
ghost use Rattle.flat.specs.Flat.{Packed, KeysRise, rows_held};
ghost use Rattle.wire.specs.Tables.{rows_for};
ghost use Rattle.pages.specs.Search.{passed, FirstAfter};

use flat::Rows;
use rules::{Cursor, Shown};
use wire::{copy_rows, row_at};

// The packed key is not above the cursor.
#[tactic(auto, unfolding(rules::specs::Rows::lessb))]
fn reached(key: u64, c: Cursor) -> bool
    ensures { result ≡ passed (cursor_key c) key }
{
    let row = (
        key / flat::PLACE,
        key / flat::SECOND % flat::SECOND,
        key % flat::SECOND,
    );
    row <= (u64::from(c.place), u64::from(c.entry), u64::from(c.ticket))
}

// The index of the first row above the cursor, count where there is none. The tails are read in the clause alone.
pub fn first_after(rows: &Rows, c: Cursor) -> usize
    requires count_le_row_limit { rows.now.count ≤ row_limit }
    requires keys_rise { KeysRise rows.now.key rows.now.count }
    requires packed { Packed rows.now.key }
    ensures within { result ≤ rows.now.count }
    ensures first { FirstAfter (rows_held rows.now) (cursor_key c) result }
{
    rows.key[..rows.count].partition_point(|k| reached(*k, c))
}

// The cursor after n rows from an index on: the last one's key, or the cursor given where there is none.
fn cursor_after(rows: &Rows, from: usize, n: usize, c: Cursor) -> Cursor
    requires n_bound { from + n ≤ row_limit }
    requires packed { Packed rows.now.key }
    ensures { cursor_key result ≡ last_key (cursor_key c) (rows_for rows.now.key rows.now.tail from n) }
{
    if n == 0 {
        return c;
    }
    let last = row_at(rows, from + (n - 1));
    c.moved(last)
}

// The rows with keys above the cursor, all of them or the first `size` where there are more.
pub fn page_of(rows: &Rows, size: u32, c: Cursor, out: &mut [u8]) -> Shown
    requires count_le_row_limit { rows.now.count ≤ row_limit }
    requires keys_rise { KeysRise rows.now.key rows.now.count }
    requires packed { Packed rows.now.key }
    requires le_size { 1 ≤ size }
    requires size_le_page_limit { size ≤ page_limit }
    requires size_bound { size ≤ records out.old }
    ensures { PageDone (rows_held rows.now) size (cursor_key c) out.old out.new (Ok result) }
{
    let asked = size as usize;
    let first = first_after(rows, c);
    let left = rows.count - first;
    let n = asked.min(left);
    copy_rows(rows, first, n, out);
    let cursor = cursor_after(rows, first, n, c);
    Shown {
        count: n,
        more: asked < left,
        cursor,
    }
}
