// Rows as records of bytes, and the portal's slices read into the arrays of numbers that planning works on.
#![tactic(auto)]

ghost use Rattle.std.specs.Prelude.{◌≡◌, ◌++◌, ℕ, ◌+◌, ◌*◌, ◌≤◌, ◌<◌, length, drop};
ghost use Rattle.laws.specs.Lists.{at};
ghost use Rattle.laws.specs.Tests.{Decides};
ghost use Rattle.rules.specs.Limits.{place_limit, link_limit, row_limit};
ghost use Rattle.rules.specs.Bytes.{num2, num3, field_limit, place_size, link_size, row_size, row_bytes, row_in, written};
ghost use Rattle.flat.specs.Flat.{row_of, key_limit, Packed};
ghost use Rattle.wire.specs.Tables.{rows_for};
ghost use Rattle.wire.specs.Written.{PutAt};
ghost use Rattle.wire.specs.Reading.{KeyRead, TailRead, PlacesOf, LinksOf, RowsOf};
ghost use Rattle.wire.specs.Slices.{MapShape, BookShape};

use flat::Rows;
use rules::{Book, Link, Map, Place, Row};

// A row over the first bytes of a slice.
pub fn put_row(r: Row, s: &mut [u8])
    requires { row_size ≤ length s.old }
    ensures { s.new ≡ row_bytes r ++ drop row_size s.old }
{
    let [_, entry2, entry1, entry0] = r.entry.to_be_bytes();
    let [_, ticket2, ticket1, ticket0] = r.ticket.to_be_bytes();
    let [_, exit2, exit1, exit0] = r.exit.to_be_bytes();
    let bytes = [
        r.place, entry2, entry1, entry0, ticket2, ticket1, ticket0, exit2, exit1, exit0, r.next,
    ];
    s[..Row::BYTES].copy_from_slice(&bytes);
}

// A row over the j-th record of a list of records.
pub fn put_at(r: Row, j: usize, out: &mut [u8])
    requires { row_size * (j + 1) ≤ length out.old }
    ensures { PutAt r j out.old out.new }
{
    let at = Row::BYTES * j;
    put_row(r, &mut out[at..]);
}

// The row at an index of the arrays.
pub fn row_at(rows: &Rows, i: usize) -> Row
    requires i_lt_row_limit { i < row_limit }
    requires i_bound { at rows.now.key i < key_limit }
    ensures { result ≡ row_of (at rows.now.key i) (at rows.now.tail i) }
{
    let k = rows.key[i];
    let x = rows.tail[i];
    let entry = (k / flat::SECOND % flat::SECOND) as u32;
    let ticket = (k % flat::SECOND) as u32;
    Row::new(
        flat::place_of(k),
        entry,
        ticket,
        flat::exit_of(x),
        flat::next_of(x),
    )
}

// The n rows of the arrays from an index on, as records.
pub fn copy_rows(rows: &Rows, from: usize, n: usize, out: &mut [u8])
    requires n_bound { from + n ≤ row_limit }
    requires n_in_bounds { row_size * n ≤ length out.old }
    requires packed { Packed rows.now.key }
    ensures { out.new ≡ written (rows_for rows.now.key rows.now.tail from n) out.old }
{
    for j in 0..n {
        put_at(row_at(rows, from + j), j, out);
    }
}

// A number of two bytes, high byte first.
pub fn two(s: &[u8], at: usize) -> u32
    requires { at + 2 ≤ length s.now }
    ensures { (result ≡ num2 s.now at) × (result < 65536) }
{
    u32::from(u16::from_be_bytes([s[at], s[at + 1]]))
}

// A number of three bytes, high byte first.
pub fn three(s: &[u8], at: usize) -> u32
    requires { at + 3 ≤ length s.now }
    ensures { (result ≡ num3 s.now at) × (result < field_limit) }
{
    u32::from_be_bytes([0, s[at], s[at + 1], s[at + 2]])
}

// The row that stands at an index of the bytes.
pub fn read_row(s: &[u8], at: usize) -> Row
    requires { at + row_size ≤ length s.now }
    ensures { result ≡ row_in s.now at }
{
    let entry = three(s, at + 1);
    let ticket = three(s, at + 4);
    let exit = three(s, at + 7);
    Row::new(s[at], entry, ticket, exit, s[at + 10])
}

// A map slice has the length that its counts give, and its counts are within the limits.
pub fn map_shape(s: &[u8]) -> bool
    ensures { Decides result (MapShape s.now) }
{
    if s.len() < 4 {
        return false;
    }
    let n = two(s, 0) as usize;
    let k = two(s, 2) as usize;
    n <= Map::PLACES && k <= Map::LINKS && s.len() == 4 + Place::BYTES * n + Link::BYTES * k
}

// The n places of a map slice.
pub fn read_places(s: &[u8], n: usize, cap: &mut [u8; 256], dur: &mut [u32; 256])
    requires n_le_place_limit { n ≤ place_limit }
    requires n_in_bounds { 4 + place_size * n ≤ length s.now }
    requires cap_len { length cap.old ≡ 256 }
    requires dur_len { length dur.old ≡ 256 }
    ensures { PlacesOf s.now n cap.new dur.new }
{
    for p in 0..n {
        let at = 4 + Place::BYTES * p;
        cap[p] = s[at];
        dur[p] = two(s, at + 1);
    }
}

// The k links that stand in a map slice from base on.
pub fn read_links(s: &[u8], base: usize, k: usize, from: &mut [u8; 1024], to: &mut [u8; 1024])
    requires k_le_link_limit { k ≤ link_limit }
    requires k_in_bounds { base + link_size * k ≤ length s.now }
    requires from_len { length from.old ≡ 1024 }
    requires to_len { length to.old ≡ 1024 }
    ensures { LinksOf s.now base k from.new to.new }
{
    for j in 0..k {
        let at = base + Link::BYTES * j;
        from[j] = s[at];
        to[j] = s[at + 1];
    }
}

// A book slice has the length that its count gives, and its count is within the limit.
pub fn book_shape(s: &[u8]) -> bool
    ensures { Decides result (BookShape s.now) }
{
    if s.len() < 5 {
        return false;
    }
    let n = two(s, 3) as usize;
    n <= Book::ROWS && s.len() == 5 + Row::BYTES * n
}

// The key of the row that stands at an index of the bytes.
fn read_key(s: &[u8], at: usize) -> u64
    requires { at + 7 ≤ length s.now }
    ensures { KeyRead s.now at result }
{
    let place = u64::from(s[at]);
    let entry = u64::from(three(s, at + 1));
    let ticket = u64::from(three(s, at + 4));
    place * flat::PLACE + entry * flat::SECOND + ticket
}

// The tail of the row that stands at an index of the bytes.
fn read_tail(s: &[u8], at: usize) -> u32
    requires { at + row_size ≤ length s.now }
    ensures { TailRead s.now at result }
{
    let exit = three(s, at + 7);
    flat::tail_of(exit, s[at + 10])
}

// The rows of a book slice.
pub fn read_rows(s: &[u8], count: usize, key: &mut [u64; 1024], tail: &mut [u32; 1024])
    requires count_le_row_limit { count ≤ row_limit }
    requires count_in_bounds { 5 + row_size * count ≤ length s.now }
    requires key_len { length key.old ≡ 1024 }
    requires tail_len { length tail.old ≡ 1024 }
    requires by_index { (i : ℕ) → at key.old i ≡ 0 }
    ensures { RowsOf s.now count key.new tail.new }
{
    for j in 0..count {
        let at = 5 + Row::BYTES * j;
        key[j] = read_key(s, at);
        tail[j] = read_tail(s, at);
    }
}
