// Whether rows given as arrays of numbers are a well-formed book, and if not what is wrong and at which row: each test looks through the arrays once, or only
// where it must.
// Keys are packed, so that the order of keys is the order of numbers.
#![tactic(auto)]

ghost use Rattle.std.specs.Prelude.{◌≡◌, true, false, ℕ, ◌+◌, ◌≤◌, ◌<◌, length, eqb};
ghost use Rattle.laws.specs.Tests.{Decides};
ghost use Rattle.laws.specs.Lists.{at};
ghost use Rattle.rules.specs.Bytes.{field_limit};
ghost use Rattle.rules.specs.Map.{linked, MapRules};
ghost use Rattle.rules.specs.Book.{Unbarred};
ghost use Rattle.flat.specs.Flat.{places_in, links_in, Chained, place_of, entry_of, ticket_of, next_value, key_limit, row_of, rows_in, Packed, KeysRise};
ghost use Rattle.lookup.specs.Keys.{Keyed};
ghost use Rattle.lookup.specs.Crossings.{Timed, ByPlace};
ghost use Rattle.windows.specs.Places.{Given};
ghost use Rattle.bookfit.specs.Join.{next_key_value, IsLast, Joins, LastBelow, EndsOnce};
ghost use Rattle.bookfit.specs.Least.{lesser, Lowest, FirstOf};
ghost use Rattle.bookfit.specs.Rows.{TicketFits, InRange, RowFits, OnMap, Unfit};
ghost use Rattle.bookfit.specs.Prefix.{FirstAt, FirstFall};
ghost use Rattle.bookfit.specs.Ring.{Candidate, Ringed, Leaves, Listed};
ghost use Rattle.bookfit.specs.Filed.{leave_slot_value, Chains, NextOn, Filed, Pile, AboveAll};
ghost use Rattle.bookfit.specs.Formed.{Capped};
ghost use Rattle.bookfit.specs.Answer.{Lent, FirstBroken, BookFits};

use flat::{Rows, Ways, Windows, Yard};
use rules::{Book, Map, Refusal};

// The day's end, as wide as a key.
const DAY: u64 = Map::DAY as u64;

// ---- the rows of a ticket are one run

// the key of the row that follows one
#[tactic(auto, unfolding(crate::specs::Join::next_key_value))]
fn next_key(key: u64, tail: u32) -> u64
    ensures { (result ≡ next_key_value key tail) × (result < key_limit) }
{
    let q = flat::next_of(tail) as u64;
    let e = flat::exit_of(tail) as u64;
    q * flat::PLACE + e * flat::SECOND + key % flat::SECOND
}

fn is_last(key: u64, tail: u32) -> bool
    ensures { result ≡ eqb (next_value tail) (place_of key) }
{
    let q = flat::next_of(tail) as u64;
    q == key / flat::PLACE
}

// the lesser of two tickets, where there is one
fn lesser(a: Option<u64>, b: Option<u64>) -> Option<u64>
    ensures { result ≡ lesser a b }
{
    match (a, b) {
        (Some(x), Some(y)) => Some(x.min(y)),
        (None, _) => b,
        (_, None) => a,
    }
}

// The least ticket of a row that goes on and has no successor, or one that a row before has taken, if any; any table serves as hints.
fn least_astray(rows: &Rows, count: usize, hint: &[u16]) -> Option<u64>
    requires count_bound { count ≤ 1024 }
    requires packed { Packed rows.now.key }
    requires keys_rise { KeysRise rows.now.key count }
    ensures { Lowest (Joins (at rows.now.key) (at rows.now.tail) count) (at rows.now.key) count result }
{
    let mut taken = [false; 1024];
    let mut low = None;
    for i in 0..count {
        let k = rows.key[i];
        let x = rows.tail[i];
        if !is_last(k, x) {
            match lookup::hinted(&rows.key, hint, count, next_key(k, x)) {
                Some(j) if !taken[j] => taken[j] = true,
                _ => low = lesser(low, Some(k % flat::SECOND)),
            }
        }
    }
    low
}

// The same: a table of hints pays off where rows are many.
fn least_unjoined(rows: &Rows, count: usize) -> Option<u64>
    requires count_bound { count ≤ 1024 }
    requires packed { Packed rows.now.key }
    requires keys_rise { KeysRise rows.now.key count }
    ensures { Lowest (Joins (at rows.now.key) (at rows.now.tail) count) (at rows.now.key) count result }
{
    if count < 64 {
        let none = [0u16; 1];
        return least_astray(rows, count, &none);
    }
    let mut hint = [0u16; 4096];
    lookup::fill_hints(&rows.key, count, &mut hint);
    least_astray(rows, count, &hint)
}

// the last row of ticket t
fn last_of(key: u64, tail: u32, t: u64) -> bool
    ensures { Decides result (IsLast key tail × (ticket_of key ≡ t)) }
{
    is_last(key, tail) && key % flat::SECOND == t
}

// a last row of ticket t is among the first i
fn last_among(key: &[u64; 1024], tail: &[u32; 1024], i: usize, t: u64) -> bool
    requires { i ≤ 1024 }
    ensures { Decides result (LastBelow (at key.now) (at tail.now) i t) }
{
    key[..i]
        .iter()
        .zip(&tail[..i])
        .any(|(k, x)| last_of(*k, *x, t))
}

// The least ticket of a last row before which another is the last of its ticket, if any: a look back only where a ticket's slot is marked already.
fn least_ended(rows: &Rows, count: usize) -> Option<u64>
    requires { count ≤ 1024 }
    ensures { Lowest (EndsOnce (at rows.now.key) (at rows.now.tail)) (at rows.now.key) count result }
{
    let mut seen = [false; 4096];
    let mut low = None;
    for i in 0..count {
        let k = rows.key[i];
        if is_last(k, rows.tail[i]) {
            let h = (k % 4096) as usize;
            let t = k % flat::SECOND;
            if seen[h] && last_among(&rows.key, &rows.tail, i, t) {
                low = lesser(low, Some(t));
            }
            seen[h] = true;
        }
    }
    low
}

// ---- the order of keys, and each row by itself

// The first row whose key is not above the one before it, none where keys rise.
fn first_fall(key: &[u64; 1024], count: usize) -> Option<usize>
    requires { count ≤ 1024 }
    ensures { FirstFall key.now count result }
{
    for i in 1..count {
        if key[i - 1] >= key[i] {
            return Some(i);
        }
    }
    None
}

// the ticket was issued: at least 1 and below the next number
fn ticket_fits(key: u64, next_ticket: u32) -> bool
    ensures { Decides result (TicketFits key next_ticket) }
{
    let t = key % flat::SECOND;
    t > 0 && t < u64::from(next_ticket)
}

// The places of a row are on the map and its seconds in the day.
fn in_range(n: usize, key: u64, tail: u32) -> bool
    ensures { Decides result (InRange n (row_of key tail)) }
{
    key / flat::PLACE < n as u64
        && usize::from(flat::next_of(tail)) < n
        && key / flat::SECOND % flat::SECOND <= DAY
        && flat::exit_of(tail) <= Map::DAY
}

// the first second at which a row of duration d may end
fn least_exit(key: u64, d: u32) -> u64
    ensures { result ≡ entry_of key + d }
{
    key / flat::SECOND % flat::SECOND + d as u64
}

// a row keeps to the map, to the day and to its place's duration, and goes on along a link
fn row_fits(yard: &Yard, ways: &Ways, key: u64, tail: u32) -> bool
    requires k_bound { yard.now.links ≤ 1024 }
    requires chained { Chained yard.now.from yard.now.links ways.now.head ways.now.chain }
    requires key_lt_key_limit { key < key_limit }
    ensures { Decides result (RowFits yard.now.places (at yard.now.dur) (linked (links_in yard.now.from yard.now.to yard.now.links)) (row_of key tail)) }
{
    let p = (key / flat::PLACE) as usize;
    let next = flat::next_of(tail);
    let q = next as usize;
    let x = flat::exit_of(tail) as u64;
    let least = least_exit(key, yard.dur[p]);
    if p >= yard.places {
        return false;
    }
    if x > DAY {
        return false;
    }
    if x < least {
        return false;
    }
    if p == q {
        return x == least;
    }
    mapfit::linked_by(yard, ways, p, next)
}

// The least ticket of a row that does not fit, if one does not; refused where a row's numbers are out of their ranges. A row that fits is within them.
fn least_unfit(
    yard: &Yard,
    ways: &Ways,
    rows: &Rows,
    next_ticket: u32,
    count: usize,
) -> Result<Option<u64>, Refusal>
    requires count_bound { count ≤ 1024 }
    requires k_bound { yard.now.links ≤ 1024 }
    requires chained { Chained yard.now.from yard.now.links ways.now.head ways.now.chain }
    requires packed { Packed rows.now.key }
    requires on_map { OnMap yard.now.places (linked (links_in yard.now.from yard.now.to yard.now.links)) }
    ensures { Unfit yard.now.places (at yard.now.dur) (linked (links_in yard.now.from yard.now.to yard.now.links)) (at rows.now.key) (at rows.now.tail)
        next_ticket count result }
{
    let mut low = None;
    for i in 0..count {
        let x = rows.key[i];
        let y = rows.tail[i];
        if !ticket_fits(x, next_ticket) {
            return Err(Refusal::BadBook);
        }
        if !row_fits(yard, ways, x, y) {
            if !in_range(yard.places, x, y) {
                return Err(Refusal::BadBook);
            }
            low = lesser(low, Some(x % flat::SECOND));
        }
    }
    Ok(low)
}

// The first row of ticket t, if there is one.
fn first_of(key: &[u64; 1024], count: usize, t: u64) -> Option<usize>
    requires { count ≤ 1024 }
    ensures { FirstOf key.now count t result }
{
    key[..count].iter().position(|k| *k % flat::SECOND == t)
}

// The first row of the lowest ticket whose rows are no plan, none where all are. `unfit` is the least ticket of a row that does not fit.
fn first_broken(rows: &Rows, count: usize, unfit: Option<u64>) -> Option<usize>
    requires count_bound { count ≤ 1024 }
    requires packed { Packed rows.now.key }
    requires keys_rise { KeysRise rows.now.key count }
    ensures { FirstBroken rows.now.key rows.now.tail count unfit result }
{
    let astray = least_unjoined(rows, count);
    let ended = least_ended(rows, count);
    let t = lesser(unfit, lesser(astray, ended))?;
    first_of(&rows.key, count, t)
}

// ---- a place overfilled

// The number, from 1, of the first row at which a place is overfilled, of rows that overfill one: the first `good` rows overfill none, the first `bad`
// rows do. What is lent for windows holds nothing of use after.
fn first_overfull(yard: &Yard, rows: &Rows, windows: &mut Windows, count: usize) -> usize
    requires given { Given yard.now.places count yard.now.cap yard.now.dur rows.now.key rows.now.tail }
    requires fact { Capped yard.now.places yard.now.cap (rows_in rows.now.key rows.now.tail count) → ⊥ }
    requires lent { Lent windows.old.start windows.old.end windows.old.place windows.old.first }
    ensures { FirstAt (Capped yard.now.places yard.now.cap) rows.now.key rows.now.tail count result }
{
    // Halved by hand: the test looks at a whole beginning of the book, not at one element.
    let mut good = 0;
    let mut bad = count;
    while bad - good > 1 {
        let mid = good + (bad - good) / 2;
        match windows::all_windows(yard, rows, windows, mid) {
            Some(_) => good = mid,
            None => bad = mid,
        }
    }
    bad
}

// ---- the exchange rule: no crossing closes a ring with others of its second

// the slot of the crossings that leave a place at a second
#[tactic(auto, unfolding(crate::specs::Filed::leave_slot_value))]
fn leave_slot(place: u8, second: u32) -> usize
    requires { second < field_limit }
    ensures { (result ≡ leave_slot_value place second) × (result < 1024) }
{
    let p = place as u32;
    ((second * 11 + p * 301) % 1024) as usize
}

// Of the first `upto` rows those that go on out of a place which another of the book enters then: no other can be on a ring. How many they are.
fn candidates(rows: &Rows, count: usize, upto: usize, list: &mut [u16; 1024]) -> usize
    requires by_place { ByPlace rows.now.key rows.now.tail count }
    requires upto_le_count { upto ≤ count }
    requires list_len { length list.old ≡ 1024 }
    ensures { Listed (Candidate rows.now.key rows.now.tail count) rows.now.key rows.now.tail upto list.new result }
{
    let mut m = 0;
    for i in 0..upto {
        let k = rows.key[i];
        let x = rows.tail[i];
        if lookup::entered_after(&rows.key, count, i, flat::place_of(k), flat::exit_of(x)) {
            if !is_last(k, x) {
                list[m] = i as u16;
                m += 1;
            }
        }
    }
    m
}

// each listed row put in front of its slot's chain
fn file_rows(
    rows: &Rows,
    count: usize,
    list: &[u16; 1024],
    m: usize,
    head: &mut [u16; 1024],
    chain: &mut [u16; 1024],
)
    requires keyed { Keyed rows.now.key count }
    requires listed { Listed (Ringed rows.now.key rows.now.tail count) rows.now.key rows.now.tail count list.now m }
    requires filed { Filed rows.now.key rows.now.tail list.now m 0 head.old chain.old }
    ensures { Filed rows.now.key rows.now.tail list.now m m head.new chain.new }
{
    for x in &list[..m] {
        let i = *x as usize;
        let h = leave_slot(flat::place_of(rows.key[i]), flat::exit_of(rows.tail[i]));
        chain[i] = head[h];
        head[h] = *x + 1;
    }
}

// The first row from start on along a chain that leaves place q at t, if there is one.
fn leaver(rows: &Rows, chain: &[u16; 1024], start: u16, q: u8, t: u32) -> Option<usize>
    requires start_bound { start ≤ 1024 }
    requires by_index { (j : ℕ) → at chain.now j ≤ j }
    ensures { NextOn chain.now (Leaves rows.now.key rows.now.tail q t) start result }
{
    let mut cur = start as usize;
    // Links are followed by number, 0 at a chain's end: the chains stand in arrays of a fixed size.
    while cur > 0 {
        let j = cur - 1;
        if flat::exit_of(rows.tail[j]) == t && rows.key[j] / flat::PLACE == u64::from(q) {
            return Some(j);
        }
        cur = chain[j] as usize;
    }
    None
}

// Row i put on the pile, before the first row of the chain of its next place.
fn pile_up(
    tail: &[u32; 1024],
    head: &[u16; 1024],
    rank: &mut [u16; 1024],
    work: &mut [u16; 1024],
    spot: &mut [u16; 1024],
    top: usize,
    i: usize,
)
    requires top_bound { (top < 1024) × (i < 1024) }
    requires by_index { (h : ℕ) → at head.now h ≤ 1024 }
    requires pile { Pile rank.old work.old spot.old }
    ensures { Pile rank.new work.new spot.new }
{
    work[top] = i as u16;
    spot[top] = head[leave_slot(flat::next_of(tail[i]), flat::exit_of(tail[i]))];
    rank[i] = 65535;
}

// Row i and all that it leads to numbered, each after those that follow it as far as there is no ring, in at most 20,000 turns. The last number given.
fn number_from(
    rows: &Rows,
    head: &[u16; 1024],
    chain: &[u16; 1024],
    rank: &mut [u16; 1024],
    work: &mut [u16; 1024],
    spot: &mut [u16; 1024],
    i: usize,
    from: u16,
) -> u16
    requires i_bound { i < 1024 }
    requires chains { Chains head.now chain.now }
    requires pile { Pile rank.old work.old spot.old }
    ensures { Pile rank.new work.new spot.new }
{
    let mut done = from;
    let mut top = 0;
    pile_up(&rows.tail, head, rank, work, spot, 0, i);
    for _ in 0..20000 {
        let x = work[top] as usize;
        let q = flat::next_of(rows.tail[x]);
        let t = flat::exit_of(rows.tail[x]);
        if let Some(j) = leaver(rows, chain, spot[top], q, t) {
            spot[top] = chain[j];
            if rank[j] == 0 && top < 1023 {
                top += 1;
                pile_up(&rows.tail, head, rank, work, spot, top, j);
            }
        } else {
            if done < 1024 {
                done += 1;
            }
            rank[x] = done;
            if top == 0 {
                return done;
            }
            top -= 1;
        }
    }
    done
}

// Each listed row numbered. Any numbers would do, since they are tested.
fn number_rows(
    rows: &Rows,
    list: &[u16; 1024],
    m: usize,
    head: &[u16; 1024],
    chain: &[u16; 1024],
    rank: &mut [u16; 1024],
)
    requires m_bound { m ≤ 1024 }
    requires by_index { (j : ℕ) → j < m → at list.now j < 1024 }
    requires chains { Chains head.now chain.now }
    requires rank_len { length rank.old ≡ 1024 }
    ensures { length rank.new ≡ 1024 }
{
    let mut work = [0u16; 1024];
    let mut spot = [0u16; 1024];
    let mut done: u16 = 0;
    for x in &list[..m] {
        let i = *x as usize;
        if rank[i] == 0 {
            done = number_from(rows, head, chain, rank, &mut work, &mut spot, i, done);
        }
    }
}

// row i is numbered above all listed rows that leave its next place then
fn above_all(
    rows: &Rows,
    head: &[u16; 1024],
    chain: &[u16; 1024],
    rank: &[u16; 1024],
    i: usize,
) -> bool
    requires i_bound { i < 1024 }
    requires chains { Chains head.now chain.now }
    ensures { result ≡ true → AboveAll rows.now.key rows.now.tail head.now chain.now rank.now i }
{
    let q = flat::next_of(rows.tail[i]);
    let t = flat::exit_of(rows.tail[i]);
    let r = rank[i];
    let mut from = head[leave_slot(q, t)];
    while let Some(j) = leaver(rows, chain, from, q, t) {
        if rank[j] >= r {
            return false;
        }
        from = chain[j];
    }
    true
}

// No listed row is barred: one that is not above all that follow it is looked at by itself.
fn ranks_fall(
    rows: &Rows,
    count: usize,
    list: &[u16; 1024],
    m: usize,
    head: &[u16; 1024],
    chain: &[u16; 1024],
    rank: &[u16; 1024],
) -> bool
    requires timed { Timed rows.now.key rows.now.tail count }
    requires listed { Listed (Ringed rows.now.key rows.now.tail count) rows.now.key rows.now.tail count list.now m }
    requires filed { Filed rows.now.key rows.now.tail list.now m m head.now chain.now }
    ensures { Decides result (Unbarred (rows_in rows.now.key rows.now.tail count)) }
{
    for y in &list[..m] {
        let i = *y as usize;
        if !above_all(rows, head, chain, rank, i) {
            let x = rows.tail[i];
            if lookup::leads(
                rows,
                count,
                flat::next_of(x),
                flat::place_of(rows.key[i]),
                flat::exit_of(x),
            ) {
                return false;
            }
        }
    }
    true
}

// No crossing of the first `upto` rows is barred by the others among them: the candidates are listed, filed and numbered, and their numbers tested.
fn ring_free(rows: &Rows, count: usize, upto: usize) -> bool
    requires by_place { ByPlace rows.now.key rows.now.tail count }
    requires upto_le_count { upto ≤ count }
    ensures { Decides result (Unbarred (rows_in rows.now.key rows.now.tail upto)) }
{
    let mut list = [0u16; 1024];
    let m = candidates(rows, count, upto, &mut list);
    // 0 stands for no row and no number: half the room of an Option, in arrays that are cleared often.
    let mut head = [0u16; 1024];
    let mut chain = [0u16; 1024];
    file_rows(rows, upto, &list, m, &mut head, &mut chain);
    let mut rank = [0u16; 1024];
    number_rows(rows, &list, m, &head, &chain, &mut rank);
    ranks_fall(rows, upto, &list, m, &head, &chain, &rank)
}

// One row goes on out of a place which another enters then, to one which another leaves then: without one there is no ring.
fn linked(rows: &Rows, count: usize) -> bool
    requires { ByPlace rows.now.key rows.now.tail count }
    ensures { result ≡ false → (i : ℕ) → Ringed rows.now.key rows.now.tail count i → ⊥ }
{
    for i in 0..count {
        let k = rows.key[i];
        let x = rows.tail[i];
        if lookup::entered_after(&rows.key, count, i, flat::place_of(k), flat::exit_of(x)) {
            if !is_last(k, x) {
                if lookup::left(rows, count, flat::next_of(x), flat::exit_of(x)) {
                    return true;
                }
            }
        }
    }
    false
}

// no crossing of the book is barred by the others; most often two that follow each other are not to be found
#[tactic(auto, using(crate::specs::Ring::unringed_unbarred))]
fn exchange_kept(rows: &Rows, count: usize) -> bool
    requires { ByPlace rows.now.key rows.now.tail count }
    ensures { Decides result (Unbarred (rows_in rows.now.key rows.now.tail count)) }
{
    !linked(rows, count) || ring_free(rows, count, count)
}

// The number, from 1, of the first row at which a crossing is barred, of rows of which one is: the first `good` rows hold no ring, the first `bad` rows do.
fn first_barred(rows: &Rows, count: usize) -> usize
    requires by_place { ByPlace rows.now.key rows.now.tail count }
    requires fact { Unbarred (rows_in rows.now.key rows.now.tail count) → ⊥ }
    ensures { FirstAt Unbarred rows.now.key rows.now.tail count result }
{
    // Halved by hand: the test looks at a whole beginning of the book, not at one element.
    let mut good = 0;
    let mut bad = count;
    while bad - good > 1 {
        let mid = good + (bad - good) / 2;
        if ring_free(rows, count, mid) {
            good = mid;
        } else {
            bad = mid;
        }
    }
    bad
}

// ---- the whole book

// The number of free windows of a well-formed book, which stand in the lent arrays place after place; else what is wrong with it and at which row.
// A row is looked for only where its check has failed.
pub fn book_fits(
    yard: &Yard,
    ways: &Ways,
    rows: &Rows,
    windows: &mut Windows,
) -> Result<usize, Refusal>
    requires map_rules { MapRules (places_in yard.now.cap yard.now.dur yard.now.places) (links_in yard.now.from yard.now.to yard.now.links) }
    requires chained { Chained yard.now.from yard.now.links ways.now.head ways.now.chain }
    requires packed { Packed rows.now.key }
    requires lent { Lent windows.old.start windows.old.end windows.old.place windows.old.first }
    ensures { BookFits yard.now.cap yard.now.dur yard.now.places yard.now.from yard.now.to yard.now.links rows.now.key rows.now.tail rows.now.count rows.now.next_ticket
        result windows.new.start windows.new.end windows.new.place windows.new.first }
{
    if rows.count > Book::ROWS {
        return Err(Refusal::BadBook);
    }
    if rows.next_ticket < 1 {
        return Err(Refusal::BadBook);
    }
    if rows.next_ticket > Book::TICKETS {
        return Err(Refusal::BadBook);
    }
    let unfit = least_unfit(yard, ways, rows, rows.next_ticket, rows.count)?;
    if let Some(i) = first_fall(&rows.key, rows.count) {
        return Err(Refusal::KeysFall(i + 1));
    }
    if let Some(i) = first_broken(rows, rows.count, unfit) {
        return Err(Refusal::BrokenRun(i + 1));
    }
    // named, so that must-fail/overfull_passes can misread it where it is tested
    let found = windows::all_windows(yard, rows, windows, rows.count);
    let Some(w) = found else {
        let i = first_overfull(yard, rows, windows, rows.count);
        return Err(Refusal::Overfull(i));
    };
    if !exchange_kept(rows, rows.count) {
        let i = first_barred(rows, rows.count);
        return Err(Refusal::Barred(i));
    }
    Ok(w)
}
