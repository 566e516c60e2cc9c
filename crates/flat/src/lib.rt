// Map, book and free windows as arrays of numbers, lent to all that works below the public calls: specs/ say what they stand for. A row is two numbers,
// its key (place, entry and ticket) and its tail (exit and next place).
#![tactic(auto)]

ghost use Rattle.std.specs.Prelude.{◌≡◌, ◌<◌};
ghost use Rattle.rules.specs.Bytes.{field_limit};
ghost use Rattle.flat.specs.Flat.{place_of, exit_of, next_value, tail_value, key_limit};

// A map as numbers: how many places and links, the capacity and duration of each place, and where each link goes from and to.
#[derive(Default, Drop)]
pub struct Yard {
    pub places: usize,
    pub links: usize,
    pub cap: [u8; 256],
    pub dur: [u32; 256],
    pub from: [u8; 1024],
    pub to: [u8; 1024],
}

// A yard's links by place: the last link of each place, and each link's one before it of the same place. They count from 1; 0 stands where there is none.
#[derive(Default, Drop)]
pub struct Ways {
    pub head: [u16; 256],
    pub chain: [u16; 1024],
}

// A book as numbers: how many rows, the next ticket, and each row's key and tail.
#[derive(Default, Drop)]
pub struct Rows {
    pub count: usize,
    pub next_ticket: u32,
    pub key: [u64; 1024],
    pub tail: [u32; 1024],
}

// The free windows of a book, place after place: how many, the place, start and end of each, and the first window of each place.
#[derive(Default, Drop)]
pub struct Windows {
    pub count: usize,
    pub place: [u8; 1280],
    pub start: [u32; 1280],
    pub end: [u32; 1280],
    pub first: [u16; 257],
}

// What a place counts in a key, and a second.
pub const PLACE: u64 = 281474976710656;

pub const SECOND: u64 = 16777216;

// The place of a key.
pub fn place_of(key: u64) -> u8
    requires { key < key_limit }
    ensures { result ≡ place_of key }
{
    (key / PLACE) as u8
}

// Exit and next place, which is a byte, as one number.
pub fn tail_of(exit: u32, next: u8) -> u32
    requires { exit < field_limit }
    ensures { (result ≡ tail_value exit next) × (next < 256) }
{
    exit * 256 + next as u32
}

// The exit of a tail.
pub fn exit_of(tail: u32) -> u32
    ensures { (result ≡ exit_of tail) × (result < field_limit) }
{
    tail / 256
}

// The next place of a tail.
pub fn next_of(tail: u32) -> u8
    ensures { (result ≡ next_value tail) × (result < 256) }
{
    (tail % 256) as u8
}
