// Changes of a book, by value: a ticket's rows taken out, a ticket issued. The laws of a row put in stand in specs/.
#![tactic(auto)]

ghost use Rattle.std.specs.Prelude.{◌≡◌, List, [], ℕ, ◌+◌, ◌≤◌, ◌<◌, length};
ghost use Rattle.rules.specs.declared.Row.{Row};
ghost use Rattle.rules.specs.Limits.{row_limit, ticket_limit};
ghost use Rattle.rules.specs.Rows.{keep};
ghost use Rattle.rules.specs.Book.{rows_of, book_of, of_ticket, other_ticket};

use rules::{Book, Row};

// the book of no rows, whose first ticket is 1
pub fn empty_book() -> Book
    ensures { result ≡ book_of [] 1 }
{
    Book {
        rows: [Row::none(); Book::ROWS],
        count: 0,
        next_ticket: 1,
    }
}

#[derive(Clone, Copy)]
pub struct Removed {
    pub book: Book,
    pub count: usize,
}

// the book without a ticket's rows, and how many they were
pub fn remove_ticket(b: Book, ticket: u32) -> Removed
    requires { b.count ≤ row_limit }
    ensures { (result.book ≡ book_of (keep (other_ticket ticket) (rows_of b)) b.next_ticket) × (result.count ≡ length (keep (of_ticket ticket) (rows_of b))) }
{
    let n = b.count;
    let mut out = empty_book();
    let mut kept = 0;
    for i in 0..n {
        let x = b.rows[i];
        if x.ticket != ticket {
            out.rows[kept] = x;
            kept += 1;
        }
    }
    out.count = kept;
    out.next_ticket = b.next_ticket;
    Removed {
        book: out,
        count: n - kept,
    }
}

// the book with its next ticket issued
pub fn issued(b: Book) -> Book
    requires { b.next_ticket < ticket_limit }
    ensures { (l : List Row) (t : ℕ) → b ≡ book_of l t → result ≡ book_of l (t + 1) }
{
    Book {
        next_ticket: b.next_ticket + 1,
        ..b
    }
}
