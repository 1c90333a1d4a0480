//! The book of the authenticator: what was accepted, what workers read, and the state, which go together; and
//! the book under a lock.
#![tactic(auto)]

pub mod book;
pub mod open_book;
pub mod switch;

pub use auth_journal::JournalErr;
pub use book::{Answer, Book, BookErr};
pub use book_lock::{BookLock, Booked, LaneSeat};
pub use open_book::{Fixed, OpenBook};
pub use switch::{Lane, Switch};
