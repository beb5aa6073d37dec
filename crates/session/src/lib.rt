// The text of a session file: what each of its lines says.
#![tactic(auto)]

pub mod book;
pub mod book_item;
pub mod error;
pub mod fault;
pub mod file;
pub mod hex;
pub mod line;
mod number;
mod scan;
mod words;
