// UBP messages: the reader of commands, the writer of commands and the writer of slips.
#![tactic(auto)]

mod fields;
mod message;
mod put;
pub mod read;
mod read_cancel;
mod read_enter;
mod read_replace;
pub mod refusal;
pub mod restore;
mod shown;
pub mod write;
pub mod write_slip;
