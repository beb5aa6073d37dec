// One list of records under keys, for all that a book keeps. It knows nothing of orders: a record type says by an impl of `Keyed` what its key is.
#![tactic(auto)]

pub mod keys;
pub mod lent;
#[cfg(test)]
mod tests;
