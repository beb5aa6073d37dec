// What lies in the book: resting orders and quotes, each with the key that a list finds it by.
#![tactic(auto)]

pub mod party;
pub mod quote;
pub mod resident;
#[cfg(test)]
mod tests;
