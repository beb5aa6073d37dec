// Commands, answers, parties, refusals and counts in words, for people, and the lines by which engines are compared.
#![tactic(auto)]

pub mod command;
pub mod counts;
pub mod examples;
mod fields;
pub mod frame;
pub mod lines;
pub mod party;
pub mod price;
pub mod refusal;
pub mod setting;
mod show;
pub mod slip;
mod terms;
#[cfg(test)]
mod tests;
pub mod text;
