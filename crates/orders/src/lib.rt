// The subject's words as types: coded fields, parties, commands, slips. No logic beyond the byte that stands for a value.
#![tactic(auto)]

pub mod codes;
pub mod command;
pub mod enter;
pub mod fields;
pub mod party;
pub mod slip;
