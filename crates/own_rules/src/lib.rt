// A broker's own policy and ranking, as examples of how one is added: nothing else in the repository knows of them.
#![tactic(auto)]

pub mod first_come;
#[cfg(test)]
mod tests;
pub mod wall;
