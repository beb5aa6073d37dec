// Hand-made cases for the policies. The crate has nothing but tests.
#![tactic(auto)]

#[cfg(test)]
mod bans;
#[cfg(test)]
mod grid;
#[cfg(test)]
mod layers;
#[cfg(test)]
mod parties;
#[cfg(test)]
mod styles;
