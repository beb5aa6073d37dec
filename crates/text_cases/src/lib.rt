// Hand-made cases for the lines of a session and for the lines to compare by. The crate has nothing but tests: a crate that has its own is proved twice.
#![tactic(auto)]

#[cfg(test)]
mod digits;
#[cfg(test)]
mod lines_of_a_book;
#[cfg(test)]
mod lines_of_a_text;
#[cfg(test)]
mod lines_of_frames;
#[cfg(test)]
mod lines_to_compare;
