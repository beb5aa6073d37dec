// Hand-made cases for the reader and the writers of UBP messages: every expected byte and offset is written out from the formats. The crate has nothing but tests.
#![tactic(auto)]

#[cfg(test)]
mod answer_bytes;
#[cfg(test)]
mod answers;
#[cfg(test)]
mod any_values;
#[cfg(test)]
mod buffers;
#[cfg(test)]
mod codes;
#[cfg(test)]
mod commands;
#[cfg(test)]
mod frames;
#[cfg(test)]
mod lengths;
#[cfg(test)]
mod restoring;
#[cfg(test)]
mod wrong_fields;
