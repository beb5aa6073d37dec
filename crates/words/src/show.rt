// One field to a line.
use crate::fields::InWords;
use std::fmt;

// A field and its value.
pub(crate) fn show_field<W: fmt::Write, D: fmt::Display>(
    f: &mut fmt::Formatter<W>,
    name: &str,
    value: &D,
) -> fmt::Result {
    writeln!(f, "    {name:<14} {value}")
}

// A field and its coded value in words.
pub(crate) fn show_words<W: fmt::Write, V: InWords>(
    f: &mut fmt::Formatter<W>,
    name: &str,
    value: V,
) -> fmt::Result {
    show_field(f, name, &value.words())
}

// A field and its coded value, both as the message has it and in words.
pub(crate) fn show_code<W: fmt::Write, D: fmt::Display, V: InWords>(
    f: &mut fmt::Formatter<W>,
    name: &str,
    code: &D,
    value: V,
) -> fmt::Result {
    let words = value.words();
    writeln!(f, "    {name:<14} {code}: {words}")
}
