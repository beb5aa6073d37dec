// The fixed texts of messages: symbols, tokens, names of firms.
use std::fmt;

// A text as people read it: without the spaces at its end, and with each byte that is not printable as \xNN.
#[derive(Clone, Copy)]
pub struct TextWords<'a>(pub &'a [u8]);

// A byte of a text.
#[derive(Clone, Copy)]
struct ByteWords(u8);

// The text without the spaces at its end.
fn trimmed(text: &[u8]) -> &[u8] {
    let mut rest = text;
    while let [front @ .., b' '] = rest {
        rest = front;
    }
    rest
}

impl fmt::Display for ByteWords {
    fn fmt<W: fmt::Write>(&self, f: &mut fmt::Formatter<W>) -> fmt::Result {
        let byte = self.0;
        // a backslash is not shown as it is, so that \xNN is never a text of four characters
        if matches!(byte, b' '..=b'~') && byte != b'\\' {
            let shown = char::from(byte);
            write!(f, "{shown}")
        } else {
            write!(f, "\\x{byte:02x}")
        }
    }
}

impl fmt::Display for TextWords<'_> {
    fn fmt<W: fmt::Write>(&self, f: &mut fmt::Formatter<W>) -> fmt::Result {
        let text = trimmed(self.0);
        if text.is_empty() {
            return write!(f, "(blank)");
        }
        for byte in text {
            let byte = ByteWords(*byte);
            write!(f, "{byte}")?;
        }
        Ok(())
    }
}
