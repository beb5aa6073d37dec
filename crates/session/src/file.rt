// The lines of a session file.
ghost use Rattle.std.specs.Prelude.{◌≡◌, ◌<◌, ℕ, List, length};
ghost use Rattle.std.specs.Iterator.{YieldsFirstRef, item_count};
ghost use Rattle.session.specs.Scan.{first_line, after_line, lines_of};

use crate::scan::line_length;
use std::marker::Model;

// The first line, without its line feed, and what follows it: less than there was, unless there was nothing.
pub fn cut_line(text: &[u8]) -> (&[u8], &[u8])
    ensures line { result.0.now ≡ first_line text.now }
    ensures rest { result.1.now ≡ after_line text.now }
    ensures shorter { 0 < length text.now → length result.1.now < length text.now }
{
    match text.split_at(line_length(text)) {
        (line, [_feed, after @ ..]) => (line, after),
        (line, []) => (line, &[]),
    }
}

// The lines of a text, each without its line feed.
#[derive(Drop)]
pub struct Lines<'a> {
    rest: &'a [u8],
}

// Clauses see the lines that are still to come.
impl<'a> Model for Lines<'a> {
    ghost Value = { List (List ℕ) };

    ghost view = { λ lines. lines_of lines.rest.now };
}

impl<'a> Lines<'a> {
    pub fn of(text: &'a [u8]) -> Lines<'a>
        ensures { result ≡ lines_of text.now }
    {
        Lines { rest: text }
    }
}

impl<'a> Iterator for Lines<'a> {
    type Item = &'a [u8];

    ghost next_gives = { YieldsFirstRef (λ lines. lines) };

    ghost remaining = { item_count (λ lines. lines) };

    #[tactic(auto, using(crate::proofs::Cutting::first_cut))]
    fn next(&mut self) -> Option<&'a [u8]> {
        if self.rest.is_empty() {
            return None;
        }
        let (line, after) = cut_line(self.rest);
        self.rest = after;
        Some(line)
    }
}
