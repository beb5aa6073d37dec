// Cutting a text into lines, and a line into words.
ghost use Rattle.std.specs.Prelude.{◌≡◌};
ghost use Rattle.session.specs.Scan.{blank, solid, content, front_length, line_length, before_comment, word_of, rest_of};

// Whether a byte parts words: a space, a tab, a carriage return.
fn is_blank(byte: u8) -> bool
    ensures { result ≡ blank byte }
{
    matches!(byte, b' ' | b'\t' | b'\r')
}

// Four counts of the bytes at the front, each with its test where it is used: one function over any test (tried) needs a clause on what the test answers, a bound, and answers in three functions.
// How many blanks are at the front.
fn blank_length(text: &[u8]) -> usize
    ensures { result ≡ front_length blank text.now }
{
    text.iter().take_while(|byte| is_blank(**byte)).count()
}

// How many bytes stand before the first blank.
fn solid_length(text: &[u8]) -> usize
    ensures { result ≡ front_length solid text.now }
{
    text.iter().take_while(|byte| !is_blank(**byte)).count()
}

// How many bytes stand before a comment.
fn content_length(line: &[u8]) -> usize
    ensures { result ≡ front_length content line.now }
{
    line.iter().take_while(|byte| **byte != b'#').count()
}

// How many bytes the first line has, without its line feed.
pub(crate) fn line_length(text: &[u8]) -> usize
    ensures { result ≡ line_length text.now }
{
    text.iter().take_while(|byte| **byte != b'\n').count()
}

// The line without its comment.
pub(crate) fn before_comment(line: &[u8]) -> &[u8]
    ensures { result.now ≡ before_comment line.now }
{
    &line[..content_length(line)]
}

// The first word, which is empty where there is none, and what follows it.
#[tactic(auto, unfolding(crate::specs::Scan::word_of, crate::specs::Scan::rest_of))]
pub(crate) fn next_word(text: &[u8]) -> (&[u8], &[u8])
    ensures word { result.0.now ≡ word_of text.now }
    ensures rest { result.1.now ≡ rest_of text.now }
{
    let (_, solid) = text.split_at(blank_length(text));
    solid.split_at(solid_length(solid))
}
