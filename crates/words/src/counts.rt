// How many frames there were, and what became of them.
ghost use Rattle.std.specs.Prelude.{◌≡◌, ◌≢◌, Some};
ghost use Rattle.words.specs.Counts.{one_more, count_of, answer_number, told};

use orders::command::Command;
use std::fmt;
use ubp::refusal::ReadRefusal;

#[derive(Clone, Copy, Default)]
pub struct Counts {
    pub frames: u64,
    pub read: u64,
    pub wrong_length: u64,
    pub unknown_type: u64,
    pub bad_field: u64,
    pub faulty_lines: u64,
}

// One more, unless there are as many as can be counted.
fn count(so_far: &mut u64)
    ensures { so_far.new ≡ one_more so_far.old }
{
    *so_far = so_far.saturating_add(1);
}

impl Counts {
    // Counts a frame by what the reader answered of it.
    pub fn note(&mut self, answer: &Result<Command, ReadRefusal>)
        ensures frames { self.new.frames ≡ one_more self.old.frames }
        ensures answer { count_of answer.now self.new ≡ one_more (count_of answer.now self.old) }
        ensures others { (other : _) → answer_number other ≢ answer_number answer.now → count_of other self.new ≡ count_of other self.old }
        ensures lines { self.new.faulty_lines ≡ self.old.faulty_lines }
    {
        count(&mut self.frames);
        match answer {
            Ok(_) => count(&mut self.read),
            Err(ReadRefusal::WrongLength) => count(&mut self.wrong_length),
            Err(ReadRefusal::UnknownType) => count(&mut self.unknown_type),
            Err(ReadRefusal::BadField(_)) => count(&mut self.bad_field),
        }
    }

    // Counts a line that is wrong.
    pub fn note_fault(&mut self)
        ensures { self.new ≡ record self.old { faulty_lines = one_more self.old.faulty_lines } }
    {
        count(&mut self.faulty_lines);
    }
}

impl fmt::Display for Counts {
    ghost output = { λ counts. Some (told counts) };

    fn fmt<W: fmt::Write>(&self, f: &mut fmt::Formatter<W>) -> fmt::Result {
        let Counts {
            frames,
            read,
            wrong_length,
            unknown_type,
            bad_field,
            faulty_lines,
        } = *self;
        writeln!(f, "Frames          {frames}")?;
        writeln!(f, "  read          {read}")?;
        writeln!(f, "  refused 11    {wrong_length}")?;
        writeln!(f, "  refused 12    {unknown_type}")?;
        writeln!(f, "  refused 13    {bad_field}")?;
        writeln!(f, "Lines in error  {faulty_lines}")
    }
}
