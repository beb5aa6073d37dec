// What a reader or a writer refuses. That each refusal has a number outside is a rule of the project; inside it is an enum, and `number` says which number where a `From` into `u32` would not.
ghost use Rattle.std.specs.Prelude.{◌≡◌};
ghost use Rattle.ubp.specs.declared.refusal.Refusal.TheVariants.{Reading, Writing};
ghost use Rattle.ubp.specs.Numbers.{read_number, write_number, refusal_number};

#[derive(Clone, Copy, PartialEq, Eq, Debug)]
pub enum ReadRefusal {
    // the frame is empty, or has not the length of its command
    WrongLength,
    // the first byte names no command
    UnknownType,
    // a field holds what it may not: the offset of the lowest such field
    BadField(usize),
}

#[derive(Clone, Copy, PartialEq, Eq, Debug)]
pub enum WriteRefusal {
    // the buffer is shorter than the message
    ShortBuffer,
}

// What refuses a frame that is to be read and written again.
#[derive(Clone, Copy, PartialEq, Eq, Debug)]
pub enum Refusal {
    Reading(ReadRefusal),
    Writing(WriteRefusal),
}

impl From<ReadRefusal> for Refusal {
    ghost from_gives = { λ refused result. result ≡ Reading refused };

    fn from(refused: ReadRefusal) -> Refusal {
        Refusal::Reading(refused)
    }
}

impl From<WriteRefusal> for Refusal {
    ghost from_gives = { λ refused result. result ≡ Writing refused };

    fn from(refused: WriteRefusal) -> Refusal {
        Refusal::Writing(refused)
    }
}

impl ReadRefusal {
    pub fn number(self) -> u32
        ensures { result ≡ read_number self }
    {
        match self {
            ReadRefusal::WrongLength => 11,
            ReadRefusal::UnknownType => 12,
            ReadRefusal::BadField(_) => 13,
        }
    }
}

impl WriteRefusal {
    pub fn number(self) -> u32
        ensures { result ≡ write_number self }
    {
        match self {
            WriteRefusal::ShortBuffer => 31,
        }
    }
}

impl Refusal {
    pub fn number(self) -> u32
        ensures { result ≡ refusal_number self }
    {
        match self {
            Refusal::Reading(refusal) => refusal.number(),
            Refusal::Writing(refusal) => refusal.number(),
        }
    }
}
