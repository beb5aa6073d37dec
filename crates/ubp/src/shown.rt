// An order's terms as an answer shows them.
ghost use Rattle.std.specs.Prelude.{◌≡◌};
ghost use Rattle.ubp.specs.Answers.{shown};

use orders::fields::{Firm, Stock, Terms};

// The terms by their bytes and numbers: a slip without terms shows spaces and zeros.
#[derive(Clone, Copy)]
pub(crate) struct ShownTerms {
    pub side: u8,
    pub stock: Stock,
    pub time: u32,
    pub firm: Firm,
    pub capacity: u8,
    pub minimum: u32,
    pub style: u8,
    pub peg: u8,
    pub grade: u8,
    pub lots: u8,
}

impl From<&Option<Terms>> for ShownTerms {
    ghost from_gives = { λ terms result. result ≡ shown terms.now };

    fn from(terms: &Option<Terms>) -> ShownTerms {
        match terms {
            None => ShownTerms {
                side: b' ',
                stock: [b' '; 6],
                time: 0,
                firm: [b' '; 4],
                capacity: b' ',
                minimum: 0,
                style: b' ',
                peg: b' ',
                grade: 0,
                lots: b' ',
            },
            Some(t) => ShownTerms {
                side: u8::from(t.side),
                stock: t.stock,
                time: u32::from(t.time),
                firm: t.firm,
                capacity: u8::from(t.capacity),
                minimum: t.minimum,
                style: u8::from(t.style),
                peg: u8::from(t.peg),
                grade: u8::from(t.grade),
                lots: u8::from(t.lots),
            },
        }
    }
}
