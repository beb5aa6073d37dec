// Why a setting of a policy is refused. That each refusal has a number outside is a rule of the project; inside it is an enum, and `number` says which number where a `From` into `u8` would not.
ghost use Rattle.std.specs.Prelude.{◌≡◌};
ghost use Rattle.policy.specs.Refusals.{refusal_number};

#[derive(Clone, Copy, PartialEq, Eq, Debug)]
pub enum PolicyRefusal {
    // a new ban where 64 are held
    BansFull = 41,
    // a number that is none of the categories 1 to 5
    NoCategory = 42,
}

impl PolicyRefusal {
    // The number by which the refusal is known.
    pub fn number(self) -> u8
        ensures { result ≡ refusal_number self }
    {
        self as u8
    }
}
