// A wall between two groups of clients.
ghost use Rattle.std.specs.Prelude.{◌≡◌, not};
ghost use Rattle.own_rules.specs.Wall.{inside, apart};
ghost use Rattle.std.proofs.Common.{rules};

use orders::party::Party;
use policy::Policy;

// Clients with numbers below `first_outside` are inside. Inside and outside do not meet.
#[derive(Clone, Copy)]
pub struct Wall {
    pub first_outside: u32,
}

impl Wall {
    fn is_inside(&self, party: &Party) -> bool
        ensures { result ≡ inside self.now.first_outside party.now }
    {
        party.client < self.first_outside
    }
}

impl Policy for Wall {
    ghost allowed = { λ s p q. not (apart s.first_outside p q) };

    ghost symmetric = { Prim.search rules };

    fn allows(&self, p: &Party, q: &Party) -> bool {
        self.is_inside(p) == self.is_inside(q)
    }
}
