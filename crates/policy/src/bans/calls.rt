// What may be asked and said of bans.
ghost use Rattle.std.specs.Prelude.{◌≡◌, Bool, false, not, [], is_ok};
ghost use Rattle.std.proofs.Common.{ap};
ghost use Rattle.policy.specs.Bans.{pairs_up, held, blank, PastKept, banned, bans_allow, ban_answer, after_ban, NowBanned, added, add_answer};
ghost use Rattle.policy.specs.Turned.{banned_turned};

use super::{Bans, ClientPair};
use crate::Policy;
use crate::refusal::PolicyRefusal;
use orders::party::Party;

impl ClientPair {
    // Whether these two clients are the pair.
    fn is_of(&self, one: u32, other: u32) -> bool
        ensures { result ≡ pairs_up self.now one other }
    {
        let pair = (self.one, self.other);
        pair == (one, other) || pair == (other, one)
    }
}

impl Bans {
    // No pair is held.
    pub fn new() -> Bans
        ensures pairs { held result ≡ [] }
        ensures memory { result.pairs ≡ blank }
    {
        Bans {
            pairs: [ClientPair { one: 0, other: 0 }; 64],
            count: 0,
        }
    }

    // Whether the two clients are banned from meeting.
    pub fn is_banned(&self, one: u32, other: u32) -> bool
        ensures { result ≡ banned (held self.now) one other }
    {
        self.pairs[..self.count]
            .iter()
            .any(|pair| pair.is_of(one, other))
    }

    // Holds one pair more, or refuses where there is no place and changes nothing.
    fn add(&mut self, pair: ClientPair) -> Result<(), PolicyRefusal>
        ensures pairs { held self.new ≡ added (held self.old) pair }
        ensures answer { result ≡ add_answer (held self.old) }
        ensures past { PastKept self.old self.new }
        ensures refused { is_ok result ≡ false → self.new ≡ self.old }
    {
        if self.count == self.pairs.len() {
            return Err(PolicyRefusal::BansFull);
        }
        self.pairs[self.count] = pair;
        self.count += 1;
        Ok(())
    }

    // Bans two clients from meeting. A pair that is held stays held once; a new one where 64 are held is refused, and nothing changes.
    #[tactic(auto, using(crate::proofs::Banned::added_bans))]
    pub fn ban(&mut self, one: u32, other: u32) -> Result<(), PolicyRefusal>
        ensures pairs { held self.new ≡ after_ban (held self.old) one other }
        ensures answer { result ≡ ban_answer (held self.old) one other }
        ensures past { PastKept self.old self.new }
        ensures means { NowBanned (held self.old) one other (is_ok result) (held self.new) }
        ensures refused { is_ok result ≡ false → self.new ≡ self.old }
    {
        if self.is_banned(one, other) {
            return Ok(());
        }
        self.add(ClientPair { one, other })
    }
}

impl Policy for Bans {
    ghost allowed = { bans_allow };

    ghost symmetric = { λ s p q. ap not (banned_turned (held s) p.client q.client) };

    fn allows(&self, p: &Party, q: &Party) -> bool {
        !self.is_banned(p.client, q.client)
    }
}
