// Bans: both orders of a pair, a client with itself, 64 and no more.
use crate::parties::{both_ways, open_party};
use orders::party::Category;
use policy::bans::Bans;
use policy::refusal::PolicyRefusal;

// Whether the two clients meet, if `is_banned` and the policy say the same of them both ways.
fn clients_meet(bans: &Bans, one: u32, other: u32) -> Option<bool> {
    both_ways(
        bans,
        &open_party(one, Category::One),
        &open_party(other, Category::Five),
    )
    .filter(|meet| bans.is_banned(one, other) != *meet && bans.is_banned(other, one) != *meet)
}

#[test]
fn just_the_banned_pair_is_apart(rt: HostRuntime) {
    let mut bans = Bans::new();
    for (one, other) in [(1, 2), (0, 0)] {
        assert_eq!(rt; clients_meet(&bans, one, other), Some(true));
    }
    assert_eq!(rt; bans.ban(1, 2), Ok(()));
    assert_eq!(rt; bans.ban(5, 5), Ok(()));
    for (one, other) in [(1, 2), (5, 5)] {
        assert_eq!(rt; clients_meet(&bans, one, other), Some(false));
    }
    for (one, other) in [(1, 1), (2, 2), (1, 3), (2, 5), (0, 0)] {
        assert_eq!(rt; clients_meet(&bans, one, other), Some(true));
    }
}

// 64 pairs, each new.
fn full() -> Bans {
    let mut bans = Bans::new();
    for client in 0..64 {
        let _ = bans.ban(client, client + 1000);
    }
    bans
}

#[test]
fn the_65th_new_pair_is_refused(rt: HostRuntime) {
    let mut bans = full();
    assert_eq!(rt; bans.ban(7, 8), Err(PolicyRefusal::BansFull));
    assert_eq!(rt; PolicyRefusal::BansFull.number(), 41);
    assert_eq!(rt; clients_meet(&bans, 7, 8), Some(true));
    for client in 0..64 {
        assert_eq!(rt; clients_meet(&bans, client, client + 1000), Some(false));
        assert_eq!(rt; bans.ban(client + 1000, client), Ok(()), "held already");
    }
    assert_eq!(rt; bans.ban(8, 7), Err(PolicyRefusal::BansFull));
}

#[test]
fn a_held_pair_takes_no_second_place(rt: HostRuntime) {
    let mut bans = Bans::new();
    for _ in 0..100 {
        assert_eq!(rt; bans.ban(1, 2), Ok(()));
        assert_eq!(rt; bans.ban(2, 1), Ok(()));
    }
    for client in 0..63 {
        assert_eq!(rt; bans.ban(client, client + 1000), Ok(()));
    }
    assert_eq!(rt; bans.ban(63, 1063), Err(PolicyRefusal::BansFull));
}
