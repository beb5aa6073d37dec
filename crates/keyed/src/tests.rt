// Examples with a record type of the tests' own: lockers, found by their number.
use crate::keys::Keyed;
use crate::lent::{List, NoRecord, NotPushed};

#[derive(Clone, Copy, Debug, PartialEq, Eq)]
struct Locker {
    number: u16,
    owner: u32,
}

impl Keyed for Locker {
    type Key = u16;

    ghost key = { λ x. x.number };

    fn key_of(&self) -> u16 {
        self.number
    }
}

fn owned(number: u16, owner: u32) -> Locker {
    Locker { number, owner }
}

#[test]
fn fill_and_refuse(rt: HostRuntime) {
    let mut cells = [owned(0, 0); 3];
    let mut lockers = List::open(&mut cells, 3);
    assert!(rt; lockers.push(owned(7, 1)).is_ok());
    assert!(rt; lockers.push(owned(8, 1)).is_ok());
    assert_eq!(rt; lockers.push(owned(7, 2)), Err(NotPushed::Held));
    assert!(rt; !lockers.is_full() && lockers.len() == 2);
    assert!(rt; lockers.push(owned(9, 3)).is_ok());
    assert!(rt; lockers.is_full() && lockers.len() == 3);
    assert_eq!(rt; lockers.push(owned(6, 4)), Err(NotPushed::Full));
    // held is told before full
    assert_eq!(rt; lockers.push(owned(9, 4)), Err(NotPushed::Held));
    assert_eq!(rt;
        lockers.records(),
        [owned(7, 1), owned(8, 1), owned(9, 3)].as_slice()
    );
    assert_eq!(rt; lockers.find(&7), Some(0));
    assert_eq!(rt; lockers.find(&9), Some(2));
    assert_eq!(rt; lockers.find(&6), None);
}

#[test]
fn remove_and_close_the_gap(rt: HostRuntime) {
    let mut cells = [owned(0, 0); 5];
    let mut lockers = List::open(&mut cells, 5);
    for number in 1..6 {
        assert!(rt; lockers.push(owned(number, 10)).is_ok());
    }
    assert_eq!(rt; lockers.remove(5), None);
    assert_eq!(rt; lockers.remove(0), Some(owned(1, 10)));
    assert!(rt; lockers.find(&2) == Some(0) && lockers.find(&1).is_none());
    assert_eq!(rt;
        lockers.records(),
        [owned(2, 10), owned(3, 10), owned(4, 10), owned(5, 10)].as_slice()
    );
    assert_eq!(rt; lockers.remove(1), Some(owned(3, 10)));
    assert!(rt; lockers.find(&4) == Some(1) && lockers.find(&3).is_none());
    assert_eq!(rt;
        lockers.records(),
        [owned(2, 10), owned(4, 10), owned(5, 10)].as_slice()
    );
    assert_eq!(rt; lockers.remove(2), Some(owned(5, 10)));
    assert!(rt; lockers.find(&4) == Some(1) && lockers.find(&5).is_none());
    assert_eq!(rt; lockers.records(), [owned(2, 10), owned(4, 10)].as_slice());
    // a key that went may come again, at the end
    assert!(rt; lockers.push(owned(1, 11)).is_ok());
    assert_eq!(rt;
        lockers.records(),
        [owned(2, 10), owned(4, 10), owned(1, 11)].as_slice()
    );
}

#[test]
fn write_in_place(rt: HostRuntime) {
    let mut cells = [owned(0, 0); 4];
    let mut lockers = List::open(&mut cells, 4);
    for number in 1..4 {
        assert!(rt; lockers.push(owned(number, 10)).is_ok());
    }
    assert!(rt; lockers.write_at(1, owned(2, 20)).is_ok());
    assert_eq!(rt; lockers.write_at(3, owned(4, 20)), Err(NoRecord));
    assert_eq!(rt;
        lockers.records(),
        [owned(1, 10), owned(2, 20), owned(3, 10)].as_slice()
    );
    assert!(rt; lockers.write_two(2, owned(3, 31), 0, owned(1, 30)).is_ok());
    assert_eq!(rt;
        lockers.records(),
        [owned(1, 30), owned(2, 20), owned(3, 31)].as_slice()
    );
    assert_eq!(rt;
        lockers.write_two(0, owned(1, 40), 3, owned(4, 40)),
        Err(NoRecord)
    );
    assert_eq!(rt;
        lockers.write_two(3, owned(4, 40), 0, owned(1, 40)),
        Err(NoRecord)
    );
    assert_eq!(rt;
        lockers.records(),
        [owned(1, 30), owned(2, 20), owned(3, 31)].as_slice()
    );
    // the second record stays where both go to one place
    assert!(rt; lockers.write_two(1, owned(2, 50), 1, owned(2, 51)).is_ok());
    assert_eq!(rt;
        lockers.records(),
        [owned(1, 30), owned(2, 51), owned(3, 31)].as_slice()
    );
}

#[test]
fn one_place_and_none(rt: HostRuntime) {
    let mut cells = [owned(0, 0); 1];
    let mut one = List::open(&mut cells, 9);
    assert!(rt; one.capacity() == 1 && one.len() == 0 && one.find(&0).is_none());
    assert!(rt; one.push(owned(1, 10)).is_ok());
    assert_eq!(rt; one.push(owned(2, 10)), Err(NotPushed::Full));
    assert_eq!(rt; one.remove(0), Some(owned(1, 10)));
    assert!(rt; one.len() == 0 && !one.is_full());
    assert_eq!(rt; one.write_at(0, owned(1, 10)), Err(NoRecord));
    let mut empty: [Locker; 0] = [];
    let mut none = List::open(&mut empty, 9);
    assert!(rt; none.is_full() && none.capacity() == 0 && none.records().is_empty());
    assert_eq!(rt; none.push(owned(1, 10)), Err(NotPushed::Full));
    assert!(rt; none.find(&1).is_none() && none.remove(0).is_none());
}

#[test]
fn memory_past_the_end(rt: HostRuntime) {
    let mut cells = [owned(5, 50), owned(6, 60), owned(7, 70), owned(8, 80)];
    let mut lockers = List::open(&mut cells, 2);
    assert!(rt; lockers.capacity() == 2 && lockers.find(&5).is_none());
    assert!(rt; lockers.push(owned(1, 10)).is_ok() && lockers.push(owned(2, 20)).is_ok());
    assert_eq!(rt; lockers.push(owned(3, 30)), Err(NotPushed::Full));
    assert_eq!(rt; lockers.remove(0), Some(owned(1, 10)));
    // the cell that the last record left keeps it, and those past `most` were never written
    assert_eq!(rt;
        cells,
        [owned(2, 20), owned(2, 20), owned(7, 70), owned(8, 80)]
    );
}
