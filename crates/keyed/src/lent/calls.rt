// The calls of the list. Each says what it answers, which records the list holds after it, and what stays as it was.
// That no key stands twice is promised by the calls and not by the type, since the two writes compare no keys: where no key stood twice before a call, none does after it.
// `stays` and `apart` stand at each call that changes the list: they set it beside what it was before the call, and a ghost field knows one list alone.
ghost use Rattle.std.specs.Prelude.{◌≡◌, ◌≤◌, min, Bool, true, ◌&&◌, [], ◌∷◌, ◌++◌, length, take, remove, is_some, is_ok, MatchBool, if◌then◌else◌, nat_le, nat_lt, position, slice_get, slice_set};
ghost use Rattle.std.specs.Ordering.{on};
ghost use Rattle.keyed.specs.Keys.{NoTwice, KeepsApart, Replaces, Has, Lacks, OnlyAt};
ghost use Rattle.keyed.specs.Lists.{live, places, Stays, PushAnswer};

use super::{List, NoRecord, NotPushed};
use crate::keys::Keyed;

impl<'a, T: Keyed> List<'a, T> {
    // An empty list over the first `most` places of the lent memory, or over all of it where it has fewer.
    pub fn open(cells: &'a mut [T], most: usize) -> Self
        ensures records { live result ≡ [] }
        ensures places { places result ≡ min most (length cells.old) }
        ensures cells { result.cells.now ≡ cells.old }
        ensures lender { result.cells.ghost_name ≡ cells.entry.ghost_name }
    {
        List {
            cells,
            len: 0,
            most,
        }
    }

    // How many records the list holds.
    pub fn len(&self) -> usize
        ensures { result ≡ length (live self.now) }
    {
        self.len
    }

    // How many records it may hold.
    pub fn capacity(&self) -> usize
        ensures { result ≡ places self.now }
    {
        self.most.min(self.cells.len())
    }

    // Whether no place is left.
    pub fn is_full(&self) -> bool
        ensures { result ≡ nat_le (places self.now) (length (live self.now)) }
    {
        self.capacity() <= self.len()
    }

    // The records, oldest first.
    pub fn records(&self) -> &[T]
        ensures { result.now ≡ live self.now }
    {
        &self.cells[..self.len]
    }

    // The first place whose record has the key, which is the only one where no key stands twice.
    #[tactic(auto, using(crate::proofs::Rows::only_place))]
    pub fn find(&self, wanted: &T::Key) -> Option<usize>
        ensures first { result ≡ position (λ x. T.Key.eq (T.key x) wanted.now) (live self.now) }
        ensures only { NoTwice (on T.key T.Key.eq) (live self.now)
            → OnlyAt (λ x. T.Key.eq (T.key x) wanted.now) (live self.now) result }
    {
        self.place_of(wanted)
    }

    // Takes a record in at the end, unless its key is held or no place is left.
    pub fn push(&mut self, item: T) -> Result<(), NotPushed>
        ensures stays { Stays self.old self.new }
        ensures answer { PushAnswer (λ x. T.Key.eq (T.key x) (T.key item)) (live self.old)
            (places self.old) result }
        ensures records { live self.new
            ≡ (if is_ok result then live self.old ++ item ∷ [] else live self.old) }
        ensures apart { KeepsApart (on T.key T.Key.eq) (live self.old) (live self.new) }
    {
        if self.holds(&item) {
            return Err(NotPushed::Held);
        }
        if self.is_full() {
            return Err(NotPushed::Full);
        }
        self.cells[self.len] = item;
        self.len += 1;
        Ok(())
    }

    // Takes out the record at a place and answers it; the later ones move one place down.
    pub fn remove(&mut self, i: usize) -> Option<T>
        ensures stays { Stays self.old self.new }
        ensures answer { result ≡ slice_get (live self.old) i }
        ensures records { live self.new
            ≡ (if is_some result then remove (live self.old) i else live self.old) }
        ensures apart { KeepsApart (on T.key T.Key.eq) (live self.old) (live self.new) }
    {
        let gone = *self.records().get(i)?;
        self.cells.copy_within(i + 1..self.len, i);
        self.len -= 1;
        Some(gone)
    }

    // Writes a record over the one at a place; where there is none it writes nothing. It compares no keys.
    pub fn write_at(&mut self, i: usize, item: T) -> Result<(), NoRecord>
        ensures stays { Stays self.old self.new }
        ensures answer { is_ok result ≡ nat_lt i (length (live self.old)) }
        ensures records { live self.new ≡ slice_set (live self.old) i item }
        ensures apart { Replaces (on T.key T.Key.eq) (live self.old) i item
            → KeepsApart (on T.key T.Key.eq) (live self.old) (live self.new) }
    {
        if i >= self.len {
            return Err(NoRecord);
        }
        self.cells[i] = item;
        Ok(())
    }

    // Writes `a` over the record at place `i` and then `b` over the one at place `j`; where one is missing it writes neither.
    pub fn write_two(&mut self, i: usize, a: T, j: usize, b: T) -> Result<(), NoRecord>
        ensures stays { Stays self.old self.new }
        ensures answer { is_ok result
            ≡ (nat_lt i (length (live self.old)) && nat_lt j (length (live self.old))) }
        ensures records { live self.new
            ≡ (if is_ok result then slice_set (slice_set (live self.old) i a) j b else live self.old) }
        ensures apart { Replaces (on T.key T.Key.eq) (live self.old) i a
            → Replaces (on T.key T.Key.eq) (live self.old) j b
            → KeepsApart (on T.key T.Key.eq) (live self.old) (live self.new) }
    {
        if i >= self.len || j >= self.len {
            return Err(NoRecord);
        }
        self.cells[i] = a;
        self.cells[j] = b;
        Ok(())
    }

    // The first place whose record has the key.
    fn place_of(&self, wanted: &T::Key) -> Option<usize>
        ensures { result ≡ position (λ x. T.Key.eq (T.key x) wanted.now) (live self.now) }
    {
        self.records().iter().position(|r| r.key_of() == *wanted)
    }

    // Whether some record has the key of this one.
    fn holds(&self, item: &T) -> bool
        ensures { MatchBool result (Has (λ x. T.Key.eq (T.key x) (T.key item.now)) (live self.now))
            (Lacks (λ x. T.Key.eq (T.key x) (T.key item.now)) (live self.now)) }
    {
        let wanted = item.key_of();
        self.records().iter().any(|r| r.key_of() == wanted)
    }
}
