// What a record has to be for the list: it has a key. Two records have the same one where `==` of the keys says so, and the laws of `Eq` make that an equivalence.
ghost use Rattle.std.specs.Prelude.{◌≡◌};

// A record that is found by its key.
pub trait Keyed: Copy {
    type Key: Copy + Eq;

    ghost key: { Self → Self.Key };

    fn key_of(&self) -> Self::Key
        ensures { result ≡ key self.now };
}
