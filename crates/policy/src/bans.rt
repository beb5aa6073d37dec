// Bans: pairs of clients that may not meet.
ghost use Rattle.std.specs.Prelude.{◌≡◌, ◌≤◌, length};

mod calls;

// Two clients, in either order; a client may be paired with itself.
#[derive(Clone, Copy)]
pub struct ClientPair {
    pub one: u32,
    pub other: u32,
}

// The first `count` pairs are held, oldest first, each once.
// A count stands beside the memory: policies use no heap and bans are `Copy`, which the kit's vector of fixed capacity (`ArrayVec`) is not.
#[derive(Clone, Copy)]
pub struct Bans {
    pairs: [ClientPair; 64],
    count: usize,
    ghost few: { count ≤ 64 },
    ghost room: { length pairs ≡ 64 },
}
