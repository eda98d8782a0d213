ghost use Rattle.std.specs.Prelude.{◌≡◌, ◌≤◌, ℕ};

/// How many words of each processor's translation cache a table has.
pub trait Ways {
    ghost ways: { ℕ };

    fn ways() -> usize
        ensures value { result ≡ ways }
        ensures few { result ≤ 16 };
}

/// No translation caches.
pub struct Bare;

impl Ways for Bare {
    ghost ways = { 0 };

    fn ways() -> usize {
        0
    }
}

/// A translation cache of 16 words for each processor.
pub struct Cached;

impl Ways for Cached {
    ghost ways = { 16 };

    fn ways() -> usize {
        16
    }
}
