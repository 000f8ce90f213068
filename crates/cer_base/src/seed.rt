//! What hashes begin with.

use std::hash::{BuildHasher, DefaultHasher, Hasher};

/// What the hashes of a table begin with: two numbers, taken in once. Whoever does not know them
/// cannot choose keys whose hashes meet. No answer depends on them: they decide how fast a table is,
/// and nothing else.
#[derive(Clone, Copy, Drop)]
pub struct Seed {
    hasher: DefaultHasher,
}

impl Seed {
    /// The seed of two numbers.
    pub fn of(first: u64, second: u64) -> Seed {
        let mut hasher = DefaultHasher::new();
        hasher.write_u64(first);
        hasher.write_u64(second);
        Seed { hasher }
    }
}

impl Default for Seed {
    /// That of two zeros, which everybody knows.
    fn default() -> Seed {
        Seed::of(0, 0)
    }
}

impl BuildHasher for Seed {
    type Hasher = DefaultHasher;

    ghost build_hasher = { λ s. s.hasher };

    #[inline]
    fn build_hasher(&self) -> DefaultHasher {
        self.hasher
    }
}
