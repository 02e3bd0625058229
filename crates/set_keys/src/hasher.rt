//! A hasher without a key, which is fast, and one with a key.

ghost use Rattle.std.specs.Prelude.{◌≡◌};
ghost use Rattle.set_keys.specs.Hashing.{drawn, plain};

use std::hash::{BuildHasher, DefaultHasher, FoldHasher, Hasher};

/// What a value is fed to.
#[derive(Clone, Copy, Drop)]
pub enum SetHasher {
    /// The kit's fast hash, which has no key: values of one hash are easily found.
    Fast { state: FoldHasher },
    /// SipHash-1-3, behind a key.
    Keyed { state: DefaultHasher },
}

impl Hasher for SetHasher {
    ghost use Rattle.set_keys.specs.Hashing.{finish, write};

    ghost write = { write };

    ghost finish = { finish };

    fn finish(&self) -> u64 {
        match self {
            SetHasher::Fast { state } => state.finish(),
            SetHasher::Keyed { state } => state.finish(),
        }
    }

    fn write(&mut self, bytes: &[u8]) {
        match self {
            SetHasher::Fast { state } => state.write(bytes),
            SetHasher::Keyed { state } => state.write(bytes),
        }
    }
}

/// So many values may be hashed without a key: should all of them have one hash, looking one up walks over no more than these.
pub const FEW: usize = 1024;

/// By what a set hashes its values. Which it is changes how long a set takes, and no answer.
#[derive(Clone, Copy, Drop)]
pub struct SetKey {
    initial: SetHasher,
}

impl SetKey {
    /// For sets of no more than `FEW` values: without a key, which is fast.
    pub fn plain() -> SetKey
        ensures { result ≡ plain }
    {
        SetKey {
            initial: SetHasher::Fast {
                state: FoldHasher::default(),
            },
        }
    }

    /// The key that is drawn from this digest.
    pub(crate) fn drawn(digest: &[u8]) -> SetKey
        ensures { result ≡ drawn digest.now }
    {
        let mut state = DefaultHasher::new();
        state.write(digest);
        SetKey {
            initial: SetHasher::Keyed { state },
        }
    }
}

impl BuildHasher for SetKey {
    type Hasher = SetHasher;

    ghost build_hasher = { λ key. key.initial };

    fn build_hasher(&self) -> SetHasher {
        self.initial
    }
}
