//! A key that is drawn from all values of a set.

ghost use Rattle.std.specs.Prelude.{◌≡◌, ◌++◌, ℕ, List, []};
ghost use Rattle.sha2.specs.Sha256.{sha256};
ghost use Rattle.set_keys.specs.Hashing.{IsDrawn, drawn, spelled};

use crate::hasher::SetKey;
use osq_value::Value;
use sha2::{Digest, Sha256};

/// The digest of values, one after another. Whoever writes the values can compute the key that is drawn from it, and can't choose it: each value that is
/// changed gives another key, so values that share a hash under a key aren't found but by trying.
#[derive(Drop)]
pub struct KeyDigest {
    state: Sha256,
}

impl KeyDigest {
    /// No value was taken yet.
    pub fn new() -> KeyDigest
        ensures { ⟦<Sha256 as Digest>⟧.holds result.state [] }
    {
        KeyDigest {
            state: Sha256::new(),
        }
    }

    /// Takes a value: its kind, and behind it a number in 8 bytes, the lowest first, or the length of a text and its bytes.
    pub fn take(&mut self, value: &Value)
        ensures { (taken : List ℕ) → ⟦<Sha256 as Digest>⟧.holds self.old.state taken → ⟦<Sha256 as Digest>⟧.holds self.new.state (taken ++ spelled value.now) }
    {
        match value {
            Value::Null => self.state.update(b"n"),
            Value::Int(number) => {
                self.state.update(b"i");
                self.state.update(&number.to_le_bytes());
            }
            Value::Text(text) => {
                let bytes = text.as_str().as_bytes();
                self.state.update(b"t");
                self.state.update(&(bytes.len() as u64).to_le_bytes());
                self.state.update(bytes);
            }
        }
    }

    /// The key that is drawn from the values that were taken.
    pub fn into_key(self) -> SetKey
        ensures key { (taken : List ℕ) → ⟦<Sha256 as Digest>⟧.holds self.state taken → result ≡ drawn (sha256 taken) }
        ensures drawn { IsDrawn result }
    {
        SetKey::drawn(&self.state.finalize())
    }
}
