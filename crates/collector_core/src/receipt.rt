//! What a collector answers to a frame.

ghost use Rattle.std.specs.Prelude.{◌≡◌, ◌≤◌};
ghost use Rattle.collector_core.specs.Receipts.{receipt_of};

/// A digest of a frame.
pub type Digest = [u8; 32];

/// What became of a valid frame.
#[derive(Clone, Copy)]
pub enum Receipt {
    /// Its number is the next one of its host, and it is recorded now.
    Recorded,
    /// It was recorded before.
    Repeat,
    /// Frames of its host that stand before it aren't recorded yet.
    Gap {
        /// How many frames of its host are recorded.
        recorded: u64,
    },
    /// Another frame of its host was recorded with its number.
    Conflict {
        /// The number.
        number: u64,
        /// The digest of the frame that is recorded.
        kept: Digest,
        /// The digest of the frame that came.
        found: Digest,
    },
}

/// What becomes of a frame with this number and digest, where these digests of its host are kept, those of the frames from 1 on.
pub(crate) fn receipt_of(kept: &[Digest], number: u64, found: Digest) -> Receipt
    requires { 1 ≤ number }
    ensures { result ≡ receipt_of kept.now number found }
{
    let recorded = kept.len() as u64;
    if number - 1 == recorded {
        return Receipt::Recorded;
    }
    if number > recorded {
        return Receipt::Gap { recorded };
    }
    let digest = kept[(number - 1) as usize];
    if digest == found {
        Receipt::Repeat
    } else {
        Receipt::Conflict {
            number,
            kept: digest,
            found,
        }
    }
}
