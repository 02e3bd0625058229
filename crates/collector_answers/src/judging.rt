//! The lines that a collector is sent.

ghost use Rattle.std.specs.Prelude.{◌≡◌, Some, IfOk};
ghost use Rattle.collector_answers.specs.Judging.{IsAlone, IsJudged, bad_kind};

use crate::answer::{BadAnswer, Digest};
use crate::held::held;
use batch_frames::{BadKind, Frame, FrameError, decode_digested};
use osq_value::NoMemory;
use std::alloc::Global;

/// The most bytes of a frame's line.
pub const FRAME_LIMIT: u64 = 1 << 30;

/// What a line is to a collector.
#[derive(Drop)]
pub enum Judged {
    /// The text of a valid frame.
    Framed {
        /// The frame.
        frame: Frame,
        /// Its digest.
        digest: Digest,
    },
    /// Too long, or no valid frame's text.
    Bad {
        /// What is wrong with it.
        kind: BadAnswer,
    },
}

/// The kind of a line that isn't too long.
fn kind_of(kind: BadKind) -> BadAnswer
    ensures { bad_kind result ≡ Some kind }
{
    match kind {
        BadKind::NotJson => BadAnswer::NotJson,
        BadKind::WrongShape => BadAnswer::WrongShape,
        BadKind::BadDigest => BadAnswer::BadDigest,
        BadKind::NotCanonical => BadAnswer::NotCanonical,
    }
}

/// The frame that a line is, without its line feed, or what is wrong with it: TooLong where it has more than 1073741824 bytes, whatever
/// they are, and else what `decode_frame` says.
pub fn judge(alloc: Global, line: &[u8]) -> Result<Judged, NoMemory>
    ensures judged { IfOk result (IsJudged line.now) }
    ensures alone { IfOk result (IsAlone line.now) }
{
    if line.len() as u64 > FRAME_LIMIT {
        return Ok(Judged::Bad {
            kind: BadAnswer::TooLong,
        });
    }
    match decode_digested(alloc, line) {
        Ok(found) => {
            let digest = found.digest;
            let frame = found.frame;
            held(&frame);
            Ok(Judged::Framed { frame, digest })
        }
        Err(FrameError::BadFrame { kind }) => Ok(Judged::Bad {
            kind: kind_of(kind),
        }),
        Err(FrameError::NoMemory) => Err(NoMemory),
    }
}
