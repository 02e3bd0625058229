//! Answers.

ghost use Rattle.std.specs.Prelude.{◌≡◌};
ghost use Rattle.collector_answers.specs.Lines.{kind_name};

use osq_value::Str;

/// A digest of a frame.
pub type Digest = [u8; 32];

/// What is wrong with a line that is no frame, by the first of these that holds.
#[derive(Clone, Copy)]
pub enum BadAnswer {
    /// It has more bytes than a frame's line may have.
    TooLong,
    /// It is no JSON value.
    NotJson,
    /// The value isn't an object with exactly the keys of a frame and values of their kinds, or the frame isn't valid.
    WrongShape,
    /// The digest isn't that of the frame.
    BadDigest,
    /// The frame's text is another.
    NotCanonical,
}

impl BadAnswer {
    /// The name in an answer.
    pub fn name(self) -> &'static str
        ensures { result.now ≡ kind_name self }
    {
        match self {
            BadAnswer::TooLong => "TooLong",
            BadAnswer::NotJson => "NotJson",
            BadAnswer::WrongShape => "WrongShape",
            BadAnswer::BadDigest => "BadDigest",
            BadAnswer::NotCanonical => "NotCanonical",
        }
    }
}

/// What is answered to a line. `recorded` is how many frames of the host are recorded behind it.
#[derive(Drop)]
pub enum Answer {
    /// The frame was the next one of its host, and is recorded now.
    Recorded {
        /// The host.
        host: Str,
        /// The number of the frame.
        number: u64,
        /// How many frames of the host are recorded.
        recorded: u64,
    },
    /// The frame was recorded before.
    Repeat {
        /// The host.
        host: Str,
        /// The number of the frame.
        number: u64,
        /// How many frames of the host are recorded.
        recorded: u64,
    },
    /// Frames of its host that stand before it aren't recorded yet.
    Gap {
        /// The host.
        host: Str,
        /// The number of the frame.
        number: u64,
        /// How many frames of the host are recorded.
        recorded: u64,
    },
    /// Another frame of its host was recorded with its number.
    Conflict {
        /// The host.
        host: Str,
        /// The number of both frames.
        number: u64,
        /// How many frames of the host are recorded.
        recorded: u64,
        /// The digest of the frame that is recorded.
        kept: Digest,
        /// The digest of the frame that came.
        found: Digest,
    },
    /// The line is no frame.
    Bad {
        /// What is wrong with it.
        kind: BadAnswer,
    },
}
