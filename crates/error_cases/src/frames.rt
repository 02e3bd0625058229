//! Errors of frames, of links and of a collector.

use crate::printed::print_errors;
use batch_forwarder::{ForwardError, LinkError, LinkFault};
use batch_frames::{BadKind, FrameError};
use collect_rounds::CollectError;
use std::io;

const FRAMES: [FrameError; 5] = [
    FrameError::BadFrame {
        kind: BadKind::NotJson,
    },
    FrameError::BadFrame {
        kind: BadKind::WrongShape,
    },
    FrameError::BadFrame {
        kind: BadKind::BadDigest,
    },
    FrameError::BadFrame {
        kind: BadKind::NotCanonical,
    },
    FrameError::NoMemory,
];

const COLLECTS: [CollectError; 3] = [
    CollectError::SourceFault,
    CollectError::SinkFault,
    CollectError::NoMemory,
];

pub(crate) fn print<R: Print>(rt: &R) -> io::Result<()> {
    print_errors(rt, "FrameError", &FRAMES)?;
    print_errors(rt, "LinkFault", &[LinkFault])?;
    print_errors(rt, "LinkError", &[LinkError::Fault, LinkError::NoMemory])?;
    print_errors(
        rt,
        "ForwardError",
        &[ForwardError::KeeperFault, ForwardError::NoMemory],
    )?;
    print_errors(rt, "CollectError", &COLLECTS)
}
