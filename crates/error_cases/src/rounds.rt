//! Errors of a session's rounds.

use crate::printed::print_errors;
use daemon_rounds::{
    FinishError, MomentTooLarge, OpenError, RoundError, SealError, StartError, TakeError, TurnError,
};
use query_rounds::AskError;
use replay_rounds::{LoadError, Numbers, Refused, RunError};
use std::io;
use thread_jobs::JobError;
use thread_rounds::StepRefusal;

/// The first moment of the year 10000.
const MOMENT: u64 = 253402300800;

const KEPT: Numbers = Numbers {
    events: 3,
    batches: 2,
    acknowledged: 1,
};

const FINISHES: [FinishError; 4] = [
    FinishError::NumbersSpent,
    FinishError::KeeperFault,
    FinishError::SinkFault,
    FinishError::NoMemory,
];

const TURNS: [TurnError; 3] = [
    TurnError::SourceFault,
    TurnError::NumbersSpent,
    TurnError::NoMemory,
];

const TAKES: [TakeError; 3] = [
    TakeError::SourceFault { place: 1 },
    TakeError::NumbersSpent,
    TakeError::NoMemory,
];

const STARTS: [StartError; 3] = [
    StartError::SourceFault { place: 1 },
    StartError::SourceShrank {
        place: 1,
        kept: 92,
        found: 46,
    },
    StartError::NoMemory,
];

const OPENS: [OpenError; 5] = [
    OpenError::MomentTooLarge { moment: MOMENT },
    OpenError::SourceFault { place: 1 },
    OpenError::SourceShrank {
        place: 1,
        kept: 92,
        found: 46,
    },
    OpenError::NumbersSpent,
    OpenError::NoMemory,
];

const SEALS: [SealError; 3] = [
    SealError::KeeperFault,
    SealError::SinkFault,
    SealError::NoMemory,
];

const LOADS: [LoadError; 3] = [
    LoadError::KeeperFault,
    LoadError::KeeperRefused { kept: KEPT },
    LoadError::NoMemory,
];

const RUNS: [RunError; 8] = [
    RunError::KeeperFault,
    RunError::KeeperRefused,
    RunError::MomentTooLarge { moment: MOMENT },
    RunError::SourceFault { place: 1 },
    RunError::SourceShrank {
        place: 1,
        kept: 92,
        found: 46,
    },
    RunError::NumbersSpent,
    RunError::SinkFault,
    RunError::NoMemory,
];

const REFUSED: [Refused; 2] = [
    Refused {
        error: RunError::KeeperFault,
        numbers: None,
    },
    Refused {
        error: RunError::SinkFault,
        numbers: Some(KEPT),
    },
];

const ASKS: [AskError; 7] = [
    AskError::KeeperFault,
    AskError::KeeperRefused,
    AskError::MomentTooLarge { moment: MOMENT },
    AskError::SourceFault { place: 1 },
    AskError::SourceShrank {
        place: 1,
        kept: 92,
        found: 46,
    },
    AskError::NumbersSpent,
    AskError::NoMemory,
];

const JOBS: [JobError; 4] = [
    JobError::SourceFault,
    JobError::NumbersSpent,
    JobError::Intruded,
    JobError::NoMemory,
];

const STEPS: [StepRefusal; 3] = [
    StepRefusal::SourceFault { place: 1 },
    StepRefusal::NumbersSpent,
    StepRefusal::NoMemory,
];

fn print_ticks<R: Print>(rt: &R) -> io::Result<()> {
    print_errors(rt, "MomentTooLarge", &[MomentTooLarge { moment: MOMENT }])?;
    print_errors(
        rt,
        "RoundError",
        &[RoundError::NumbersSpent, RoundError::NoMemory],
    )?;
    print_errors(rt, "FinishError", &FINISHES)?;
    print_errors(rt, "TurnError", &TURNS)?;
    print_errors(rt, "TakeError", &TAKES)?;
    print_errors(rt, "StartError", &STARTS)?;
    print_errors(rt, "OpenError", &OPENS)?;
    print_errors(rt, "SealError", &SEALS)
}

pub(crate) fn print<R: Print>(rt: &R) -> io::Result<()> {
    print_ticks(rt)?;
    print_errors(rt, "LoadError", &LOADS)?;
    print_errors(rt, "RunError", &RUNS)?;
    print_errors(rt, "Refused", &REFUSED)?;
    print_errors(rt, "AskError", &ASKS)?;
    print_errors(rt, "JobError", &JOBS)?;
    print_errors(rt, "StepRefusal", &STEPS)
}
