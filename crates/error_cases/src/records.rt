//! Errors of lines, and of those who read and write them.

use crate::printed::print_errors;
use audit_records::AuditLineError;
use change_records::JsonLineError;
use generated_changes::WriteError;
use publisher_core::error::StepError;
use std::io;

const STEPS: [StepError; 3] = [
    StepError::SourceFault,
    StepError::SourceShrank {
        kept: 92,
        found: 46,
    },
    StepError::NoMemory,
];

pub(crate) fn print<R: Print>(rt: &R) -> io::Result<()> {
    let audit = [AuditLineError::BadLine, AuditLineError::NoMemory];
    print_errors(rt, "AuditLineError", &audit)?;
    let json = [JsonLineError::BadLine, JsonLineError::NoMemory];
    print_errors(rt, "JsonLineError", &json)?;
    print_errors(rt, "StepError", &STEPS)?;
    print_errors(
        rt,
        "WriteError",
        &[WriteError::SinkFault, WriteError::NoMemory],
    )
}
