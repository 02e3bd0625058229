//! Errors of memory, of the outside and of a command line's words.

use crate::printed::print_errors;
use osq_outside::{FilesError, SinkFault, SourceFault};
use osq_value::NoMemory;
use program_words::WordsError;
use std::io;

pub(crate) fn print<R: Print>(rt: &R) -> io::Result<()> {
    print_errors(rt, "NoMemory", &[NoMemory])?;
    print_errors(rt, "SourceFault", &[SourceFault])?;
    print_errors(rt, "SinkFault", &[SinkFault])?;
    print_errors(rt, "FilesError", &[FilesError::Fault, FilesError::NoMemory])?;
    print_errors(rt, "WordsError", &[WordsError::Usage, WordsError::NoMemory])
}
