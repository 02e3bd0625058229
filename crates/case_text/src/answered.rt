//! Programs that read rows and print what each gives.

use crate::line::json_of_line;
use osq_value::NoMemory;
use serde_json::Value as Json;
use std::alloc::Global;
use std::io::{self, ErrorKind};

/// What is printed of a line: nothing, or its row behind `> `, and then what the row gives.
fn answered<F: Fn(Global, &mut String, &Json) -> Result<(), NoMemory>>(
    alloc: Global,
    line: &str,
    push_answer: &F,
) -> Result<String, NoMemory>
    requires { F.IsAlwaysCallable push_answer.now }
{
    let mut text = String::new(alloc);
    if let Some(row) = json_of_line(alloc, line)? {
        writeln!(text, "> {line}")?;
        push_answer(alloc, &mut text, &row)?;
    }
    Ok(text)
}

/// What a program of rows keeps from line to line.
pub trait Bench {
    /// Does what a line asks, and answers what is to be printed of it.
    fn take_line(&mut self, alloc: Global, line: &str) -> Result<String, NoMemory>;
}

/// Prints what a bench answers to each line of standard input.
///
/// OutOfMemory where memory is wanting; else what reading or printing is refused with.
pub fn print_told<R: Input + Print, B: Bench>(
    rt: &R,
    alloc: Global,
    bench: &mut B,
) -> io::Result<()> {
    for line in rt.lines(alloc) {
        match bench.take_line(alloc, line?.as_str()) {
            Ok(text) => print!(rt; "{text}")?,
            Err(NoMemory) => return Err(io::Error::from(ErrorKind::OutOfMemory)),
        }
    }
    Ok(())
}

/// Prints each row of standard input behind `> `, and then what `push_answer` writes of it. A row is a line of JSON, as `json_of_line` takes it.
///
/// OutOfMemory where memory is wanting; else what reading or printing is refused with.
pub fn print_answers<R: Input + Print, F: Fn(Global, &mut String, &Json) -> Result<(), NoMemory>>(
    rt: &R,
    alloc: Global,
    push_answer: F,
) -> io::Result<()>
    requires { F.IsAlwaysCallable push_answer }
{
    for line in rt.lines(alloc) {
        match answered(alloc, line?.as_str(), &push_answer) {
            Ok(text) => print!(rt; "{text}")?,
            Err(NoMemory) => return Err(io::Error::from(ErrorKind::OutOfMemory)),
        }
    }
    Ok(())
}
