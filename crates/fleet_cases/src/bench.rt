//! What is kept from line to line.

use crate::asked::push_answer;
use crate::frames::add_line;
use case_text::{Bench, json_of_line};
use fleet_query::Fleet;
use osq_value::NoMemory;
use serde_json::Value as Json;
use std::alloc::Global;

/// The frames so far.
#[derive(Drop)]
pub(crate) struct FleetBench {
    fleet: Fleet,
}

/// What the line of a frame begins with.
const FRAME: &str = "{\"frame\"";

impl FleetBench {
    /// A bench without frames.
    pub fn new(alloc: Global) -> FleetBench {
        FleetBench {
            fleet: Fleet::empty(alloc),
        }
    }

    /// Does what a row asks.
    fn take_row(&mut self, alloc: Global, text: &mut String, row: &Json) -> Result<(), NoMemory> {
        if row.get("forget").is_some() {
            self.fleet = Fleet::empty(alloc);
            return Ok(());
        }
        push_answer(alloc, text, &self.fleet, row)
    }

    /// Does what a line asks that is a row.
    fn take_asked(&mut self, alloc: Global, line: &str) -> Result<String, NoMemory> {
        let mut text = String::new(alloc);
        if let Some(row) = json_of_line(alloc, line)? {
            writeln!(text, "> {line}")?;
            self.take_row(alloc, &mut text, &row)?;
        }
        Ok(text)
    }

    /// Adds the frame of a line.
    fn take_frame(&mut self, alloc: Global, line: &str) -> Result<String, NoMemory> {
        let mut text = String::new(alloc);
        let front = line.get(..80).unwrap_or(line);
        writeln!(text, "> {front}")?;
        add_line(alloc, &mut text, &mut self.fleet, line)?;
        Ok(text)
    }
}

impl Bench for FleetBench {
    fn take_line(&mut self, alloc: Global, line: &str) -> Result<String, NoMemory> {
        if line.starts_with(FRAME) {
            self.take_frame(alloc, line)
        } else {
            self.take_asked(alloc, line)
        }
    }
}
