//! What the calls are of.

use crate::call::Call;
use crate::image::Sliced;
use crate::session::Session;
use crate::shown::{tell, yes_or_no};
use crate::values::Values;
use crate::{cursors, session_calls};
use case_text::{Bench, json_of_line};
use entry_model::restored::Restored;
use entry_summary::fitting::{fits, fits_by_hash};
use osq_value::NoMemory;
use serde_json::Value as Json;
use std::alloc::Global;

/// The session and the image that calls are of, and the lines that gave runs and values.
#[derive(Drop)]
pub(crate) struct CallBench {
    session: Session,
    image: Sliced,
    given: Given,
}

/// The lines that gave runs and values.
#[derive(Drop)]
struct Given {
    runs: Json,
    values: Json,
}

/// Adds the heading of a case.
fn push_case(text: &mut String, name: &str) -> Result<(), NoMemory> {
    text.push_str("\n== ")?;
    text.push_str(name)?;
    Ok(text.push_str("\n")?)
}

/// Whether a session may go on from these values, asked both ways.
fn push_fits(alloc: Global, text: &mut String, restored: &Restored) -> Result<(), NoMemory> {
    let fit = fits(restored);
    if fits_by_hash(alloc, restored)? == fit {
        tell(text, yes_or_no(fit))
    } else {
        tell(text, "otherwise by hash")
    }
}

/// Opens a session over these values, where it may go on from them.
fn reopen(
    alloc: Global,
    session: &mut Session,
    restored: Restored,
) -> Result<&'static str, NoMemory> {
    if !fits(&restored) {
        return Ok("no values to go on from");
    }
    *session = Session::begin(alloc, restored)?;
    Ok("done")
}

/// A line that gives runs or values, with nothing that no such line has.
fn gives(line: &Json) -> bool {
    match Call::of(line) {
        Some(call) => call.gives() && call.fault().is_none(),
        None => false,
    }
}

impl Given {
    /// Keeps a line that gives runs or values.
    fn keep(&mut self, line: Json) {
        if line.get("runs").is_some() {
            self.runs = line;
        } else {
            self.values = line;
        }
    }

    /// The values of a line.
    fn values(&self, alloc: Global, line: &Json) -> Result<Restored, NoMemory> {
        let plain = &self.values;
        Values { line, plain }.restored(alloc)
    }

    fn ask_fits(&self, alloc: Global, text: &mut String, line: &Json) -> Result<(), NoMemory> {
        let restored = self.values(alloc, line)?;
        push_fits(alloc, text, &restored)
    }

    /// Opens a session over the values of the last line of values.
    fn begin(
        &self,
        alloc: Global,
        text: &mut String,
        session: &mut Session,
    ) -> Result<(), NoMemory> {
        let restored = self.values(alloc, &Json::Null)?;
        tell(text, reopen(alloc, session, restored)?)
    }

    /// Asks what is of no session and no image.
    fn ask(&self, alloc: Global, text: &mut String, call: Call<'_>) -> Result<(), NoMemory> {
        match call.kind() {
            "cursors" => cursors::call(alloc, text, &self.runs, call.line),
            "due" => cursors::push_due(alloc, text, call.line),
            _ => self.ask_fits(alloc, text, call.line),
        }
    }
}

impl CallBench {
    pub(crate) fn new(alloc: Global) -> Result<CallBench, NoMemory> {
        let session = Session::new(alloc)?;
        Ok(CallBench {
            session,
            image: Sliced::new(alloc)?,
            given: Given {
                runs: Json::Null,
                values: Json::Null,
            },
        })
    }

    /// Begins again, under this name.
    fn renew(&mut self, alloc: Global, text: &mut String, name: &str) -> Result<(), NoMemory> {
        self.session = Session::new(alloc)?;
        self.image = Sliced::new(alloc)?;
        push_case(text, name)
    }

    /// Adds what a call of the session answers.
    fn call_session(
        &mut self,
        alloc: Global,
        text: &mut String,
        call: Call<'_>,
    ) -> Result<(), NoMemory> {
        if call.name() == "begin" {
            self.given.begin(alloc, text, &mut self.session)
        } else {
            session_calls::call(alloc, text, &mut self.session, call.line)
        }
    }

    /// Adds what a call answers.
    fn answer(&mut self, alloc: Global, text: &mut String, call: Call<'_>) -> Result<(), NoMemory> {
        match call.kind() {
            "state" => self.call_session(alloc, text, call),
            "image" => self.image.call(alloc, text, call.line),
            _ => self.given.ask(alloc, text, call),
        }
    }

    /// Makes a call, and adds a line of it.
    fn push_call(
        &mut self,
        alloc: Global,
        text: &mut String,
        call: Call<'_>,
    ) -> Result<(), NoMemory> {
        call.push_head(text)?;
        self.answer(alloc, text, call)?;
        Ok(text.push_str("\n")?)
    }

    /// Makes a call, or begins a new case.
    fn call(&mut self, alloc: Global, text: &mut String, call: Call<'_>) -> Result<(), NoMemory> {
        if call.kind() == "case" {
            self.renew(alloc, text, call.name())
        } else {
            self.push_call(alloc, text, call)
        }
    }

    /// Takes a line that has nothing but what its kind may have, or adds what else it has.
    fn take_call(&mut self, alloc: Global, text: &mut String, line: &Json) -> Result<(), NoMemory> {
        let Some(call) = Call::of(line) else {
            return Ok(text.push_str("no kind of line\n")?);
        };
        match call.fault() {
            Some(fault) => call.push_fault(text, fault),
            None => self.call(alloc, text, call),
        }
    }

    /// Keeps a line that gives values or runs, and takes any other.
    fn take(&mut self, alloc: Global, text: &mut String, line: Json) -> Result<(), NoMemory> {
        if line.is_null() {
            return Ok(text.push_str("not JSON\n")?);
        }
        if gives(&line) {
            self.given.keep(line);
            return Ok(());
        }
        self.take_call(alloc, text, &line)
    }

    /// Takes a line of text, and adds what it answers.
    fn take_text(&mut self, alloc: Global, text: &mut String, line: &str) -> Result<(), NoMemory> {
        match json_of_line(alloc, line)? {
            Some(value) => self.take(alloc, text, value),
            None => Ok(()),
        }
    }
}

impl Bench for CallBench {
    fn take_line(&mut self, alloc: Global, line: &str) -> Result<String, NoMemory> {
        let mut text = String::new(alloc);
        self.take_text(alloc, &mut text, line)?;
        Ok(text)
    }
}
