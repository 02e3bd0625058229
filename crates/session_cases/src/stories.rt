//! Stories: lines that are taken one after another.

use crate::given::{Given, RUN, push_odd};
use crate::link::push_link_line;
use crate::outside::{Memory, nothing};
use crate::run::push_run;
use crate::story::{give_kept, push_head};
use case_text::{Bench, LineKind, json_of_line};
use osq_value::NoMemory;
use serde_json::Value as Json;
use std::alloc::Global;

/// A line of texts.
const TEXTS: LineKind = ("texts", &[]);

/// The line of a plain run.
const PLAIN: LineKind = ("plain", &[]);

/// Adds what the line of a plain run has that no run may have.
fn push_plain(text: &mut String, line: &Json, run: &Json) -> Result<(), NoMemory> {
    push_odd(text, "plain line", line, PLAIN)?;
    push_odd(text, "run", run, RUN)
}

/// The outside, the lines of texts and of the plain run, and how many runs the story had.
#[derive(Drop)]
pub(crate) struct Stories {
    outside: Memory,
    texts: Vec<Json>,
    plain: Json,
    runs: u64,
}

impl Stories {
    /// No story yet.
    pub(crate) fn new(alloc: Global) -> Stories {
        Stories {
            outside: nothing(alloc),
            texts: Vec::new(alloc),
            plain: Json::Null,
            runs: 0,
        }
    }

    /// Begins a story over the entries that its line gives.
    fn begin(
        &mut self,
        alloc: Global,
        text: &mut String,
        name: &str,
        line: &Json,
    ) -> Result<(), NoMemory> {
        self.runs = 0;
        give_kept(alloc, &mut self.outside, line)?;
        push_head(text, name, line)
    }

    /// Does a run, and adds what it leaves.
    fn run(&mut self, alloc: Global, text: &mut String, line: &Json) -> Result<(), NoMemory> {
        self.runs = self.runs.saturating_add(1);
        write!(text, "run {}: ", self.runs)?;
        let given = Given {
            run: line,
            plain: &self.plain,
            texts: self.texts.as_slice(),
        };
        push_run(alloc, text, &mut self.outside, given)
    }

    /// Takes a line of a story.
    fn act(&mut self, alloc: Global, text: &mut String, line: &Json) -> Result<(), NoMemory> {
        if let Some(name) = line.get("story").and_then(Json::as_str) {
            return self.begin(alloc, text, name, line);
        }
        match line.get("link") {
            Some(link) => push_link_line(alloc, text, self.texts.as_slice(), line, link),
            None => self.run(alloc, text, line),
        }
    }

    /// Does what a line asks, and adds what is to be told of it.
    fn push_told(&mut self, alloc: Global, text: &mut String, line: &Json) -> Result<(), NoMemory> {
        if line.get("texts").is_some() {
            return push_odd(text, "line of texts", line, TEXTS);
        }
        match line.get("plain") {
            Some(run) => push_plain(text, line, run),
            None => self.act(alloc, text, line),
        }
    }

    /// Keeps a line of texts, or what stands where a run says nothing.
    fn keep(&mut self, line: Json) -> Result<(), NoMemory> {
        if line.get("texts").is_some() {
            self.texts.push(line)?;
        } else if line.get("plain").is_some() {
            self.plain = line;
        }
        Ok(())
    }

    /// Takes a line, and adds what is to be told of it.
    fn take(&mut self, alloc: Global, text: &mut String, line: Json) -> Result<(), NoMemory> {
        self.push_told(alloc, text, &line)?;
        self.keep(line)
    }

    /// Takes the text of a line, and adds what is to be told of it.
    fn push_line(&mut self, alloc: Global, text: &mut String, line: &str) -> Result<(), NoMemory> {
        match json_of_line(alloc, line)? {
            None => Ok(()),
            Some(Json::Null) => Ok(text.push_str("not JSON\n")?),
            Some(line) => self.take(alloc, text, line),
        }
    }
}

impl Bench for Stories {
    fn take_line(&mut self, alloc: Global, line: &str) -> Result<String, NoMemory> {
        let mut text = String::new(alloc);
        self.push_line(alloc, &mut text, line)?;
        Ok(text)
    }
}
