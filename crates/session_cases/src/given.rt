//! What a run is over.

use crate::made::{answers_of, files_of, sources_of};
use batch_forwarder::MemoryLink;
use case_text::{LineKind, fails_of, items_of, odd_member};
use osq_outside::{FailList, MemoryFiles, MemorySink, MemorySource};
use osq_value::NoMemory;
use serde_json::Value as Json;
use std::alloc::Global;

/// The members that a run may have.
pub(crate) const RUN: LineKind = (
    "words",
    &[
        "text",
        "files",
        "sources",
        "answers",
        "start",
        "step",
        "fails",
        "is_whole",
        "is_brief",
        "tells_clock",
    ],
);

/// The objects whose calls may fail.
const OBJECTS: LineKind = ("files", &["keeper", "results", "status", "ledger", "link"]);

/// Adds the first member of an object that its kind may not have.
pub(crate) fn push_odd(
    text: &mut String,
    name: &str,
    item: &Json,
    kind: LineKind,
) -> Result<(), NoMemory> {
    match odd_member(item, kind) {
        Some(key) => Ok(writeln!(text, "no {name} has {key}")?),
        None => Ok(()),
    }
}

/// A run: what its line lacks is as in the plain run. `plain` is the line that gave it, and `texts` are the lines that named texts.
#[derive(Clone, Copy)]
pub(crate) struct Given<'a> {
    pub(crate) run: &'a Json,
    pub(crate) plain: &'a Json,
    pub(crate) texts: &'a [Json],
}

/// The words: those of an array, or of a text, where they stand between blanks.
fn words_of<'a>(alloc: Global, value: Option<&'a Json>) -> Result<Vec<&'a str>, NoMemory> {
    let mut words = Vec::new(alloc);
    for item in items_of(value) {
        if let Some(word) = item.as_str() {
            words.push(word)?;
        }
    }
    let text = value.and_then(Json::as_str).unwrap_or("");
    for word in text.split_whitespace() {
        words.push(word)?;
    }
    Ok(words)
}

impl<'a> Given<'a> {
    fn member(self, key: &str) -> Option<&'a Json> {
        match self.run.get(key) {
            Some(value) => Some(value),
            None => self.plain.get("plain")?.get(key),
        }
    }

    /// The first member that no run may have, or that has no calls.
    pub(crate) fn odd_key(self) -> Option<&'a str> {
        match odd_member(self.run, RUN) {
            Some(key) => Some(key),
            None => odd_member(self.member("fails")?, OBJECTS),
        }
    }

    pub(crate) fn number(self, key: &str) -> u64 {
        self.member(key).and_then(Json::as_u64).unwrap_or(0)
    }

    pub(crate) fn is_set(self, key: &str) -> bool {
        self.member(key).and_then(Json::as_bool).unwrap_or(false)
    }

    /// The calls on the object of this name that are to fail.
    pub(crate) fn fails(self, alloc: Global, name: &str) -> Result<FailList, NoMemory> {
        match self.member("fails") {
            Some(fails) => fails_of(alloc, fails.get(name)),
            None => Ok(FailList::new(alloc)),
        }
    }

    /// Whether the run says what its link answers.
    pub(crate) fn has_link(self) -> bool {
        self.member("answers").is_some()
    }

    pub(crate) fn link(self, alloc: Global) -> Result<MemoryLink, NoMemory> {
        let answers = answers_of(alloc, self.texts, self.member("answers"))?;
        Ok(MemoryLink::new(alloc, answers, self.fails(alloc, "link")?))
    }

    pub(crate) fn sink(self, alloc: Global, name: &str) -> Result<MemorySink, NoMemory> {
        Ok(MemorySink::new(alloc, self.fails(alloc, name)?))
    }

    pub(crate) fn files(self, alloc: Global) -> Result<MemoryFiles, NoMemory> {
        let files = files_of(alloc, self.texts, self.member("files"))?;
        Ok(MemoryFiles::new(files, self.fails(alloc, "files")?))
    }

    pub(crate) fn sources(self, alloc: Global) -> Result<Vec<MemorySource>, NoMemory> {
        sources_of(alloc, self.texts, items_of(self.member("sources")))
    }

    /// The words, and behind them the text that is asked, if there is one.
    pub(crate) fn words(self, alloc: Global) -> Result<Vec<&'a str>, NoMemory> {
        let mut words = words_of(alloc, self.member("words"))?;
        if let Some(text) = self.member("text").and_then(Json::as_str) {
            words.push("--text")?;
            words.push(text)?;
        }
        Ok(words)
    }
}
