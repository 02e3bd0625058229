//! A compiled pattern.

ghost use Rattle.std.specs.Prelude.{◌≡◌, true, false, is_some, IfOk, IfSome};
ghost use Rattle.regex.specs.Patterns.{SameCaptures};
ghost use Rattle.regex.specs.Strings.{matcher_pattern};
ghost use Rattle.custom_tables.specs.Patterns.{is_pattern as is_pattern_text, pattern_in};

use osq_value::NoMemory;
use regex::{Error, Matcher, Regex};
use std::alloc::Global;
use std::marker::Model;

/// A pattern that was compiled, which contracts see as its text.
#[derive(Drop)]
pub struct Pattern {
    regex: Regex,
}

impl Model for Pattern {
    ghost use Rattle.std.specs.Prelude.{◌≡◌, ℕ, List};
    ghost use Rattle.regex.specs.Patterns.{default_config};
    ghost use Rattle.regex.specs.Strings.{regex_config, regex_source, IsReadFromSource};

    ghost Value = { List ℕ };

    ghost view = { λ p. regex_source p.regex };

    ghost invariant = { λ p. (regex_config p.regex ≡ default_config) × IsReadFromSource p.regex };
}

impl Pattern {
    /// The pattern of this text, none where the text is no pattern. One that is too large when it is compiled is want of memory.
    pub fn of(alloc: Global, text: &str) -> Result<Option<Pattern>, NoMemory>
        ensures text { IfOk result (λ found. IfSome found (λ pattern. pattern ≡ text.now)) }
        ensures is { IfOk result (λ found. is_some found ≡ is_pattern_text text.now) }
    {
        match Regex::new(alloc, text) {
            Ok(regex) => Ok(Some(Pattern { regex })),
            Err(Error::Syntax(_)) => Ok(None),
            Err(Error::CompiledTooBig | Error::Internal | Error::OutOfMemory) => Err(NoMemory),
        }
    }

    /// What searches for the pattern.
    pub fn matcher(&self, alloc: Global) -> Result<Matcher<'_>, NoMemory>
        ensures { IfOk result (λ matcher. SameCaptures (matcher_pattern matcher) (pattern_in self.now)) }
    {
        Ok(self.regex.matcher(alloc)?)
    }
}
