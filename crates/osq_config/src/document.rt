//! The JSON value of a document with comments.

ghost use Rattle.std.specs.Prelude.{◌≡◌, ◌++◌, ◌∷◌, [], IfOk, OnOk};
ghost use Rattle.std.specs.String.{string_bytes};
ghost use Rattle.serde_json.specs.View.{view};
ghost use Rattle.osq_config.specs.Documents.{HasValue, behind_blanks, is_comment, unless_comment, without_comments, without_continuation, without_continuations};
ghost use Rattle.osq_config.specs.Reads.{ReadsDocument};

use crate::error::ConfigError;
use osq_value::NoMemory;
use serde_json::Value as Json;
use std::alloc::Global;
use std::str;

/// The JSON value of a document. Each backslash before a line feed is left out with the line feed, and then each line that begins, behind
/// spaces and tabs, with `//` or `#`.
/// NotJson where the document isn't UTF-8, or what is left of it is no JSON (RFC 8259).
///
/// The value holds all keys of the document, also those that a configuration passes over.
#[tactic(auto, unfolding(crate::specs::Documents::text_of))]
pub fn parse(alloc: Global, document: &[u8]) -> Result<Json, ConfigError>
    ensures { ReadsDocument document.now result }
{
    let Ok(text) = str::from_utf8(document) else {
        return Err(ConfigError::NotJson);
    };
    let text = without_continuations(alloc, text)?;
    let text = without_comments(alloc, text.as_str())?;
    match Json::from_str(alloc, text.as_str()) {
        Ok(value) => Ok(value),
        Err(error) => {
            if error.is_memory() {
                Err(ConfigError::NoMemory)
            } else {
                Err(ConfigError::NotJson)
            }
        }
    }
}

/// A text whose lines go on where they end with a backslash.
fn without_continuations(alloc: Global, text: &str) -> Result<String, NoMemory>
    ensures { IfOk result (λ made. string_bytes made ≡ without_continuations text.now) }
{
    let mut joined = String::new(alloc);
    let mut rest = text;
    while let Some((line, behind)) = rest.split_once('\n') {
        push_joined(&mut joined, line)?;
        rest = behind;
    }
    joined.push_str(rest)?;
    Ok(joined)
}

/// Adds a line with its line feed, or without its backslash and the line feed.
fn push_joined(joined: &mut String, line: &str) -> Result<(), NoMemory>
    ensures { OnOk result (string_bytes joined.new
        ≡ string_bytes joined.old ++ without_continuation (line.now ++ 10 ∷ [])) }
{
    match line.strip_suffix('\\') {
        Some(front) => joined.push_str(front)?,
        None => {
            joined.push_str(line)?;
            joined.push('\n')?;
        }
    }
    Ok(())
}

/// A text without the lines that are comments.
fn without_comments(alloc: Global, text: &str) -> Result<String, NoMemory>
    ensures { IfOk result (λ made. string_bytes made ≡ without_comments text.now) }
{
    let mut kept = String::new(alloc);
    let mut rest = text;
    while let Some((line, behind)) = rest.split_once('\n') {
        push_unless_comment(&mut kept, line)?;
        rest = behind;
    }
    if is_comment(rest.as_bytes()) {
        return Ok(kept);
    }
    kept.push_str(rest)?;
    Ok(kept)
}

/// Adds a line with its line feed, unless it is a comment.
fn push_unless_comment(kept: &mut String, line: &str) -> Result<(), NoMemory>
    ensures { OnOk result (string_bytes kept.new
        ≡ string_bytes kept.old ++ unless_comment (line.now ++ 10 ∷ [])) }
{
    if is_comment(line.as_bytes()) {
        return Ok(());
    }
    kept.push_str(line)?;
    kept.push('\n')?;
    Ok(())
}

/// Whether a line begins, behind spaces and tabs, with `//` or `#`.
#[tactic(auto, unfolding(crate::specs::Documents::is_comment))]
fn is_comment(line: &[u8]) -> bool
    ensures { result ≡ is_comment line.now }
{
    let text = behind_blanks(line);
    text.starts_with(b"//".as_slice()) || text.starts_with(b"#".as_slice())
}

fn behind_blanks(line: &[u8]) -> &[u8]
    ensures { result.now ≡ behind_blanks line.now }
{
    let mut rest = line;
    while let [byte, behind @ ..] = rest {
        if *byte != b' ' && *byte != b'\t' {
            return rest;
        }
        rest = behind;
    }
    rest
}
