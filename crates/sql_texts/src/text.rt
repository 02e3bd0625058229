//! What a text asks for.

ghost use Rattle.std.specs.Prelude.{List, [], ℕ, ◌≡◌, ◌≢◌, ◌≤◌, length, Some, None, IfOk, IfErr, OnOk};
ghost use Rattle.sql_faults.specs.declared.error.ParseKind.TheVariants.{NoMemory as ParseWantsMemory};
ghost use Rattle.sql_names.specs.declared.error.NameKind.TheVariants.{NoMemory as NameWantsMemory};
ghost use Rattle.sql_texts.specs.declared.text.TextError.TheVariants.{Parse, Name, NoMemory};
ghost use Rattle.sql_query.specs.Resolved.{query_of};
ghost use Rattle.sql_query.specs.Standing.{IsStanding};
ghost use Rattle.sql_tokens.specs.Lexing.{tokens_of};
ghost use Rattle.sql_tree.specs.Select.{SelectTree};
ghost use Rattle.sql_parser.specs.SelectGrammar.{IsSelect};
ghost use Rattle.sql_parser.specs.Text.{select_fault};
ghost use Rattle.sql_texts.specs.TextTree.{select_of_text};
ghost use Rattle.sql_texts.specs.Texts.{query_in, query_with_in};
ghost use Rattle.sql_texts.specs.TextFaults.{text_fault, text_fault_with, place_of_fault, parse_kind_name, name_kind_name, name_of_fault};

use sql_names::error::{NameError, NameKind};
use sql_names::resolve::resolve_with;
use sql_parser::parse::parse;
use sql_parser::{ParseError, ParseKind};
use sql_query::derived::Derived;
use sql_query::query::Query;
use std::alloc::Global;
use thiserror::Error;

/// Why a text has no query.
#[derive(Clone, Copy, Debug, Error)]
pub enum TextError {
    /// Its grammar's least fault.
    #[error(transparent)]
    Parse(ParseError),
    /// The first kind of fault of its names, at that kind's least place.
    #[error(transparent)]
    Name(NameError),
    /// Memory ran out.
    #[error("out of memory")]
    NoMemory,
}

impl TextError {
    /// The byte place of the fault; 0 where memory ran out.
    pub fn place(&self) -> usize
        ensures { result ≡ place_of_fault self.now }
    {
        match self {
            TextError::Parse(error) => error.place,
            TextError::Name(error) => error.place,
            TextError::NoMemory => 0,
        }
    }

    /// The name of the fault's kind.
    pub fn name(&self) -> &'static str
        ensures { result.now ≡ name_of_fault self.now }
    {
        match self {
            TextError::Parse(error) => parse_kind_name(error.kind),
            TextError::Name(error) => name_kind_name(error.kind),
            TextError::NoMemory => "NoMemory",
        }
    }
}

fn parse_kind_name(kind: ParseKind) -> &'static str
    ensures { result.now ≡ parse_kind_name kind }
{
    match kind {
        ParseKind::NotInGrammar => "NotInGrammar",
        ParseKind::NumberTooWide => "NumberTooWide",
        ParseKind::TextTooLong => "TextTooLong",
        ParseKind::TooDeep => "TooDeep",
        ParseKind::NoMemory => "NoMemory",
    }
}

fn name_kind_name(kind: NameKind) -> &'static str
    ensures { result.now ≡ name_kind_name kind }
{
    match kind {
        NameKind::TooManyTables => "TooManyTables",
        NameKind::NoTable => "NoTable",
        NameKind::NoColumn => "NoColumn",
        NameKind::Ambiguous => "Ambiguous",
        NameKind::BadAggregate => "BadAggregate",
        NameKind::BareColumn => "BareColumn",
        NameKind::NoMemory => "NoMemory",
    }
}

fn not_parsed(error: ParseError) -> TextError
    ensures fault { result ≢ NoMemory → result ≡ Parse error }
    ensures memory { result ≢ NoMemory → error.kind ≢ ParseWantsMemory }
{
    match error.kind {
        ParseKind::NoMemory => TextError::NoMemory,
        ParseKind::NotInGrammar => TextError::Parse(error),
        ParseKind::NumberTooWide => TextError::Parse(error),
        ParseKind::TextTooLong => TextError::Parse(error),
        ParseKind::TooDeep => TextError::Parse(error),
    }
}

fn not_resolved(error: NameError) -> TextError
    ensures fault { result ≢ NoMemory → result ≡ Name error }
    ensures memory { result ≢ NoMemory → error.kind ≢ NameWantsMemory }
{
    match error.kind {
        NameKind::NoMemory => TextError::NoMemory,
        NameKind::TooManyTables => TextError::Name(error),
        NameKind::NoTable => TextError::Name(error),
        NameKind::NoColumn => TextError::Name(error),
        NameKind::Ambiguous => TextError::Name(error),
        NameKind::BadAggregate => TextError::Name(error),
        NameKind::BareColumn => TextError::Name(error),
    }
}

/// The query that a text asks for where its FROM may mean these derived tables too, or its fault:
/// that of its grammar, else that of its names.
///
/// Parse holds what `parse` refuses, and Name what `resolve_with` does. Both have a byte place in the text, from 0.
pub fn query_with(alloc: Global, text: &str, derived: &[Derived]) -> Result<Query, TextError>
    requires few { length derived.now ≤ 100 }
    ensures ok { IfOk result (λ q. query_with_in derived.now text.now ≡ Some (query_of q)) }
    ensures standing { IfOk result (λ q. IsStanding derived.now (query_of q)) }
    ensures sound { OnOk result (text_fault_with derived.now text.now ≡ None) }
    ensures fault { IfErr result (λ e. e ≢ NoMemory → text_fault_with derived.now text.now ≡ Some e) }
    ensures refused { IfErr result (λ e. e ≢ NoMemory → query_with_in derived.now text.now ≡ None) }
{
    match parse(alloc, text) {
        Err(error) => Err(not_parsed(error)),
        Ok(select) => match resolve_with(alloc, text, &select, derived) {
            Err(error) => Err(not_resolved(error)),
            Ok(query) => Ok(query),
        },
    }
}

/// The query that a text asks for, or its fault, as `query_with` says them where there is no derived table.
///
/// ```
/// let query = query_of_text(alloc, "SELECT uid FROM users")?;
/// query.items.len()         // 1: the column `uid`
/// query_of_text(alloc, "SELECT x FROM users")
/// // Err(TextError::Name(NameError { place: 7, kind: NameKind::NoColumn }))
/// ```
#[tactic(auto, unfolding(crate::specs::Texts::query_in, crate::specs::TextFaults::text_fault))]
pub fn query_of_text(alloc: Global, text: &str) -> Result<Query, TextError>
    ensures ok { IfOk result (λ q. query_in text.now ≡ Some (query_of q)) }
    ensures standing { IfOk result (λ q. IsStanding [] (query_of q)) }
    ensures sound { OnOk result (text_fault text.now ≡ None) }
    ensures fault { IfErr result (λ e. e ≢ NoMemory → text_fault text.now ≡ Some e) }
    ensures refused { IfErr result (λ e. e ≢ NoMemory → query_in text.now ≡ None) }
{
    query_with(alloc, text, &[])
}

/// The tree of a text, as a function of the text, is the one that the grammar derives from its tokens.
pub fn derived_tree()
    ensures derived { (text : List ℕ) → (tree : SelectTree) → select_of_text text ≡ Some tree → IsSelect (tokens_of text) tree }
    ensures given { (text : List ℕ) → (tree : SelectTree) → select_fault text ≡ None → IsSelect (tokens_of text) tree → select_of_text text ≡ Some tree }
{}
