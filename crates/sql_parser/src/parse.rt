//! The tree of a text, or its least fault.

ghost use Rattle.std.specs.Prelude.{List, ℕ, ◌≡◌, ◌≢◌, OnOk, IfOk, Some, None};
ghost use Rattle.sql_tree.specs.View.{tree_of};
ghost use Rattle.sql_faults.specs.Reading.{first_fault, whole as whole_expression, whole_select};
ghost use Rattle.sql_tree.specs.Tree.{Tree};
ghost use Rattle.sql_tokens.specs.Lexing.{tokens_of};
ghost use Rattle.sql_parser.specs.Text.{expression_fault, select_fault, too_long};
ghost use Rattle.sql_parser.specs.Whole.{IsTree, WholeDescends};
ghost use Rattle.sql_tree.specs.Select.{SelectTree, select_of};
ghost use Rattle.sql_parser.specs.SelectGrammar.{IsSelect};
ghost use Rattle.sql_parser.specs.Judged.{Judged};
ghost use Rattle.sql_parser.specs.SelectDescent.{SelectDescends};
ghost use Rattle.sql_faults.specs.declared.error.ParseKind.TheVariants.{NoMemory};

use crate::stop::Stop;
use crate::{clauses, descent};
use sql_faults::error::{ParseError, ParseKind};
use sql_faults::recognizer;
use sql_tokens::level::Level;
use sql_tokens::lexer;
use sql_tokens::reader::Reader;
use sql_tokens::token::{Kind, Token};
use sql_tree::select::Select;
use sql_tree::tree::Node;
use std::alloc::Global;

/// How many bytes a text may have.
pub const MAX_BYTES: usize = 65536;

fn whole(alloc: Global, tokens: &[Token]) -> Result<Node, Stop>
    ensures { WholeDescends tokens.now result }
{
    let mut reader = Reader::new(tokens);
    let node = descent::chain(alloc, &mut reader, Level::Or, 0)?;
    match reader.peek().kind {
        Kind::End => Ok(node),
        _ => Err(Stop::Refused),
    }
}

/// The tree that the grammar gives for the tokens of an expression.
fn parse_tokens(alloc: Global, tokens: &[Token]) -> Result<Node, ParseError>
    ensures tree { IfOk result (λ node. IsTree tokens.now (tree_of node)) }
    ensures accepted { OnOk result (first_fault whole_expression tokens.now ≡ None) }
    // The error is the least fault.
    ensures refused { (error : ParseError) → result ≡ Err error → error.kind ≢ NoMemory → first_fault whole_expression tokens.now ≡ Some error }
{
    match whole(alloc, tokens) {
        Ok(node) => Ok(node),
        Err(Stop::NoMemory) => Err(ParseError {
            place: 0,
            kind: ParseKind::NoMemory,
        }),
        Err(Stop::Refused) => match recognizer::expression_fault(alloc, tokens)? {
            Some(fault) => Err(fault),
            None => unreachable!(),
        },
    }
}

/// The tree of an expression's text, or its least fault.
/// The kinds of faults and the places are those of `parse`.
pub fn parse_expression(alloc: Global, text: &str) -> Result<Node, ParseError>
    ensures tree { IfOk result (λ node. IsTree (tokens_of text.now) (tree_of node)) }
    ensures accepted { OnOk result (expression_fault text.now ≡ None) }
    // The error is the least fault.
    ensures refused { (error : ParseError) → result ≡ Err error → error.kind ≢ NoMemory → expression_fault text.now ≡ Some error }
{
    if text.len() > MAX_BYTES {
        return Err(too_long());
    }
    let tokens = lexer::tokens_of(alloc, text.as_bytes())?;
    parse_tokens(alloc, &tokens)
}

fn whole_select(alloc: Global, tokens: &[Token]) -> Result<Select, Stop>
    ensures { SelectDescends tokens.now result }
{
    let mut reader = Reader::new(tokens);
    let select = clauses::select(alloc, &mut reader)?;
    if clauses::is_ended(&mut reader) {
        Ok(select)
    } else {
        Err(Stop::Refused)
    }
}

/// The tree that the grammar gives for the tokens of a select.
fn parse_select(alloc: Global, tokens: &[Token]) -> Result<Select, ParseError>
    ensures tree { IfOk result (λ select. IsSelect tokens.now (select_of select)) }
    ensures accepted { OnOk result (first_fault whole_select tokens.now ≡ None) }
    // The error is the least fault.
    ensures refused { (error : ParseError) → result ≡ Err error → error.kind ≢ NoMemory → first_fault whole_select tokens.now ≡ Some error }
{
    match whole_select(alloc, tokens) {
        Ok(select) => Ok(select),
        Err(Stop::NoMemory) => Err(ParseError {
            place: 0,
            kind: ParseKind::NoMemory,
        }),
        Err(Stop::Refused) => match recognizer::select_fault(alloc, tokens)? {
            Some(fault) => Err(fault),
            None => unreachable!(),
        },
    }
}

/// The tree of a select's text, or its least fault.
///
/// The grammar is a part of SQLite's. A place is the number of bytes of the text before the fault. The kinds: NotInGrammar where no
/// text of the grammar goes on so; NumberTooWide for a number above 9223372036854775807; TooDeep for a 65th open nesting or a 1001st
/// operator of a chain; TextTooLong for more than 65536 bytes.
///
/// ```
/// let select = parse(alloc, "SELECT uid FROM users LIMIT 2")?;
/// select.limit              // Some(2)
/// select.filter.is_none()   // true: the text has no WHERE
/// parse(alloc, "SELECT")    // Err(ParseError { place: 6, kind: ParseKind::NotInGrammar })
/// ```
pub fn parse(alloc: Global, text: &str) -> Result<Select, ParseError>
    // The grammar derives the tree from all tokens of the text.
    ensures tree { IfOk result (λ select. IsSelect (tokens_of text.now) (select_of select)) }
    ensures accepted { OnOk result (select_fault text.now ≡ None) }
    // The error is the least fault.
    ensures refused { (error : ParseError) → result ≡ Err error → error.kind ≢ NoMemory → select_fault text.now ≡ Some error }
{
    if text.len() > MAX_BYTES {
        return Err(too_long());
    }
    let tokens = lexer::tokens_of(alloc, text.as_bytes())?;
    parse_select(alloc, &tokens)
}

fn too_long() -> ParseError
    ensures { result ≡ too_long }
{
    ParseError {
        place: MAX_BYTES,
        kind: ParseKind::TextTooLong,
    }
}

/// The tokens of an expression have at most one tree.
pub fn one_tree()
    ensures { (tokens : List Token) → (a b : Tree) → IsTree tokens a → IsTree tokens b → a ≡ b }
{}

/// The tokens of a select have at most one tree.
pub fn one_select()
    ensures { (tokens : List Token) → (a b : SelectTree) → IsSelect tokens a → IsSelect tokens b → a ≡ b }
{}

/// A text that has no fault as an expression has a tree.
pub fn faultless_expression()
    ensures { (text : List ℕ) → expression_fault text ≡ None → (tree : Tree) × IsTree (tokens_of text) tree }
{}

/// Tokens that have no fault as a select have a tree.
pub fn judged_select()
    ensures { (tokens : List Token) → Judged tokens }
{}
