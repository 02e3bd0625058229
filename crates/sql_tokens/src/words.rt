//! Keywords, and what names name. Both ignore ASCII case.

ghost use Rattle.std.specs.Prelude.{◌≡◌, map};
ghost use Rattle.sql_tokens.specs.Words.{found_in, clause_of, operator_of, function_of, other_of, word_of, kind_of_word};

use crate::token::{Clause, Kind, Word};
use sql_tree::functions::{Fold, Function};

/// The keywords that stand between the parts of a select.
const CLAUSES: [(&[u8], Clause); 18] = [
    (b"select", Clause::Select),
    (b"from", Clause::From),
    (b"where", Clause::Where),
    (b"group", Clause::Group),
    (b"by", Clause::By),
    (b"having", Clause::Having),
    (b"order", Clause::Order),
    (b"asc", Clause::Asc),
    (b"desc", Clause::Desc),
    (b"limit", Clause::Limit),
    (b"offset", Clause::Offset),
    (b"join", Clause::Join),
    (b"inner", Clause::Inner),
    (b"cross", Clause::Cross),
    (b"left", Clause::Left),
    (b"outer", Clause::Outer),
    (b"on", Clause::On),
    (b"using", Clause::Using),
];

/// The keywords of expressions.
const OPERATORS: [(&[u8], Kind); 11] = [
    (b"distinct", Kind::Distinct),
    (b"as", Kind::As),
    (b"and", Kind::And),
    (b"or", Kind::Or),
    (b"not", Kind::Not),
    (b"is", Kind::Is),
    (b"in", Kind::In),
    (b"like", Kind::Like),
    (b"between", Kind::Between),
    (b"null", Kind::Null),
    (b"cast", Kind::Cast),
];

/// The scalar functions.
const FUNCTIONS: [(&[u8], Function); 12] = [
    (b"length", Function::Length),
    (b"lower", Function::Lower),
    (b"upper", Function::Upper),
    (b"trim", Function::Trim),
    (b"substr", Function::Substr),
    (b"instr", Function::Instr),
    (b"replace", Function::Replace),
    (b"abs", Function::Abs),
    (b"typeof", Function::Typeof),
    (b"coalesce", Function::Coalesce),
    (b"ifnull", Function::Ifnull),
    (b"nullif", Function::Nullif),
];

/// Aggregates and types.
const OTHERS: [(&[u8], Word); 8] = [
    (b"count", Word::Aggregate(Fold::Count)),
    (b"sum", Word::Aggregate(Fold::Sum)),
    (b"min", Word::Aggregate(Fold::Min)),
    (b"max", Word::Aggregate(Fold::Max)),
    (b"integer", Word::IntegerType),
    (b"bigint", Word::IntegerType),
    (b"int", Word::IntegerType),
    (b"text", Word::TextType),
];

/// What stands in a table beside a word.
fn found_in<T: Copy>(table: &[(&[u8], T)], word: &[u8]) -> Option<T>
    ensures { result ≡ found_in (map (λ entry. (entry.0.now, entry.1)) table.now) word.now }
{
    let [(name, found), rest @ ..] = table else {
        return None;
    };
    if word.eq_ignore_ascii_case(name) {
        return Some(*found);
    }
    found_in(rest, word)
}

#[tactic(auto, unfolding(crate::specs::Words::clause_of))]
fn clause(word: &[u8]) -> Option<Clause>
    ensures { result ≡ clause_of word.now }
{
    found_in(&CLAUSES, word)
}

#[tactic(auto, unfolding(crate::specs::Words::operator_of))]
fn operator(word: &[u8]) -> Option<Kind>
    ensures { result ≡ operator_of word.now }
{
    found_in(&OPERATORS, word)
}

#[tactic(auto, unfolding(crate::specs::Words::function_of))]
fn function(word: &[u8]) -> Option<Function>
    ensures { result ≡ function_of word.now }
{
    found_in(&FUNCTIONS, word)
}

#[tactic(auto, unfolding(crate::specs::Words::other_of))]
fn other(word: &[u8]) -> Option<Word>
    ensures { result ≡ other_of word.now }
{
    found_in(&OTHERS, word)
}

/// What a name, plain or quoted, names besides a column or a table.
pub(crate) fn word(name: &[u8]) -> Word
    ensures { result ≡ word_of name.now }
{
    match function(name) {
        Some(function) => Word::Scalar(function),
        None => match other(name) {
            Some(word) => word,
            None => Word::Plain,
        },
    }
}

/// What a token of these bytes is where they have the form of a name: a keyword, or else a name. It takes no memory.
///
/// ```
/// kind_of_name(b"From")     // Kind::Clause(Clause::From)
/// kind_of_name(b"length")   // Kind::Name(Word::Scalar(Function::Length))
/// kind_of_name(b"union")    // Kind::Name(Word::Plain)
/// ```
pub fn kind_of_name(name: &[u8]) -> Kind
    ensures { result ≡ kind_of_word name.now }
{
    match clause(name) {
        Some(clause) => Kind::Clause(clause),
        None => match operator(name) {
            Some(kind) => kind,
            None => Kind::Name(word(name)),
        },
    }
}
