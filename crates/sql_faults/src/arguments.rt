//! Which calls the grammar allows.

ghost use Rattle.std.specs.Prelude.{◌≡◌};
ghost use Rattle.sql_faults.specs.Calls.{is_known, is_allowed, is_count, folds, takes, takes_shape, type_of};
ghost use Rattle.sql_faults.specs.Reading.{one_longer, later};

use sql_tokens::token::{MAX_OPERATORS, Word};
use sql_tree::functions::{Fold, Function};

/// What stands between the parentheses of a call. Arguments are counted as far as 1000.
#[derive(Clone, Copy)]
pub enum Shape {
    /// The sign `*`.
    All,
    /// DISTINCT and so many arguments.
    Distinct(usize),
    /// So many arguments.
    Plain(usize),
}

pub(crate) fn one_more_of(count: usize) -> usize
    ensures { result ≡ later count }
{
    if count < MAX_OPERATORS {
        count + 1
    } else {
        count
    }
}

/// The same shape with one more argument.
pub fn one_more_argument(shape: Shape) -> Shape
    ensures { result ≡ one_longer shape }
{
    match shape {
        Shape::All => Shape::All,
        Shape::Distinct(count) => Shape::Distinct(one_more_of(count)),
        Shape::Plain(count) => Shape::Plain(one_more_of(count)),
    }
}

/// Whether a name is that of a function or an aggregate.
pub fn is_function(word: Word) -> bool
    ensures { result ≡ is_known word }
{
    matches!(word, Word::Scalar(_) | Word::Aggregate(_))
}

fn takes_arguments(function: Function, count: usize) -> bool
    ensures { result ≡ takes function count }
{
    match function {
        Function::Substr => count == 2 || count == 3,
        Function::Instr | Function::Ifnull | Function::Nullif => count == 2,
        Function::Replace => count == 3,
        Function::Coalesce => count >= 2,
        Function::Length
        | Function::Lower
        | Function::Upper
        | Function::Trim
        | Function::Abs
        | Function::Typeof => count == 1,
    }
}

fn is_counting(fold: Fold) -> bool
    ensures { result ≡ is_count fold }
{
    matches!(fold, Fold::Count)
}

/// An aggregate has one argument. `*` and DISTINCT stand in COUNT alone.
pub fn folds_shape(fold: Fold, shape: Shape) -> bool
    ensures { result ≡ folds fold shape }
{
    match shape {
        Shape::All => is_counting(fold),
        Shape::Distinct(count) => is_counting(fold) && count == 1,
        Shape::Plain(count) => count == 1,
    }
}

/// A scalar function has neither `*` nor DISTINCT.
pub fn takes_call(function: Function, shape: Shape) -> bool
    ensures { result ≡ takes_shape function shape }
{
    match shape {
        Shape::Plain(count) => takes_arguments(function, count),
        Shape::All | Shape::Distinct(_) => false,
    }
}

/// Whether a call of this name may have such arguments.
pub(crate) fn is_allowed_call(word: Word, shape: Shape) -> bool
    ensures { result ≡ is_allowed word shape }
{
    match word {
        Word::Scalar(function) => takes_call(function, shape),
        Word::Aggregate(fold) => folds_shape(fold, shape),
        Word::Plain | Word::IntegerType | Word::TextType => false,
    }
}

/// Whether a type's name is that of the texts, where it is a type.
pub fn type_of_word(word: Word) -> Option<bool>
    ensures { result ≡ type_of word }
{
    match word {
        Word::IntegerType => Some(false),
        Word::TextType => Some(true),
        Word::Plain | Word::Scalar(_) | Word::Aggregate(_) => None,
    }
}
