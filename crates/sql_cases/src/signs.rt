//! The names of operators, functions and aggregates.

use crate::sql::{Fold, Function, Operator};

/// A thing behind its name.
pub(crate) type Named<T> = (&'static str, T);

const OPERATORS: [Named<Operator>; 18] = [
    ("OR", Operator::Or),
    ("AND", Operator::And),
    ("=", Operator::Equal),
    ("<>", Operator::NotEqual),
    ("IS", Operator::Is),
    ("IS NOT", Operator::IsNot),
    ("<", Operator::Less),
    ("<=", Operator::LessEqual),
    (">", Operator::Greater),
    (">=", Operator::GreaterEqual),
    ("LIKE", Operator::Like),
    ("NOT LIKE", Operator::NotLike),
    ("+", Operator::Add),
    ("-", Operator::Subtract),
    ("*", Operator::Multiply),
    ("/", Operator::Divide),
    ("%", Operator::Remainder),
    ("||", Operator::Concat),
];

const FUNCTIONS: [Named<Function>; 12] = [
    ("length", Function::Length),
    ("lower", Function::Lower),
    ("upper", Function::Upper),
    ("trim", Function::Trim),
    ("substr", Function::Substr),
    ("instr", Function::Instr),
    ("replace", Function::Replace),
    ("abs", Function::Abs),
    ("typeof", Function::Typeof),
    ("coalesce", Function::Coalesce),
    ("ifnull", Function::Ifnull),
    ("nullif", Function::Nullif),
];

const FOLDS: [Named<Fold>; 4] = [
    ("COUNT", Fold::Count),
    ("SUM", Fold::Sum),
    ("MIN", Fold::Min),
    ("MAX", Fold::Max),
];

/// The thing of this name.
pub(crate) fn named<T: Copy>(known: &[Named<T>], name: &str) -> Option<T> {
    for thing in known {
        if thing.0 == name {
            return Some(thing.1);
        }
    }
    None
}

/// The name of a thing; the empty text where none has one.
fn name_of<T: Copy + PartialEq>(known: &[Named<T>], wanted: T) -> &'static str {
    for thing in known {
        if thing.1 == wanted {
            return thing.0;
        }
    }
    ""
}

pub(crate) fn operator_sign(op: Operator) -> &'static str {
    name_of(OPERATORS.as_slice(), op)
}

pub(crate) fn function_name(function: Function) -> &'static str {
    name_of(FUNCTIONS.as_slice(), function)
}

pub(crate) fn fold_name(fold: Fold) -> &'static str {
    name_of(FOLDS.as_slice(), fold)
}

pub(crate) fn operator_of(sign: &str) -> Option<Operator> {
    named(OPERATORS.as_slice(), sign)
}

pub(crate) fn function_of(name: &str) -> Option<Function> {
    named(FUNCTIONS.as_slice(), name)
}

pub(crate) fn fold_of(name: &str) -> Option<Fold> {
    named(FOLDS.as_slice(), name)
}
