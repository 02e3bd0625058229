//! Faults of a query's text.

use crate::printed::print_errors;
use sql_names::error::{NameError, NameKind};
use sql_parser::{ParseError, ParseKind};
use sql_texts::text::TextError;
use std::io;

const PARSED: [ParseKind; 5] = [
    ParseKind::NotInGrammar,
    ParseKind::NumberTooWide,
    ParseKind::TextTooLong,
    ParseKind::TooDeep,
    ParseKind::NoMemory,
];

const NAMED: [NameKind; 7] = [
    NameKind::TooManyTables,
    NameKind::NoTable,
    NameKind::NoColumn,
    NameKind::Ambiguous,
    NameKind::BadAggregate,
    NameKind::BareColumn,
    NameKind::NoMemory,
];

pub(crate) fn print<R: Print>(rt: &R) -> io::Result<()> {
    for kind in PARSED {
        print_errors(rt, "ParseError", &[ParseError { place: 7, kind }])?;
    }
    for kind in NAMED {
        print_errors(rt, "NameError", &[NameError { place: 14, kind }])?;
    }
    let kind = ParseKind::TooDeep;
    print_errors(
        rt,
        "TextError",
        &[TextError::Parse(ParseError { place: 64, kind })],
    )?;
    let kind = NameKind::NoTable;
    print_errors(
        rt,
        "TextError",
        &[TextError::Name(NameError { place: 14, kind })],
    )?;
    print_errors(rt, "TextError", &[TextError::NoMemory])
}
