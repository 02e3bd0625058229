//! Trees of selects as text.

use crate::nodes::{push_name, push_node};
use crate::numbers::{push_number, push_reach};
use crate::sql::{Item, Name, Node, Select, Span, TableRef, Term};
use crate::words::push_words;
use osq_value::NoMemory;

fn push_alias(shown: &mut String, text: &str, alias: Option<Name>) -> Result<(), NoMemory> {
    match alias {
        None => Ok(()),
        Some(name) => {
            shown.push_str(" AS ")?;
            push_name(shown, text, name)
        }
    }
}

fn push_item(shown: &mut String, text: &str, item: &Item) -> Result<(), NoMemory> {
    match item {
        Item::All { .. } => Ok(shown.push_str("*")?),
        Item::AllOf { table } => {
            push_name(shown, text, *table)?;
            Ok(shown.push_str(".*")?)
        }
        Item::One { node, alias, .. } => {
            push_node(shown, text, node)?;
            push_alias(shown, text, *alias)
        }
    }
}

/// Adds a word and a condition, where there is one.
fn push_condition(
    shown: &mut String,
    text: &str,
    word: &str,
    condition: Option<&Node>,
) -> Result<(), NoMemory> {
    match condition {
        None => Ok(()),
        Some(node) => {
            shown.push_str(word)?;
            push_node(shown, text, node)
        }
    }
}

/// Adds the names of USING, where there are some.
fn push_using(shown: &mut String, text: &str, names: &[Name]) -> Result<(), NoMemory> {
    let mut mark = " USING (";
    for name in names {
        shown.push_str(mark)?;
        push_name(shown, text, *name)?;
        mark = ", ";
    }
    Ok(shown.push_str(if names.is_empty() { "" } else { ")" })?)
}

fn push_source(shown: &mut String, text: &str, source: &TableRef) -> Result<(), NoMemory> {
    push_name(shown, text, source.table)?;
    push_alias(shown, text, source.alias)?;
    push_condition(shown, text, " ON ", source.on.as_ref())?;
    push_using(shown, text, source.using.as_slice())
}

fn push_sources(shown: &mut String, text: &str, sources: &[TableRef]) -> Result<(), NoMemory> {
    let mut mark = " FROM ";
    for source in sources {
        shown.push_str(if source.is_outer { " LEFT JOIN " } else { mark })?;
        push_source(shown, text, source)?;
        mark = " JOIN ";
    }
    Ok(())
}

fn push_keys(shown: &mut String, text: &str, keys: &[Node]) -> Result<(), NoMemory> {
    let mut mark = " GROUP BY ";
    for key in keys {
        shown.push_str(mark)?;
        push_node(shown, text, key)?;
        mark = ", ";
    }
    Ok(())
}

fn push_terms(shown: &mut String, text: &str, terms: &[Term]) -> Result<(), NoMemory> {
    let mut mark = " ORDER BY ";
    for term in terms {
        shown.push_str(mark)?;
        push_node(shown, text, &term.node)?;
        shown.push_str(if term.is_descending { " DESC" } else { "" })?;
        mark = ", ";
    }
    Ok(())
}

/// Adds a word and a number, where there is one.
pub(crate) fn push_count(
    shown: &mut String,
    word: &str,
    count: Option<i64>,
) -> Result<(), NoMemory> {
    match count {
        None => Ok(()),
        Some(number) => {
            push_words(shown, &[" ", word, " "])?;
            push_number(shown, number)
        }
    }
}

fn push_head(shown: &mut String, text: &str, select: &Select) -> Result<(), NoMemory> {
    let mut mark = if select.is_distinct {
        " SELECT DISTINCT "
    } else {
        " SELECT "
    };
    for item in select.items.as_slice() {
        shown.push_str(mark)?;
        push_item(shown, text, item)?;
        mark = ", ";
    }
    push_sources(shown, text, select.sources.as_slice())?;
    push_condition(shown, text, " WHERE ", select.filter.as_ref())
}

/// Adds a select.
pub(crate) fn push_select(shown: &mut String, text: &str, select: &Select) -> Result<(), NoMemory> {
    push_head(shown, text, select)?;
    push_keys(shown, text, select.keys.as_slice())?;
    let having = select.having.as_ref().map(|having| &having.node);
    push_condition(shown, text, " HAVING ", having)?;
    push_terms(shown, text, select.terms.as_slice())?;
    push_count(shown, "LIMIT", select.limit)?;
    push_count(shown, "OFFSET", select.skip)
}

/// Where an item stands, and where its alias does.
fn places(item: &Item) -> (Span, Option<Span>) {
    match item {
        Item::All { place } => {
            let span = Span {
                start: *place,
                end: *place,
            };
            (span, None)
        }
        Item::AllOf { table } => (table.span, None),
        Item::One { span, alias, .. } => (*span, alias.map(|name| name.span)),
    }
}

/// Adds a word, and the places of a span.
fn push_span_places(shown: &mut String, word: &str, span: Span) -> Result<(), NoMemory> {
    shown.push_str(word)?;
    push_reach(shown, span.start, span.end)
}

/// Adds where each item of a select stands: from its first byte to behind its last one.
pub(crate) fn push_places(shown: &mut String, select: &Select) -> Result<(), NoMemory> {
    for item in select.items.as_slice() {
        let (span, alias) = places(item);
        push_span_places(shown, " ", span)?;
        if let Some(name) = alias {
            push_span_places(shown, " AS ", name)?;
        }
        shown.push_str(";")?;
    }
    Ok(())
}
