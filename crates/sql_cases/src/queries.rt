//! Queries with resolved names as text. Conjuncts of a condition stand between `AND`.

use crate::exprs::push_expr;
use crate::selects::push_count;
use crate::sql::{Condition, Expr, Order, Query, QueryItem, QuerySource, is_evented, names_of};
use crate::words::push_words;
use osq_value::{NoMemory, Str};
use std::alloc::Global;

/// Adds expressions, a mark before the first and another between two.
fn push_exprs(
    shown: &mut String,
    first: &str,
    between: &str,
    parts: &[Expr],
) -> Result<(), NoMemory> {
    let mut mark = first;
    for part in parts {
        shown.push_str(mark)?;
        push_expr(shown, part)?;
        mark = between;
    }
    Ok(())
}

fn push_condition(shown: &mut String, word: &str, condition: &Condition) -> Result<(), NoMemory> {
    push_exprs(shown, word, " AND ", condition.parts.as_slice())
}

fn push_items(shown: &mut String, word: &str, items: &[QueryItem]) -> Result<(), NoMemory> {
    let mut mark = word;
    for item in items {
        shown.push_str(mark)?;
        push_expr(shown, &item.expr)?;
        push_words(shown, &[" AS ", item.name.as_str()])?;
        mark = ", ";
    }
    Ok(())
}

fn push_sources(shown: &mut String, sources: &[QuerySource]) -> Result<(), NoMemory> {
    let mut mark = " FROM ";
    for source in sources {
        shown.push_str(if source.is_outer { " LEFT JOIN " } else { mark })?;
        push_words(
            shown,
            &[source.name.as_str(), " AS ", source.alias.as_str()],
        )?;
        push_condition(shown, " ON ", &source.on)?;
        mark = " JOIN ";
    }
    Ok(())
}

fn push_terms(shown: &mut String, terms: &[Order]) -> Result<(), NoMemory> {
    let mut mark = " ORDER BY ";
    for term in terms {
        shown.push_str(mark)?;
        push_expr(shown, &term.expr)?;
        shown.push_str(if term.is_descending { " DESC" } else { "" })?;
        mark = ", ";
    }
    Ok(())
}

/// Adds whether a query is grouped, and by what.
fn push_groups(shown: &mut String, query: &Query) -> Result<(), NoMemory> {
    shown.push_str(if query.is_grouped { " GROUPED" } else { "" })?;
    push_exprs(shown, " BY ", ", ", query.keys.as_slice())?;
    push_condition(shown, " HAVING ", &query.having)
}

/// Adds a query.
pub(crate) fn push_query(shown: &mut String, query: &Query) -> Result<(), NoMemory> {
    let word = if query.is_distinct {
        " SELECT DISTINCT "
    } else {
        " SELECT "
    };
    push_items(shown, word, query.items.as_slice())?;
    push_sources(shown, query.sources.as_slice())?;
    push_condition(shown, " WHERE ", &query.filter)?;
    push_groups(shown, query)?;
    push_terms(shown, query.terms.as_slice())?;
    push_count(shown, "LIMIT", query.limit)?;
    push_count(shown, "OFFSET", query.skip)
}

fn push_each(shown: &mut String, names: &[Str]) -> Result<(), NoMemory> {
    for name in names {
        push_words(shown, &[" ", name.as_str(), ";"])?;
    }
    Ok(())
}

/// Adds the names of the columns of the result of a query, and whether it is evented.
pub(crate) fn push_names(alloc: Global, shown: &mut String, query: &Query) -> Result<(), NoMemory> {
    let names = names_of(alloc, query)?;
    push_each(shown, names.as_slice())?;
    Ok(shown.push_str(if is_evented(query) { " evented" } else { "" })?)
}
