//! Each name of a select for the table or the column that it is.

ghost use Rattle.std.specs.Prelude.{◌≡◌, ◌≢◌, ◌≤◌, [], Some, None, Err, map, length, IfOk, OnOk, IfErr};
ghost use Rattle.sql_tree.specs.View.{tree_of};
ghost use Rattle.sql_tree.specs.Select.{select_of};
ghost use Rattle.sql_names.specs.declared.error.NameKind.TheVariants.{NoMemory as WantOfMemory};
ghost use Rattle.sql_scope.specs.Mentions.{mentions_of_select};
ghost use Rattle.sql_names.specs.Resolve.{fault_of as fault_at, fault_among, fault_within, name_fault, name_fault_with, resolved, resolved_with, resolved_within, shown_in, names_within};
ghost use Rattle.sql_query.specs.Resolved.{query_of};
ghost use Rattle.sql_names.specs.Making.{query_tree};
ghost use Rattle.sql_scope.specs.Scope.{AreNarrow};
ghost use Rattle.sql_scope.specs.Shown.{shown_of, names_of};
ghost use Rattle.sql_query.specs.Standing.{IsStanding};
ghost use Rattle.sql_query.specs.View.{expr_of};

use crate::aggregates::bad_aggregate;
use crate::bare::bare_column_of;
use crate::error::{NameError, NameKind};
use crate::faults::{ambiguous, no_column, no_table, too_many_tables};
use crate::making::{keys_of, query_of_select};
use crate::results::results_of;
use osq_value::NoMemory;
use sql_query::derived::Derived;
use sql_query::query::{ExprList, Query};
use sql_scope::mention::{Mention, mentions_of};
use sql_scope::naming::{Names, Rule, Shown};
use sql_scope::scope::Seen;
use sql_scope::tables::scope_of;
use sql_tree::select::Select;
use std::alloc::Global;

fn fault_of(kind: NameKind, place: Option<usize>) -> Option<NameError>
    ensures { result ≡ fault_at kind place }
{
    match place {
        None => None,
        Some(place) => Some(NameError { place, kind }),
    }
}

/// The first kind of fault, where the tables are not too many.
fn first_fault(
    alloc: Global,
    names: &Names,
    keys: &ExprList,
    select: &Select,
    found: &[Mention],
) -> Result<Option<NameError>, NoMemory>
    requires narrow { AreNarrow names.now.scope.now }
    requires tables { length names.now.scope.now ≡ length select.now.sources }
    requires numbered { length names.now.derived.now ≤ 100 }
    ensures { IfOk result (λ fault. fault ≡ fault_among (names_of names.now) (map expr_of keys.now) (select_of select.now) found.now) }
{
    let place = no_table(alloc, names, select, found)?;
    if let Some(fault) = fault_of(NameKind::NoTable, place) {
        return Ok(Some(fault));
    }
    let place = no_column(alloc, names, select, found)?;
    if let Some(fault) = fault_of(NameKind::NoColumn, place) {
        return Ok(Some(fault));
    }
    let place = ambiguous(alloc, names, select, found)?;
    if let Some(fault) = fault_of(NameKind::Ambiguous, place) {
        return Ok(Some(fault));
    }
    let place = bad_aggregate(alloc, names, select, found)?;
    if let Some(fault) = fault_of(NameKind::BadAggregate, place) {
        return Ok(Some(fault));
    }
    let place = bare_column_of(alloc, names, keys, select, found)?;
    Ok(fault_of(NameKind::BareColumn, place))
}

/// The columns of the result, which stand for columns of the tables alone.
pub(crate) fn shown_of_select(
    alloc: Global,
    derived: &[Derived],
    text: &str,
    scope: &[Seen],
    select: &Select,
) -> Result<Vec<Shown>, NoMemory>
    requires { AreNarrow scope.now }
    ensures { IfOk result (λ shown. map shown_of shown.items ≡ shown_in derived.now text.now scope.now (select_of select.now)) }
{
    let names = Names {
        derived,
        text,
        scope,
        shown: &[],
        rule: Rule::Columns,
    };
    results_of(alloc, &names, select.items.as_slice())
}

/// The query of a select of at most sixteen tables, or its first fault.
fn resolve_within(
    alloc: Global,
    derived: &[Derived],
    text: &str,
    scope: &[Seen],
    select: &Select,
) -> Result<Query, NameError>
    requires narrow { AreNarrow scope.now }
    requires tables { length scope.now ≡ length select.now.sources }
    requires numbered { length derived.now ≤ 100 }
    ensures ok { IfOk result (λ q. resolved_within (names_within derived.now text.now scope.now (select_of select.now)) (select_of select.now) ≡ Some (query_of q)) }
    ensures sound { OnOk result (fault_within (names_within derived.now text.now scope.now (select_of select.now)) (select_of select.now) ≡ None) }
    ensures fault { IfErr result (λ e. e.kind ≢ WantOfMemory → fault_within (names_within derived.now text.now scope.now (select_of select.now)) (select_of select.now) ≡ Some e) }
{
    let found = mentions_of(alloc, select)?;
    let shown = shown_of_select(alloc, derived, text, scope, select)?;
    let names = Names {
        derived,
        text,
        scope,
        shown: shown.as_slice(),
        rule: Rule::Columns,
    };
    let keys = keys_of(alloc, &names, select.keys.as_slice())?;
    let fault = first_fault(alloc, &names, &keys, select, &found)?;
    match fault {
        Some(error) => Err(error),
        None => {
            let tables = Names {
                derived,
                text,
                scope,
                shown: &[],
                rule: Rule::Columns,
            };
            let query = query_of_select(alloc, &tables, shown, keys, select, &found)?;
            Ok(query)
        }
    }
}

/// The query that a select of a text stands for where FROM may mean these derived tables too, or
/// the first kind of fault that its names have, with that kind's least place. A name of FROM means the
/// first derived table of that name, and only else one of the catalogue. The spans of the select that
/// `parse` gives lie within the text; what another span holds beyond the text is passed over.
/// The kinds of faults are those of `NameKind`, in its order; a place is the number of bytes of the text before the fault.
#[tactic(auto, unfolding(crate::specs::Resolve::name_fault_with, crate::specs::Resolve::resolved_with))]
pub fn resolve_with(
    alloc: Global,
    text: &str,
    select: &Select,
    derived: &[Derived],
) -> Result<Query, NameError>
    requires few { length derived.now ≤ 100 }
    ensures ok { IfOk result (λ q. resolved_with derived.now text.now (select_of select.now) ≡ Some (query_of q)) }
    ensures standing { IfOk result (λ q. IsStanding derived.now (query_of q)) }
    ensures sound { OnOk result (name_fault_with derived.now text.now (select_of select.now) ≡ None) }
    ensures fault { IfErr result (λ e. e.kind ≢ WantOfMemory → name_fault_with derived.now text.now (select_of select.now) ≡ Some e) }
{
    let sources = select.sources.as_slice();
    match too_many_tables(sources) {
        Some(place) => Err(NameError {
            place,
            kind: NameKind::TooManyTables,
        }),
        None => {
            let scope = scope_of(alloc, derived, text, sources)?;
            resolve_within(alloc, derived, text, scope.as_slice(), select)
        }
    }
}

/// The query of a select, or its fault, as `resolve_with` says them where there is no derived table.
#[tactic(auto, unfolding(crate::specs::Resolve::name_fault, crate::specs::Resolve::resolved))]
pub fn resolve(alloc: Global, text: &str, select: &Select) -> Result<Query, NameError>
    ensures ok { IfOk result (λ q. resolved text.now (select_of select.now) ≡ Some (query_of q)) }
    ensures standing { IfOk result (λ q. IsStanding [] (query_of q)) }
    ensures sound { OnOk result (name_fault text.now (select_of select.now) ≡ None) }
    ensures fault { IfErr result (λ e. e.kind ≢ WantOfMemory → name_fault text.now (select_of select.now) ≡ Some e) }
{
    resolve_with(alloc, text, select, &[])
}
