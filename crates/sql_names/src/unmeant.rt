//! Quoted names that begin with `#` and stand for nothing.

ghost use Rattle.std.specs.Prelude.{◌≡◌, ◌≤◌, length, map, IfOk};
ghost use Rattle.sql_tree.specs.Select.{select_of};
ghost use Rattle.sql_scope.specs.Scope.{AreNarrow};
ghost use Rattle.sql_scope.specs.Shown.{names_of};
ghost use Rattle.sql_scope.specs.declared.mention.Mention.{Mention as MentionValue};
ghost use Rattle.sql_names.specs.Kinds.{names_in as names_for};
ghost use Rattle.sql_names.specs.Least.{least};
ghost use Rattle.sql_names.specs.Unmeant.{begins_by_number as begins_so, column_unmeant as unmeant_column, mentioned_unmeant as unmeant_mention, unmeant_numbers};

use crate::faults::{is_word, names_in, place_if};
use crate::resolve::shown_of_select;
use crate::results::lesser;
use osq_value::NoMemory;
use sql_query::derived::Derived;
use sql_scope::mention::{Mention, Mentioned, mentions_of};
use sql_scope::naming::{Names, Rule, meaning_of};
use sql_scope::spelling::name_text;
use sql_scope::tables::scope_of;
use sql_tree::select::Select;
use sql_tree::tree::Name;
use std::alloc::Global;

/// Whether a name begins with `#`.
fn begins_by_number(name: &[u8]) -> bool
    ensures { result ≡ begins_so name.now }
{
    match name {
        [first, ..] => *first == b'#',
        [] => false,
    }
}

fn column_unmeant(alloc: Global, names: &Names, column: Name) -> Result<Option<usize>, NoMemory>
    requires { AreNarrow names.now.scope.now }
    ensures { IfOk result (λ place. place ≡ unmeant_column (names_of names.now) column) }
{
    let name = name_text(alloc, names.text, column)?;
    let is_unmeant = column.is_quoted
        && begins_by_number(name.as_str().as_bytes())
        && is_word(meaning_of(names, name.as_str()));
    Ok(place_if(is_unmeant, column.span.start))
}

fn mentioned_unmeant(
    alloc: Global,
    names: &Names,
    what: Mentioned,
) -> Result<Option<usize>, NoMemory>
    requires { AreNarrow names.now.scope.now }
    ensures { IfOk result (λ place. place ≡ unmeant_mention (names_of names.now) what) }
{
    match what {
        Mentioned::Column { table, column } => match table {
            None => column_unmeant(alloc, names, column),
            Some(_) => Ok(None),
        },
        Mentioned::Aggregate { .. } => Ok(None),
    }
}

fn mentions_unmeant(
    alloc: Global,
    names: &Names,
    found: &[Mention],
) -> Result<Option<usize>, NoMemory>
    requires { AreNarrow names.now.scope.now }
    ensures { IfOk result (λ place. place ≡ least (map (λ (m : MentionValue). unmeant_mention (names_for (names_of names.now) m.clause) m.what) found.now)) }
{
    let mut place = None;
    for mention in found {
        let there = names_in(names, mention.clause);
        place = lesser(place, mentioned_unmeant(alloc, &there, mention.what)?);
    }
    Ok(place)
}

/// The least place of a quoted name without a table that begins with `#` and is neither a column nor an
/// alias where it stands. Such a name is a text of its own, which can't be told from a literal behind `resolve_with`.
#[tactic(auto, unfolding(crate::specs::Unmeant::unmeant_numbers, crate::specs::Resolve::names_of_select))]
pub fn unmeant_number(
    alloc: Global,
    text: &str,
    select: &Select,
    derived: &[Derived],
) -> Result<Option<usize>, NoMemory>
    requires tables { length select.now.sources ≤ 16 }
    requires few { length derived.now ≤ 100 }
    ensures { IfOk result (λ place. place ≡ least (unmeant_numbers derived.now text.now (select_of select.now))) }
{
    let found = mentions_of(alloc, select)?;
    let scope = scope_of(alloc, derived, text, select.sources.as_slice())?;
    let shown = shown_of_select(alloc, derived, text, scope.as_slice(), select)?;
    let names = Names {
        derived,
        text,
        scope: scope.as_slice(),
        shown: shown.as_slice(),
        rule: Rule::Columns,
    };
    mentions_unmeant(alloc, &names, &found)
}
