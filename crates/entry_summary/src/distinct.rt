//! Lists in which no two things are alike.
//!
//! Each thing is compared with those behind it, since no memory is taken: the pairs of a list are walked, up to the first
//! two that are alike. Where memory may be taken, the numbers of runs are looked up by their hashes.

ghost use Rattle.std.specs.Prelude.{◌≡◌, ◌==◌, ◌↔◌, IfOk, IsTrue, bytes_eq};
ghost use Rattle.std.specs.List.{list_any};
ghost use Rattle.pack_rules.specs.Keys.{same_key};
ghost use Rattle.entry_model.specs.Reserved.{HaveOwnKeys};
ghost use Rattle.entry_summary.specs.Distinct.{HaveOwnNumbers, HaveOwnSources, HaveOwnTables};

use entry_model::restored::{Run, SetTable, Taken};
use osq_value::{NoMemory, Str, TableId};
use pack_rules::schedule::QueryKey;
use std::alloc::Global;
use std::collections::HashSet;

/// The table is among these.
fn has_table(tables: &[SetTable], table: TableId) -> bool
    ensures { result ≡ list_any (λ set. set.table.0 == table.0) tables.now }
{
    tables.iter().any(|set| set.table.0 == table.0)
}

/// No table was set twice.
pub(crate) fn have_own_tables(tables: &[SetTable]) -> bool
    ensures { IsTrue result ↔ HaveOwnTables tables.now }
{
    for at in 0..tables.len() {
        if has_table(&tables[at + 1..], tables[at].table) {
            return false;
        }
    }
    true
}

/// The source is among these.
fn has_source(taken: &[Taken], source: &Str) -> bool
    ensures { result ≡ list_any (λ taken. bytes_eq taken.source source.now) taken.now }
{
    taken.iter().any(|taken| taken.source.is(source))
}

/// No source stands twice.
pub(crate) fn have_own_sources(taken: &[Taken]) -> bool
    ensures { IsTrue result ↔ HaveOwnSources taken.now }
{
    for at in 0..taken.len() {
        if has_source(&taken[at + 1..], &taken[at].source) {
            return false;
        }
    }
    true
}

/// A run of the query is among these.
fn has_key(runs: &[Run], key: &QueryKey) -> bool
    ensures { result ≡ list_any (λ run. same_key run.key key.now) runs.now }
{
    runs.iter().any(|run| run.key.is(key))
}

/// No query has two runs.
pub fn have_own_keys(runs: &[Run]) -> bool
    ensures { IsTrue result ↔ HaveOwnKeys runs.now }
{
    for at in 0..runs.len() {
        if has_key(&runs[at + 1..], &runs[at].key) {
            return false;
        }
    }
    true
}

/// A run whose last batch has this number is among these.
fn has_number(runs: &[Run], number: u64) -> bool
    ensures { result ≡ list_any (λ run. run.number == number) runs.now }
{
    runs.iter().any(|run| run.number == number)
}

/// No batch is the last one of two queries.
pub(crate) fn have_own_numbers(runs: &[Run]) -> bool
    ensures { IsTrue result ↔ HaveOwnNumbers runs.now }
{
    for at in 0..runs.len() {
        if has_number(&runs[at + 1..], runs[at].number) {
            return false;
        }
    }
    true
}

/// No batch is the last one of two queries. It takes as many steps as there are runs.
pub(crate) fn no_number_twice(alloc: Global, runs: &[Run]) -> Result<bool, NoMemory>
    ensures { IfOk result (λ own. IsTrue own ↔ HaveOwnNumbers runs.now) }
{
    let mut known = HashSet::with_capacity(alloc, runs.len())?;
    for run in runs {
        if !known.insert(run.number)? {
            return Ok(false);
        }
    }
    Ok(true)
}
