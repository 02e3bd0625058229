//! Where queries have their runs, and whether a query has two, found by the hash of their keys.

ghost use Rattle.std.specs.Prelude.{◌≡◌, ◌↔◌, IfOk, IsTrue, OnOk, if◌then◌else◌, Some};
ghost use Rattle.pack_rules.specs.declared.schedule.QueryKey.{QueryKey as QueryKeyOf};
ghost use Rattle.pack_rules.specs.Keys.{same_key};
ghost use Rattle.entry_model.specs.Reserved.{HaveOwnKeys};
ghost use Rattle.query_cursors.specs.Places.{place_of, places_of};
ghost use Rattle.query_cursors.specs.Known.{known_at, first_known};

use entry_model::restored::Run;
use osq_value::NoMemory;
use pack_rules::schedule::{QueryKey, Scheduled};
use std::alloc::Global;
use std::collections::{HashMap, HashSet};
use std::hash::{Hash, Hasher};

/// A key that is looked up by its name and its text.
#[derive(Clone, Copy)]
pub(crate) struct Lent<'a> {
    /// The key that is lent.
    pub key: &'a QueryKey,
}

impl PartialEq for Lent<'_> {
    ghost use Rattle.std.specs.Cmp.{on_per, partial_equiv_from_equiv, decided};
    ghost use Rattle.pack_rules.specs.Keys.{same_key};
    ghost use Rattle.entry_model.proofs.Summaries.{same_key-Decides};

    ghost eq = { λ left right. same_key left.key.now right.key.now };

    ghost laws = { on_per (λ lent. lent.key.now) (partial_equiv_from_equiv (decided same_key same_key-Decides)) };

    fn eq(&self, other: &Self) -> bool {
        self.key.is(other.key)
    }
}

impl Eq for Lent<'_> {
    ghost use Rattle.std.specs.Cmp.{on_equiv, decided};
    ghost use Rattle.pack_rules.specs.Keys.{same_key};
    ghost use Rattle.entry_model.proofs.Summaries.{same_key-Decides};

    ghost laws = { on_equiv (λ lent. lent.key.now) (decided same_key same_key-Decides) };
}

impl Hash for Lent<'_> {
    ghost use Rattle.std.specs.Prelude.{◌++◌};
    ghost use Rattle.std.specs.Hash as fed;
    ghost use Rattle.std.specs.Hash.{on_Alike, same_Alike};
    ghost use Rattle.entry_model.proofs.Summaries.{same_key-Decides};

    ghost hash_input = { λ lent. fed.str lent.key.now.name ++ fed.str lent.key.now.text };

    ghost respects_eq = { (on_Alike (λ lent. lent.key.now) (same_Alike (λ key. fed.str key.name ++ fed.str key.text) same_key-Decides)).fed };

    fn hash<H: Hasher>(&self, state: &mut H) {
        self.key.name.hash(state);
        self.key.text.as_str().hash(state);
    }
}

/// The place of a key, if it is known.
fn known_place(known: &HashMap<Lent<'_>, usize>, key: &QueryKey) -> Option<usize>
    ensures { result ≡ known_at known.now key.now }
{
    known.get(&Lent { key }).copied()
}

/// Notes the place of a key, unless it has an earlier one.
fn note<'a>(
    known: &mut HashMap<Lent<'a>, usize>,
    key: &'a QueryKey,
    place: usize,
) -> Result<(), NoMemory>
    ensures { OnOk result ((query : QueryKeyOf) → known_at known.new query ≡ first_known (known_at known.old query) (same_key key.entry.now query) place) }
{
    if known_place(known, key).is_some() {
        return Ok(());
    }
    known.insert(Lent { key }, place)?;
    Ok(())
}

/// The place of the first run of each key.
fn known_places(alloc: Global, runs: &[Run]) -> Result<HashMap<Lent<'_>, usize>, NoMemory>
    ensures { IfOk result (λ known. (query : QueryKeyOf) → known_at known query ≡ place_of runs.entry.now query) }
{
    let mut known = HashMap::with_capacity(alloc, runs.len())?;
    for at in 0..runs.len() {
        note(&mut known, &runs[at].key, at)?;
    }
    Ok(known)
}

/// The places of the runs of these queries. It takes as many steps as there are runs and queries.
pub(crate) fn find_places(
    alloc: Global,
    runs: &[Run],
    queries: &[Scheduled],
) -> Result<Vec<Option<usize>>, NoMemory>
    ensures { IfOk result (λ places. places.items ≡ places_of runs.now queries.now) }
{
    let known = known_places(alloc, runs)?;
    let mut places = Vec::with_capacity(alloc, queries.len())?;
    for scheduled in queries {
        places.push(known_place(&known, &scheduled.key))?;
    }
    Ok(places)
}

/// No two of these runs are of one query. It takes as many steps as there are runs.
pub fn no_key_twice(alloc: Global, runs: &[Run]) -> Result<bool, NoMemory>
    ensures { IfOk result (λ own. IsTrue own ↔ HaveOwnKeys runs.now) }
{
    let mut known = HashSet::with_capacity(alloc, runs.len())?;
    for run in runs {
        if !known.insert(Lent { key: &run.key })? {
            return Ok(false);
        }
    }
    Ok(true)
}
