//! How many rows LIMIT and OFFSET look at.
ghost use Rattle.std.specs.Prelude.{◌≡◌, ◌+◌, IfSome};
ghost use Rattle.sql_meaning.specs.Cut.{passed_over};
ghost use Rattle.sql_groups.specs.Wanted.{IsCut};

/// The first rows are found while the others are walked over where they are at most so large a part of all, here a half. Where LIMIT
/// wants more, sorting all once costs less.
const PART: usize = 2;

/// How many of the first rows LIMIT and OFFSET look at, where LIMIT is there and these are few.
pub(crate) fn wanted(limit: Option<i64>, skip: Option<i64>, all: usize) -> Option<usize>
    ensures { IfSome result (λ count. IsCut limit skip count) }
{
    let Some(limit) = limit else {
        return None;
    };
    match usize::try_from(limit) {
        Ok(kept) => few(passed_over(skip), kept, all),
        Err(_) => None,
    }
}

/// The number of rows that OFFSET passes over.
fn passed_over(skip: Option<i64>) -> usize
    ensures { result ≡ passed_over skip }
{
    match skip {
        Some(number) => usize::try_from(number).unwrap_or(0),
        None => 0,
    }
}

/// The sum, where it is few of all.
fn few(passed: usize, kept: usize, all: usize) -> Option<usize>
    ensures { IfSome result (λ count. count ≡ passed + kept) }
{
    match passed.checked_add(kept) {
        Some(count) if count <= all / PART => Some(count),
        _ => None,
    }
}
