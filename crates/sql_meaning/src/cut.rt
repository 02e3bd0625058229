//! The cut by OFFSET and LIMIT.
ghost use Rattle.std.specs.Prelude.{◌≡◌, take};
ghost use Rattle.sql_meaning.specs.Cut.{cut_by, kept_by, passed_over};

use osq_value::Sequence;

/// The rows behind the first `skip`, where a negative number or none skips none, and of these the first `limit`, where a
/// negative number or none keeps all. The rows stay where they are, and no memory is taken.
pub fn cut<T: Drop>(rows: Sequence<T>, limit: Option<i64>, skip: Option<i64>) -> Sequence<T>
    ensures { result ≡ cut_by limit skip rows }
{
    let mut kept = rows.into_vec();
    let passed = passed_over(skip).min(kept.len());
    let rest = kept.len() - passed;
    kept.rotate_left(passed);
    kept.truncate(rest);
    Sequence::from_vec(first_rows(kept, limit))
}

/// The rows that LIMIT keeps.
fn first_rows<T: Drop>(rows: Vec<T>, limit: Option<i64>) -> Vec<T>
    ensures { result.items ≡ kept_by limit rows.items }
{
    let mut kept = rows;
    if let Some(number) = limit {
        if let Ok(count) = usize::try_from(number) {
            kept.truncate(count);
        }
    }
    kept
}

/// The number of rows that OFFSET passes over.
fn passed_over(skip: Option<i64>) -> usize
    ensures { result ≡ passed_over skip }
{
    match skip {
        Some(number) => usize::try_from(number).unwrap_or(0),
        None => 0,
    }
}
