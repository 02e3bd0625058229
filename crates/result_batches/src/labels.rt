//! What stands before the values of each row of a result.

ghost use Rattle.std.specs.Prelude.{◌≡◌, ◌<◌, ◌+◌, true, drop, length, bytes_eq, slice_index_or, [], IfOk};
ghost use Rattle.std.specs.List.{list_any};
ghost use Rattle.result_batches.specs.Labels.{label, labels_from};

use crate::escape::push_quoted;
use osq_value::{Bytes, NoMemory, Sequence, TextList};
use std::alloc::Global;

/// What stands before each column's value: the comma behind the column before, the name and the quote that opens the value.
/// It is empty for a column that isn't written, since a later one has its name.
pub type Labels = Sequence<Bytes>;

fn label_of(alloc: Global, is_first: bool, name: &str) -> Result<Bytes, NoMemory>
    ensures { IfOk result (λ made. made ≡ label is_first name.now) }
{
    let mut label = Bytes::new(alloc);
    if !is_first {
        label.extend(b",")?;
    }
    push_quoted(&mut label, name.as_bytes())?;
    label.extend(b":\"")?;
    Ok(label)
}

/// Whether a name behind this place is the name at it.
fn is_repeated(names: &TextList, at: usize) -> bool
    requires { at < length names.now }
    ensures { result ≡ list_any (bytes_eq (slice_index_or names.now at [])) (drop (at + 1) names.now) }
{
    let name = &names.as_slice()[at];
    for other in &names.as_slice()[at + 1..] {
        if name.is(other) {
            return true;
        }
    }
    false
}

/// The labels of columns with these names, made once for all rows.
pub fn labels_of(alloc: Global, names: &TextList) -> Result<Labels, NoMemory>
    ensures { IfOk result (λ labels. labels ≡ labels_from true names.now) }
{
    let mut labels = Labels::with_capacity(alloc, names.len())?;
    let mut is_first = true;
    for at in 0..names.len() {
        if is_repeated(names, at) {
            labels.push(Bytes::new(alloc))?;
        } else {
            labels.push(label_of(alloc, is_first, names.as_slice()[at].as_str())?)?;
            is_first = false;
        }
    }
    Ok(labels)
}
