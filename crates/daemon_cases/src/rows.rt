//! Rows beside other rows.

use osq_value::{Row, RowList};

/// The two rows have the same values.
fn is_same((one, other): (&Row, &Row)) -> bool {
    one.as_slice() == other.as_slice()
}

/// The two lists have the same rows.
pub(crate) fn are_same(rows: &RowList, others: &RowList) -> bool {
    rows.len() == others.len() && rows.as_slice().iter().zip(others.as_slice()).all(is_same)
}
