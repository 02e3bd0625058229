//! Where a column stands.

use osq_value::Affinity;

/// Where a column stands: the number of its FROM table, its number there, and its place in a row
/// of the product.
#[derive(Clone, Copy)]
pub struct Place {
    /// The table's place in FROM, from 0.
    pub source: u32,
    /// The column's place in the table, from 0.
    pub column: u32,
    /// The column's place in a row of the product, from 0.
    pub at: u32,
    /// The column's affinity.
    pub affinity: Option<Affinity>,
}
