//! Up to which number the events of each table have expired.

ghost use Rattle.std.specs.Prelude.{◌≡◌, ℕ, slice_index};
ghost use Rattle.entry_model.specs.Values.{floor_of};

use entry_model::entry::Entry;

/// One floor for each number that a table may have.
pub type Floors = [u64; 256];

/// Nothing has expired.
fn no_floors() -> Floors
    ensures { (table : ℕ) → slice_index result table ≡ 0 }
{
    [0; 256]
}

/// The floor of each table at the end of the list.
pub fn last_floors(entries: &[Entry]) -> Floors
    ensures { (table : ℕ) → slice_index result table ≡ floor_of entries.now table }
{
    let mut floors = no_floors();
    for entry in entries {
        if let Entry::Expired {
            table,
            floor,
            moment: _,
        } = entry
        {
            floors[table.0 as usize] = *floor;
        }
    }
    floors
}
