//! Rows and events as texts of a bounded length.

ghost use Rattle.std.specs.Prelude.{◌≡◌, ◌==◌, ℕ, List, map, if◌then◌else◌, IfOk};
ghost use Rattle.osq_value.specs.declared.value.Value.{Value};
ghost use Rattle.entry_model.specs.declared.restored.Live.{Live};
ghost use Rattle.kept_tables.specs.Edits.{behind, event_groups, is_full, own, rows_text};
ghost use Rattle.kept_tables.specs.Groups.{Grouped, all_groups, groups, roomy, with_item, no_groups};
ghost use Rattle.kept_tables.specs.Parts.{AreTexts, AreEventTexts, full_events, part_text};

use crate::counts::after;
use crate::lists::ListText;
use osq_value::{Bytes, Event, NoMemory, Row, Sequence};
use std::alloc::Global;

/// Rows as texts: those that are full, and the one that grows.
#[derive(Drop)]
struct RowTexts {
    full: Sequence<Bytes>,
    growing: ListText,
}

impl RowTexts {
    fn new(alloc: Global) -> RowTexts
        ensures { AreTexts result no_groups }
    {
        RowTexts {
            full: Sequence::new(alloc),
            growing: ListText::new(alloc),
        }
    }

    /// The same with room in the text that grows.
    fn roomy(self, alloc: Global) -> Result<RowTexts, NoMemory>
        ensures { (held : Grouped (List Value)) → AreTexts self held → IfOk result (λ texts. AreTexts texts (roomy is_full held)) }
    {
        if !self.growing.is_full() {
            return Ok(self);
        }
        let RowTexts { mut full, growing } = self;
        full.push(growing.close()?)?;
        Ok(RowTexts {
            full,
            growing: ListText::new(alloc),
        })
    }

    /// The same with one more row.
    fn with_row(self, alloc: Global, row: &Row) -> Result<RowTexts, NoMemory>
        ensures { (held : Grouped (List Value)) → AreTexts self held → IfOk result (λ texts. AreTexts texts (with_item is_full held row.now)) }
    {
        let RowTexts { full, mut growing } = self.roomy(alloc)?;
        growing.push(row)?;
        Ok(RowTexts { full, growing })
    }

    /// All of the texts.
    fn close(self) -> Result<Sequence<Bytes>, NoMemory>
        ensures { (held : Grouped (List Value)) → AreTexts self held → IfOk result (λ texts. texts ≡ map rows_text (all_groups held)) }
    {
        let RowTexts { mut full, growing } = self;
        if growing.is_empty() {
            return Ok(full);
        }
        full.push(growing.close()?)?;
        Ok(full)
    }
}

/// The texts of these rows, in order: no text where there are no rows.
pub(crate) fn row_texts(alloc: Global, rows: &[Row]) -> Result<Sequence<Bytes>, NoMemory>
    ensures { IfOk result (λ texts. texts ≡ map rows_text (groups is_full rows.now)) }
{
    let mut texts = RowTexts::new(alloc);
    for row in rows {
        texts = texts.with_row(alloc, row)?;
    }
    texts.close()
}

/// Some events of one table, by rising numbers.
#[derive(Drop)]
pub(crate) struct EventPart {
    /// Their numbers.
    pub numbers: Sequence<u64>,
    /// The text of their rows.
    pub rows: Bytes,
}

/// Events of one table as texts: those that are full, and the one that grows.
#[derive(Drop)]
struct EventTexts {
    full: Sequence<EventPart>,
    numbers: Sequence<u64>,
    growing: ListText,
}

impl EventTexts {
    fn new(alloc: Global) -> EventTexts
        ensures { AreEventTexts result no_groups }
    {
        EventTexts {
            full: Sequence::new(alloc),
            numbers: Sequence::new(alloc),
            growing: ListText::new(alloc),
        }
    }

    /// The same with room in the text that grows.
    fn roomy(self, alloc: Global) -> Result<EventTexts, NoMemory>
        ensures { (held : Grouped Live) → AreEventTexts self held → IfOk result (λ texts. AreEventTexts texts (roomy full_events held)) }
    {
        if !self.growing.is_full() {
            return Ok(self);
        }
        let EventTexts {
            mut full,
            numbers,
            growing,
        } = self;
        let rows = growing.close()?;
        full.push(EventPart { numbers, rows })?;
        Ok(EventTexts {
            full,
            numbers: Sequence::new(alloc),
            growing: ListText::new(alloc),
        })
    }

    /// The same with one more event.
    fn with_event(self, alloc: Global, number: u64, row: &Row) -> Result<EventTexts, NoMemory>
        ensures { (held : Grouped Live) → (event : Live) → event.number ≡ number → event.row ≡ row.now → AreEventTexts self held → IfOk result (λ texts. AreEventTexts texts (with_item full_events held event)) }
    {
        let EventTexts {
            full,
            mut numbers,
            mut growing,
        } = self.roomy(alloc)?;
        numbers.push(number)?;
        growing.push(row)?;
        Ok(EventTexts {
            full,
            numbers,
            growing,
        })
    }

    /// The same with one more event, if it is one of this table.
    fn with_own(
        self,
        alloc: Global,
        table: u8,
        number: u64,
        event: &Event,
    ) -> Result<EventTexts, NoMemory>
        ensures { (held : Grouped Live) → (live : Live) → live.number ≡ number → live.row ≡ event.now.row → AreEventTexts self held → IfOk result (λ texts. AreEventTexts texts (if event.now.table.0 == table then with_item full_events held live else held)) }
    {
        if event.table.0 != table {
            return Ok(self);
        }
        self.with_event(alloc, number, &event.row)
    }

    /// All of the parts.
    fn close(self) -> Result<Sequence<EventPart>, NoMemory>
        ensures { (held : Grouped Live) → AreEventTexts self held → IfOk result (λ parts. parts ≡ map part_text (all_groups held)) }
    {
        let EventTexts {
            mut full,
            numbers,
            growing,
        } = self;
        if growing.is_empty() {
            return Ok(full);
        }
        let rows = growing.close()?;
        full.push(EventPart { numbers, rows })?;
        Ok(full)
    }
}

/// The events of a table among these, of which the first has the number behind this one.
pub(crate) fn event_parts(
    alloc: Global,
    before: u64,
    table: u8,
    events: &[Event],
) -> Result<Sequence<EventPart>, NoMemory>
    ensures { (moment : ℕ) → IfOk result (λ parts. parts ≡ map part_text (event_groups (own table (behind before moment events.now)))) }
{
    let mut texts = EventTexts::new(alloc);
    let mut number = before;
    for event in events {
        number = after(number)?;
        texts = texts.with_own(alloc, table, number, event)?;
    }
    texts.close()
}
