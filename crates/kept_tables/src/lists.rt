//! Lists as texts of JSON, written item by item and read back.

ghost use Rattle.std.specs.Prelude.{◌≡◌, ℕ, List, [], ◌∷◌, ◌++◌, map, Some, IfOk, IfSome, OnOk, length, ◌==◌, nat_le};
ghost use Rattle.std.specs.List.{AllByRecursion};
ghost use Rattle.result_batches.specs.Json.{array};
ghost use Rattle.kept_tables.specs.declared.lists.TheConstants.{FULL};
ghost use Rattle.kept_tables.specs.Lists.{opened};

use batch_frames::spelled::Spelled;
use osq_value::{Bytes, NoMemory, Sequence};
use std::alloc::Global;
use std::marker::Model;

/// How long a text grows before the next one begins.
const FULL: usize = 65536;

/// The text of a list that is being written, without what closes it.
#[derive(Drop)]
pub struct ListText {
    text: Bytes,
}

impl Model for ListText {
    ghost use Rattle.std.specs.Prelude.{List, ℕ};

    ghost Value = { List ℕ };

    ghost view = { λ l. l.text };
}

impl ListText {
    /// The text before the first item.
    pub fn new(alloc: Global) -> ListText
        ensures { result ≡ opened [] }
    {
        ListText {
            text: Bytes::new(alloc),
        }
    }

    /// No item was added.
    pub fn is_empty(&self) -> bool
        ensures { result ≡ (length self.now == 0) }
    {
        self.text.as_slice().is_empty()
    }

    /// The next list should begin.
    pub fn is_full(&self) -> bool
        ensures { result ≡ nat_le FULL (length self.now) }
    {
        self.text.len() >= FULL
    }

    /// Adds an item.
    pub fn push<T: Spelled>(&mut self, item: &T) -> Result<(), NoMemory>
        ensures { (texts : List (List ℕ)) → self.old ≡ opened texts → OnOk result (self.new ≡ opened (texts ++ T.text item.now ∷ [])) }
    {
        if self.is_empty() {
            add_item(&mut self.text, b"[", item)
        } else {
            add_item(&mut self.text, b",", item)
        }
    }

    /// The text of the whole list.
    pub fn close(self) -> Result<Bytes, NoMemory>
        ensures { (texts : List (List ℕ)) → self ≡ opened texts → IfOk result (λ text. text ≡ array texts) }
    {
        if self.is_empty() {
            closed(self.text, b"[]")
        } else {
            closed(self.text, b"]")
        }
    }
}

/// Adds these bytes and an item.
fn add_item<T: Spelled>(text: &mut Bytes, before: &[u8], item: &T) -> Result<(), NoMemory>
    ensures { OnOk result (text.new ≡ (text.old ++ before.now) ++ T.text item.now) }
{
    text.extend(before)?;
    item.push_to(text)
}

/// The text with these bytes behind it.
fn closed(mut text: Bytes, end: &[u8]) -> Result<Bytes, NoMemory>
    ensures { IfOk result (λ closed. closed ≡ text ++ end.now) }
{
    text.extend(end)?;
    Ok(text)
}

/// The list whose text this is; none where it is no list's.
pub fn read_list<T: Spelled>(alloc: Global, text: &[u8]) -> Result<Option<Sequence<T>>, NoMemory>
    ensures same { IfOk result (λ read. IfSome read (λ items. array (map T.text items) ≡ text.now)) }
    ensures back { (items : List T) → AllByRecursion T.is_held items → text.now ≡ array (map T.text items) → IfOk result (λ read. read ≡ Some items) }
{
    let mut closed = Bytes::of(alloc, text)?;
    closed.extend(b"]")?;
    let (items, _) = Sequence::<T>::take(alloc, closed.as_slice())?;
    let mut again = Bytes::new(alloc);
    items.push_to(&mut again)?;
    if again.as_slice() == text {
        Ok(Some(items))
    } else {
        Ok(None)
    }
}
