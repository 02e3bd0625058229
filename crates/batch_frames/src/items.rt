//! Arrays.

ghost use Rattle.std.specs.Prelude.{◌≡◌, ◌++◌, ◌<◌, length, map, OnOk};
ghost use Rattle.result_batches.specs.Json.{array, joined};
ghost use Rattle.batch_frames.specs.Ends.{behind_comma, has_item};

use crate::bytes::{behind, behind_comma};
use crate::spelled::Spelled;
use osq_value::{Bytes, NoMemory, Row, Sequence, Value};
use std::alloc::Global;

/// Adds items, with a comma between any two.
fn push_items<T: Spelled>(line: &mut Bytes, items: &[T]) -> Result<(), NoMemory>
    ensures { OnOk result (line.new ≡ line.old ++ joined (map T.text items.now)) }
{
    let [first, rest @ ..] = items else {
        return Ok(());
    };
    first.push_to(line)?;
    for item in rest {
        line.extend(b",")?;
        item.push_to(line)?;
    }
    Ok(())
}

/// Adds an array of these items.
fn push_array<T: Spelled>(line: &mut Bytes, items: &[T]) -> Result<(), NoMemory>
    ensures { OnOk result (line.new ≡ line.old ++ array (map T.text items.now)) }
{
    line.extend(b"[")?;
    push_items(line, items)?;
    line.extend(b"]")
}

/// Another item stands in front: there are bytes, and they don't begin with the bracket that closes an array.
fn has_item(bytes: &[u8]) -> bool
    ensures { result ≡ has_item bytes.now }
{
    match bytes.first() {
        Some(byte) => *byte != b']',
        None => false,
    }
}

/// What stands behind an item and a comma; nothing where no byte was taken.
fn behind_item<'a>(bytes: &[u8], rest: &'a [u8]) -> &'a [u8]
    ensures shorter { 0 < length bytes.now → length result.now < length bytes.now }
    ensures value { length rest.now < length bytes.now → result.now ≡ behind_comma rest.now }
{
    if rest.len() < bytes.len() {
        behind_comma(rest)
    } else {
        &[]
    }
}

impl<T: Spelled> Spelled for Sequence<T> {
    ghost use Rattle.std.specs.Prelude.{map};
    ghost use Rattle.std.specs.List.{AllByRecursion};
    ghost use Rattle.result_batches.specs.Json.{array};

    ghost text = { λ items. array (map T.text items) };

    ghost is_held = { λ items. AllByRecursion T.is_held items };

    fn push_to(&self, line: &mut Bytes) -> Result<(), NoMemory> {
        push_array(line, self.as_slice())
    }

    fn take(alloc: Global, bytes: &[u8]) -> Result<(Self, &[u8]), NoMemory> {
        T::begins();
        let mut items = Sequence::new(alloc);
        let mut rest = behind(bytes, 1);
        while has_item(rest) {
            let (item, after) = T::take(alloc, rest)?;
            items.push(item)?;
            rest = behind_item(rest, after);
        }
        Ok((items, behind(rest, 1)))
    }

    fn begins() {}
}

/// A row is spelled as the list of its values.
impl Spelled for Row {
    ghost use Rattle.std.specs.Prelude.{map};
    ghost use Rattle.std.specs.List.{AllByRecursion};
    ghost use Rattle.result_batches.specs.Frames.{json_value};
    ghost use Rattle.result_batches.specs.Json.{array};
    ghost use Rattle.batch_frames.specs.Texts.{IsHeldValue};

    ghost text = { λ values. array (map json_value values) };

    ghost is_held = { λ values. AllByRecursion IsHeldValue values };

    fn push_to(&self, line: &mut Bytes) -> Result<(), NoMemory> {
        push_array(line, self.as_slice())
    }

    fn take(alloc: Global, bytes: &[u8]) -> Result<(Self, &[u8]), NoMemory> {
        let (values, rest) = Sequence::<Value>::take(alloc, bytes)?;
        Ok((Row::from_vec(values.into_vec()), rest))
    }

    fn begins() {}
}
