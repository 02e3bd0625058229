//! Fields of an object.

ghost use Rattle.std.specs.Prelude.{◌≡◌, ◌++◌, IfOk, OnOk};
ghost use Rattle.batch_frames.specs.Takes.{Takes};

use crate::bytes::behind;
use crate::spelled::Spelled;
use osq_value::{Bytes, NoMemory};
use std::alloc::Global;

/// Adds a value behind what stands before it.
pub(crate) fn push_field<T: Spelled>(
    line: &mut Bytes,
    front: &str,
    value: &T,
) -> Result<(), NoMemory>
    ensures { OnOk result (line.new ≡ line.old ++ front.now ++ T.text value.now) }
{
    line.extend(front.as_bytes())?;
    value.push_to(line)
}

/// The value behind what stands before it, and what stands behind its text. Of bytes that don't begin so it gives some value.
pub(crate) fn take_field<'a, T: Spelled>(
    alloc: Global,
    bytes: &'a [u8],
    front: &str,
) -> Result<(T, &'a [u8]), NoMemory>
    ensures { IfOk result (λ taken. Takes (λ value. front.now ++ T.text value) T.is_held bytes.now taken.0 taken.1.now) }
{
    T::take(alloc, behind(bytes, front.len()))
}
