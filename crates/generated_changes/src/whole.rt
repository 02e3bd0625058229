//! All lines as one text, for a load that stays in memory.

ghost use Rattle.std.specs.Prelude.{◌≡◌, IfOk};
ghost use Rattle.generated_changes.specs.Generated.{lines_of};

use crate::line::{number_behind, push_line};
use osq_value::{Bytes, NoMemory};
use std::alloc::Global;

/// The first so many lines behind the number `from`, which `write_lines` writes.
pub fn lines_of(alloc: Global, from: u64, count: u64) -> Result<Bytes, NoMemory>
    ensures { IfOk result (λ lines. lines ≡ lines_of from count) }
{
    let mut number = from;
    let mut lines = Bytes::new(alloc);
    for made in 0..count {
        number = number_behind(number);
        push_line(&mut lines, number, made + 1)?;
    }
    Ok(lines)
}
