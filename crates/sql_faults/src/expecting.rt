//! What a reading still expects, on a stack with the next part at its end.

ghost use Rattle.std.specs.Prelude.{◌≡◌, ◌<◌, ◌++◌, ◌∷◌, OnOk, IfOk, IfSome, length, Some};
ghost use Rattle.sql_faults.specs.Stack.{expects, Enters, Pops};

use crate::part::Part;
use std::alloc::AllocError;

/// Puts a part in front of what is expected.
pub(crate) fn expect(parts: &mut Vec<Part>, part: Part) -> Result<(), AllocError>
    ensures { OnOk result (expects parts.new.items ≡ part ∷ expects parts.old.items) }
{
    parts.push(part)?;
    Ok(())
}

/// Puts parts in front of what is expected, the first of them foremost.
pub(crate) fn expect_all(parts: &mut Vec<Part>, inner: &[Part]) -> Result<(), AllocError>
    ensures { OnOk result (expects parts.new.items ≡ inner.now ++ expects parts.old.items) }
{
    let [first, rest @ ..] = inner else {
        return Ok(());
    };
    expect_all(parts, rest)?;
    expect(parts, *first)
}

/// Puts the parts that an optional part has become in front of what is expected.
pub(crate) fn enter_with(parts: &mut Vec<Part>, inner: &[Part]) -> Result<bool, AllocError>
    ensures { IfOk result (λ is_entered. Enters (Some inner.now) is_entered parts.old.items parts.new.items) }
{
    expect_all(parts, inner)?;
    Ok(true)
}

/// Takes the part that is expected first.
pub(crate) fn pop(parts: &mut Vec<Part>) -> Option<Part>
    ensures taken { Pops (expects parts.old.items) result (expects parts.new.items) }
    ensures shorter { IfSome result (λ _. length parts.new.items < length parts.old.items) }
{
    parts.pop()
}
