//! Lines that are written in pieces, so that a load of any size takes little memory.

ghost use Rattle.std.specs.Prelude.{◌≡◌, ◌+◌, ◌≤◌, ◌++◌, ℕ, take, MatchResult};
ghost use Rattle.osq_outside.specs.Causes.{FaultHasCause, HasCause};
ghost use Rattle.generated_changes.specs.Writing.{IsHeld, WritesLines};

use crate::line::{number_behind, push_line};
use osq_outside::{Sink, SinkFault, write_all};
use osq_value::{Bytes, NoMemory};
use std::alloc::Global;
use thiserror::Error;

/// Why not all lines are written.
#[derive(Clone, Copy, Debug, Error)]
pub enum WriteError {
    /// The sink failed.
    #[error("failed to write to the sink")]
    SinkFault,
    /// Memory was wanting.
    #[error("out of memory")]
    NoMemory,
}

impl From<NoMemory> for WriteError {
    ghost use Rattle.std.specs.Prelude.{◌≡◌};
    ghost use Rattle.generated_changes.specs.declared.writing.WriteError.{WriteError};

    ghost from_gives = { λ _ e. e ≡ WriteError.NoMemory };

    fn from(_error: NoMemory) -> Self {
        WriteError::NoMemory
    }
}

impl From<SinkFault> for WriteError {
    ghost use Rattle.std.specs.Prelude.{◌≡◌};
    ghost use Rattle.generated_changes.specs.declared.writing.WriteError.{WriteError};

    ghost from_gives = { λ _ e. e ≡ WriteError.SinkFault };

    fn from(_error: SinkFault) -> Self {
        WriteError::SinkFault
    }
}

/// So many bytes are held at least before they are written.
const PIECE: usize = 65536;

/// Writes the bytes that are held where they are a piece, and gives back those that are held on.
fn write_piece<O: Sink>(alloc: Global, sink: &mut O, held: Bytes) -> Result<Bytes, SinkFault>
    ensures bytes { O.tells → MatchResult result (λ rest. IsHeld (O.written sink.old) (O.written sink.new) held rest) (λ _. (n : ℕ) × (O.written sink.new ≡ O.written sink.old ++ take n held)) }
    ensures cause { HasCause (O.faults sink.old) (O.faults sink.new) result }
{
    if held.len() < PIECE {
        return Ok(held);
    }
    write_all(sink, held.as_slice())?;
    Ok(Bytes::new(alloc))
}

/// Writes the first so many lines behind the number `from`: the n-th is that of the n-th number behind it, at the moment n.
/// SinkFault where the sink failed; after a refusal a front part of the lines was written.
pub fn write_lines<O: Sink>(
    alloc: Global,
    from: u64,
    count: u64,
    sink: &mut O,
) -> Result<(), WriteError>
    ensures lines { O.tells → WritesLines (O.written sink.old) (O.written sink.new) from count result }
    ensures cause { FaultHasCause WriteError.SinkFault (O.faults sink.old) (O.faults sink.new) result }
{
    let mut number = from;
    let mut held = Bytes::new(alloc);
    for made in 0..count {
        number = number_behind(number);
        push_line(&mut held, number, made + 1)?;
        held = write_piece(alloc, sink, held)?;
    }
    write_all(sink, held.as_slice())?;
    Ok(())
}
