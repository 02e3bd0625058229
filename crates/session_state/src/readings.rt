//! How much of each source was taken, and which readings may be added.

ghost use Rattle.std.specs.Prelude.{◌≡◌, ◌≤◌, ◌^◌, IfOk, take};
ghost use Rattle.entry_model.specs.Next.{offset_at, with_offset};
ghost use Rattle.session_state.specs.Readings.{refusal_by};

use crate::state::AppendError;
use entry_model::restored::{Taken, TakenList};
use entry_summary::offsets::set_offset;
use osq_value::{Copied, NoMemory, Str};
use std::alloc::Global;

/// The greatest number that an event may have.
const LAST: u64 = 1 << 62;

/// Up to which byte the source was taken: 0 where nothing was.
pub fn offset_of(taken: &[Taken], source: &Str) -> u64
    ensures { result ≡ offset_at taken.now source.now }
{
    match taken.iter().find(|one| one.source.is(source)) {
        None => 0,
        Some(one) => one.offset,
    }
}

/// Why a reading may not be added that ends behind the byte `taken` and holds so many events, where `kept` bytes were
/// taken before.
pub(crate) fn refusal(kept: u64, taken: u64, last: u64, events: u64) -> Option<AppendError>
    requires { last ≤ 2 ^ 62 }
    ensures { result ≡ refusal_by kept last taken events }
{
    if taken <= kept {
        Some(AppendError::Backwards { kept })
    } else if events > LAST - last {
        Some(AppendError::NumbersSpent)
    } else {
        None
    }
}

fn copied(alloc: Global, taken: &[Taken]) -> Result<TakenList, NoMemory>
    ensures { IfOk result (λ copy. copy ≡ taken.now) }
{
    let mut copy = TakenList::new(alloc);
    for one in taken {
        copy.push(Taken {
            source: one.source.copy(alloc)?,
            offset: one.offset,
        })?;
    }
    Ok(copy)
}

/// The offsets after one more reading.
pub(crate) fn offsets_with(
    alloc: Global,
    taken: &[Taken],
    source: &Str,
    offset: u64,
) -> Result<TakenList, NoMemory>
    ensures { IfOk result (λ after. after ≡ with_offset taken.now source.now offset) }
{
    let mut after = copied(alloc, taken)?;
    set_offset(alloc, &mut after, source, offset)?;
    Ok(after)
}
