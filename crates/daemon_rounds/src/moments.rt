//! The moment of a tick.

ghost use Rattle.std.specs.Prelude.{◌<◌, IfOk, IfErr};
ghost use Rattle.osq_value.specs.declared.moment.TheConstants.{LAST_MOMENT};
ghost use Rattle.daemon_rounds.specs.Moments.{IsRead};

use osq_outside::Clock;
use osq_value::LAST_MOMENT;
use thiserror::Error;

/// The clock gave this moment, which is beyond the year 9999.
#[derive(Clone, Copy, Debug, Error)]
#[error("clock reading {moment} is beyond the year 9999")]
pub struct MomentTooLarge {
    /// The reading, in seconds since 1970 UTC, above LAST_MOMENT.
    pub moment: u64,
}

/// Reads the clock once. The moment is its reading, or the last moment, whichever is later.
/// Moments are in seconds since 1970 UTC. MomentTooLarge where the reading is above LAST_MOMENT.
pub fn read_moment<C: Clock>(clock: &mut C, last: u64) -> Result<u64, MomentTooLarge>
    ensures read { IfOk result (λ moment. IsRead C.reads clock.old clock.new last moment) }
    ensures beyond { IfErr result (λ refusal. C.reads clock.old refusal.moment clock.new × (LAST_MOMENT < refusal.moment)) }
{
    let reading = clock.now();
    if reading > LAST_MOMENT {
        return Err(MomentTooLarge { moment: reading });
    }
    Ok(reading.max(last))
}
