use osq_value::NoMemory;
use thiserror::Error;

/// Why a line of an audit log wasn't read: it isn't in the grammar, or memory was wanting.
#[derive(Clone, Copy, Debug, Error)]
pub enum AuditLineError {
    /// The bytes aren't a line of the grammar.
    #[error("line is not one of an audit log")]
    BadLine,
    /// Memory was wanting.
    #[error("out of memory")]
    NoMemory,
}

impl From<NoMemory> for AuditLineError {
    ghost use Rattle.std.specs.Prelude.{◌≡◌};
    ghost use Rattle.audit_records.specs.declared.error.AuditLineError.TheVariants as fault;

    ghost from_gives = { λ _ e. e ≡ fault.NoMemory };

    fn from(_error: NoMemory) -> Self {
        AuditLineError::NoMemory
    }
}
