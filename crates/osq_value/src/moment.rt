//! Moments.

/// 9999-12-31T23:59:59Z, in seconds since 1970-01-01T00:00:00Z: the last moment that a kept list takes.
pub const LAST_MOMENT: u64 = 253_402_300_799;
