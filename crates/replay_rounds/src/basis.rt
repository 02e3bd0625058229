//! What a session runs by.

use config_files::Configured;
use daemon_rounds::setup::Setup;
use std::alloc::Global;

/// What a session runs by, from its beginning to its end.
#[derive(Drop)]
pub struct Basis {
    /// Where its memory comes from.
    pub alloc: Global,
    /// What it is given.
    pub setup: Setup,
    /// Its configuration, with the texts that it was read from.
    pub configured: Configured,
}
