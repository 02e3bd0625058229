//! What a session is given.

use osq_value::{SourceNameList, Str};
use pack_rules::Host;

/// What a session is given.
#[derive(Drop)]
pub struct Setup {
    /// The host that the rules of the configuration ask about.
    pub host: Host,
    /// The path of the configuration's file.
    pub config: Str,
    /// The sources, no two of one name.
    pub sources: SourceNameList,
    /// How many ticks the session runs.
    pub ticks: u64,
    /// How many records a step of a source takes at most.
    pub records: u64,
    /// Whether what is sealed is forwarded through the session's link.
    pub forward: bool,
}
