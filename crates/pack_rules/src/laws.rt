//! A law of schedules, which speaks of the definitions alone.

ghost use Rattle.pack_rules.specs.Sound.{Soundness};

/// Each schedule of a configuration whose numbers are within their bounds is one that a session may run: it has at most 10000
/// queries, their names rise, each text has a query, only texts that name an evented table are evented, and its numbers are
/// within the bounds.
pub fn soundness()
    ensures { Soundness }
{}
