//! What the same session adds is the same.

ghost use Rattle.run_laws.specs.OneList.{LinesGiveOne, OneConfiguration, SameEntries, SameLoads};

use osq_outside::Source;

/// Two sessions of one thread that are given the same, behind the same list, at the same readings of the clock and with the same answers polled, add the
/// same entries, where no step of theirs is left open.
pub fn same_entries<S: Source>()
    ensures { SameEntries S.tells }
{}

/// A step of a source of changes is settled by the source's bytes, where its lines are short.
pub fn lines_give_one<S: Source>()
    ensures { LinesGiveOne S.tells }
{}

/// A session over the lines of a load, a hundred at a step, adds one list: so each list that a self test may leave is the same.
pub fn same_loads<S: Source>()
    ensures { SameLoads S.tells }
{}

/// A document whose packs all stand in it has one configuration.
pub fn one_configuration()
    ensures { OneConfiguration }
{}
