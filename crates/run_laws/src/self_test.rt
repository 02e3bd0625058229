//! What a self test writes.

ghost use Rattle.run_laws.specs.SelfTest.{OneLine};

/// Each list that the session of a self test may leave gives the same line.
pub fn one_line()
    ensures { OneLine }
{}
