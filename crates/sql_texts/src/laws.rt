//! The laws of what texts and queries mean, which speak of the definitions alone.

ghost use Rattle.sql_texts.specs.Laws.{AreWide, AreWideByItems, DependOnNamed, DependOnSources};

/// Each row of the result of a text has a value for each of the names of its columns.
pub fn widths()
    ensures { AreWide }
{}

/// What a text means depends on the tables alone that its FROM names: over views that agree in them its rows are the same.
pub fn views()
    ensures { DependOnNamed }
{}

/// Each row of the result of a query has a value for each of its items.
pub fn query_widths()
    ensures { AreWideByItems }
{}

/// What a query means depends on the tables alone that stand in its FROM: over views that agree in them its rows are the same.
pub fn query_views()
    ensures { DependOnSources }
{}
