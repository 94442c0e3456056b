//! Laws of the validity of tables, stated over their definitions. The functions do nothing.
ghost use Rattle.dt_check.specs.Greatest.{GreatestAlikeIsValid, GreatestIsOfClasses};
ghost use Rattle.dt_check.specs.Laws.{ValidEverywhere, ListedIsTable, OneFirstFailing};

/// A table is valid exactly where it holds at each segment.
pub fn valid_everywhere()
    ensures { ValidEverywhere }
{}

/// The list of a table's values above 0 gives each segment the table's value.
pub fn listed_is_table()
    ensures { ListedIsTable }
{}

/// At most one segment is the first one at which a table fails.
pub fn one_first_failing()
    ensures { OneFirstFailing }
{}

/// Where a table is valid, the table that gives each segment the greatest value among the segments alike to it is valid too.
pub fn greatest_alike_is_valid()
    ensures { GreatestAlikeIsValid }
{}

/// The greatest valid table gives alike segments one value.
pub fn greatest_is_of_classes()
    ensures { GreatestIsOfClasses }
{}
