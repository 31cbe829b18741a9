//! The law of tables: the rows of a run are such that a report can make its tables of them.
ghost use Rattle.srm_model.specs.Tables.{TracesAreOrderly};

/// The rows of every run of an accepted scenario, and those of each first part of it, are orderly. Their keys rise.
/// Each is of one of the members, and so are the sources of the names that it lost. A member joins at most once, leaves
/// at most once, loses no name twice, and takes in as `fixed` only a name that it lost in an earlier row and has not
/// fixed since.
pub fn traces_are_orderly()
    ensures { TracesAreOrderly }
{}
