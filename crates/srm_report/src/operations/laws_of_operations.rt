//! Laws of the table of operations.
ghost use Rattle.srm_report.specs.OperationLaws.{FirstsAreLeast, LosersAddUp, SendingsAddUp};

/// Of the losers of each operation each has recovered, or has left without that, or is open: none is counted twice or left out.
pub fn losers_add_up()
    ensures { LosersAddUp }
{}

/// In each run of an accepted scenario, and in each part of it up to a row, requests of all operations are as many as those of
/// all members, and repairs too: what the tables of operations and of members count is the same.
pub fn sendings_add_up()
    ensures { SendingsAddUp }
{}

/// In orderly rows `detected` is the time of the first row in which a member lost the operation, and `asked` that of the first
/// row in which one sent a request for it.
pub fn firsts_are_least()
    ensures { FirstsAreLeast }
{}
