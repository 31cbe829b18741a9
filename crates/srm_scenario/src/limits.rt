//! The limits of a scenario file's numbers and arrays.

/// The last version of the format.
pub(crate) const LAST_VERSION: u64 = 5;

/// The last tick that a file may name: 2^40.
pub(crate) const LAST_TICK: u64 = 1_099_511_627_776;

/// The greatest delay of a link in one direction, in ticks.
pub(crate) const GREATEST_DELAY: u64 = 1_000_000;

/// The greatest constant of timers in versions 1 and 2, in thousandths.
pub(crate) const GREATEST_CONSTANT: u64 = 64_000;

/// The greatest value of a constant of timers that members adapt, in thousandths.
pub(crate) const GREATEST_LIMIT: u64 = 1_024_000;

/// The greatest scope of a request, and the most by which each backoff widens it, in hops.
pub(crate) const GREATEST_SCOPE: u64 = 65_535;

/// After how many backoffs a request has no scope, at most.
pub(crate) const MOST_TRIES: u64 = 10;

/// The last stream of random words.
pub(crate) const LAST_STREAM: u64 = 9_223_372_036_854_775_807;

/// The last number of a page.
pub(crate) const LAST_PAGE: u64 = 65_535;

/// The last number of an ink.
pub(crate) const LAST_INK: u64 = 4_294_967_295;

/// The greatest rate of a loss, in millionths.
pub(crate) const GREATEST_RATE: u64 = 1_000_000;

/// The last count that a drop may name, of the packets of a sender.
pub(crate) const LAST_COUNT: u64 = 4_294_967_295;

/// At most so many pages does a late member ask for.
pub(crate) const MOST_PAGES: u64 = 256;

/// At most so many draws may a file of version 1 or 2 list, and so many session messages, drops and outages.
pub(crate) const MOST_LISTED: u64 = 4096;

/// At most so many draws may the elements of a file from version 3 on stand for, and so many session messages, drops, outages and
/// losses.
pub(crate) const MOST_REPEATED: u64 = 65_535;

/// For at most so many elements may one stand.
pub(crate) const MOST_TIMES: u64 = 65_535;

/// The last number of a node from version 3 on.
pub(crate) const LAST_NODE: u64 = 65_534;
