//! The calls of totals and of a ledger with ample memory, and with each allocation refused in turn where these tests are run by
//! themselves.
pub(crate) mod stories;
mod threads;
mod totals;
mod worked;
