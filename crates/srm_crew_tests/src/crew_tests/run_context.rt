//! What a test gives a crew beside its jobs.
use srm_ledger::ledger::Ledger;
use srm_net::net::Net;
use srm_scenario::scenario::Scenario;

/// A scenario, its network, and the ledger in which crossings are counted.
#[derive(Clone, Copy)]
pub(crate) struct RunContext<'a> {
    pub(crate) scenario: &'a Scenario,
    pub(crate) net: &'a Net,
    pub(crate) ledger: &'a Ledger,
}
