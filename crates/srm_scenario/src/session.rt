//! A scenario on its network.
ghost use Rattle.std.specs.Prelude.{◌≡◌};
ghost use Rattle.srm_scenario.specs.Plain.{network_of};

use crate::scenario::Scenario;
use srm_net::net::Net;

/// A scenario, and the network that it describes.
#[derive(Clone, Copy)]
pub struct Session<'a> {
    /// What happens.
    pub scenario: &'a Scenario,
    /// Where it happens.
    pub net: &'a Net,
    pub ghost network: { net.now ≡ network_of scenario.now },
}
