//! What has crossings to add up.
ghost use Rattle.std.specs.Prelude.{◌≡◌, ℕ, List};

use srm_cell::crossings::Crossings;
use srm_cell::job::Done;
use srm_interfaces::watched::WatchedDone;
use srm_member::participant::Participant;

/// What has crossings.
pub(crate) trait Counted {
    // Their numbers: five for each link.
    ghost numbers: { Self → List ℕ };

    /// The crossings.
    fn crossings(&self) -> &Crossings
        ensures { result.now ≡ numbers self.now };
}

impl<M: Participant> Counted for Done<M> {
    ghost numbers = { λ d. d.crossings };

    fn crossings(&self) -> &Crossings {
        &self.crossings
    }
}

impl<M: Participant, K: Drop> Counted for WatchedDone<M, K> {
    ghost numbers = { λ e. e.crossings };

    fn crossings(&self) -> &Crossings {
        &self.crossings
    }
}
