//! Repairs with a scope, as a line keeps them.
ghost use Rattle.std.specs.Prelude.{◌≡◌, Some};
ghost use Rattle.srm_net.specs.declared.packet.Body.TheVariants as body;

use srm_net::packet::{Body, Local, Name};

/// A drawing operation that was sent again with a scope.
#[derive(Clone, Copy, Debug)]
pub(crate) struct LocalRepair {
    /// The operation's name.
    pub name: Name,
    /// What was drawn.
    pub ink: u32,
    /// How far the repair goes, and for whom.
    pub local: Local,
}

impl LocalRepair {
    /// What a packet carries with it. It does not allocate.
    pub(crate) fn into_body(self) -> Body
        ensures { result ≡ body.Repair self.name self.ink (Some self.local) }
    {
        Body::Repair {
            name: self.name,
            ink: self.ink,
            local: Some(self.local),
        }
    }
}
