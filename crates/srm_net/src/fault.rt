//! Why a network is refused.

use std::alloc::AllocError;

/// Why [`Net::build`](crate::net::Net::build) or [`Drops::of`](crate::drops::Drops::of) gave nothing.
///
/// `build` looks for them in this order, except that memory may run out at any step.
#[derive(Clone, Copy, Debug, PartialEq, Eq)]
pub enum NetFault {
    /// The number of nodes is not 1 to [`MOST_NODES`](crate::limits::MOST_NODES), an end of a link is no node, the links are not
    /// one fewer than the nodes, or they do not connect them.
    NotTree,
    /// A link's delay, in either direction, is not 1 to [`GREATEST_LINK_DELAY`](crate::limits::GREATEST_LINK_DELAY) ticks.
    BadDelay,
    /// A member is on no node, or two share one.
    BadHost,
    /// Memory ran out.
    NoMemory,
}

impl From<AllocError> for NetFault {
    ghost use Rattle.std.specs.Prelude.{◌≡◌};
    ghost use Rattle.srm_net.specs.declared.fault.NetFault.{NetFault};
    ghost use Rattle.srm_net.specs.declared.fault.NetFault.TheVariants.{NoMemory};

    ghost from_gives = { λ _ fault. fault ≡ NoMemory };

    fn from(_: AllocError) -> Self {
        NetFault::NoMemory
    }
}
