//! The links before a link at its ends.
ghost use Rattle.std.specs.Prelude.{◌≡◌, ◌==◌, if◌then◌else◌};

use crate::link::LinkSpec;

/// For each end of a link, one more than the number of the last earlier link that meets the node there, or 0 where there is none.
#[derive(Clone, Copy)]
pub(crate) struct Earlier {
    /// At the link's end `a`.
    pub(crate) a: u16,
    /// At its end `b`.
    pub(crate) b: u16,
}

impl Earlier {
    /// What is told of the end of this link that is the node, one of its ends.
    pub(crate) fn at(self, link: LinkSpec, node: u16) -> u16
        ensures { result ≡ (if link.a == node then self.a else self.b) }
    {
        if link.a == node { self.a } else { self.b }
    }
}
