//! Names of drawing operations, and packets.
ghost use Rattle.std.specs.Prelude.{◌≡◌, ◌+◌, ◌*◌, ◌<◌, ◌^◌, refl};
ghost use Rattle.std.specs.Cmp.{on_total, eq_by_cmp_equiv, partial_equiv_from_equiv, partial_order_from_total};
ghost use Rattle.std.specs.Cmp.Lexicographic.{nat_list_cmp_total};
ghost use Rattle.std.specs.Ordering.{eq_by_cmp, as_partial_cmp};
ghost use Rattle.srm_net.specs.Names.{numbers_of_name, name_cmp};

use crate::sequence::Sequence;
use std::alloc::AllocError;
use std::cmp::Ordering;

/// A packet's identity: its sender, and how many packets that member sent before it (this project's own).
#[derive(Clone, Copy, Debug, PartialEq, Eq, PartialOrd, Ord, Hash)]
pub struct PacketId {
    /// The member that sent the packet.
    pub sender: u16,
    /// The packet's place among all that its sender sends, from 0.
    pub count: u64,
}

/// The name of a drawing operation (Floyd et al. 1997): who drew it, on which page, and its number there.
///
/// Names are compared by source, page and number, as one number, which the fields in this order are in memory.
#[derive(Clone, Copy, Debug)]
pub struct Name {
    /// The operation's number on that page, from 0.
    pub number: u32,
    /// The page of that source.
    pub page: u16,
    /// The member that drew.
    pub source: u16,
}

impl Name {
    // Source, page and number as one number.
    #[inline(always)]
    fn as_number(self) -> u64
        ensures value { result ≡ (self.source * 2 ^ 16 + self.page) * 2 ^ 32 + self.number }
        ensures parts { (self.page < 2 ^ 16) × (self.number < 2 ^ 32) }
    {
        (u64::from(self.source) * 65_536 + u64::from(self.page)) * 4_294_967_296
            + u64::from(self.number)
    }
}

impl PartialEq for Name {
    ghost eq = { eq_by_cmp name_cmp };

    ghost laws = { partial_equiv_from_equiv (eq_by_cmp_equiv (on_total numbers_of_name nat_list_cmp_total)) };

    #[inline(always)]
    fn eq(&self, other: &Name) -> bool {
        self.cmp(other).is_eq()
    }
}

impl Eq for Name {
    ghost laws = { eq_by_cmp_equiv (on_total numbers_of_name nat_list_cmp_total) };
}

impl PartialOrd for Name {
    ghost partial_cmp = { as_partial_cmp name_cmp };

    ghost laws = { partial_order_from_total (on_total numbers_of_name nat_list_cmp_total) };

    #[inline(always)]
    fn partial_cmp(&self, other: &Name) -> Option<Ordering> {
        Some(self.cmp(other))
    }
}

impl Ord for Name {
    ghost cmp = { name_cmp };

    ghost total = { on_total numbers_of_name nat_list_cmp_total };

    ghost matches_partial_cmp = { λ m n. refl };

    ghost matches_eq = { λ m n. refl };

    #[inline(always)]
    fn cmp(&self, other: &Name) -> Ordering {
        self.as_number().cmp(&other.as_number())
    }
}

/// A page of one source (Floyd et al. 1997), on which drawing operations are numbered from 0. The default is page 0 of member 0.
#[derive(Clone, Copy, Debug, Default, PartialEq, Eq, PartialOrd, Ord)]
pub struct PageId {
    /// The member that drew.
    pub source: u16,
    /// The page of that source.
    pub page: u16,
}

/// An entry of a session message: the highest number that its sender knows of one page.
#[derive(Clone, Copy, Debug, PartialEq, Eq, PartialOrd, Ord)]
pub struct Heard {
    /// The member that drew.
    pub source: u16,
    /// The page of that source.
    pub page: u16,
    /// The highest number heard of.
    pub highest: u32,
}

/// What a repair that answers a request with a scope carries besides (Floyd et al. 1997, local recovery).
#[derive(Clone, Copy, Debug, PartialEq, Eq)]
pub struct Local {
    /// How many hops the repair goes: 1 to 131,069, the width plus the hops to the requester at most.
    pub scope: u32,
    /// The member whose request it answers.
    pub requester: u16,
    /// The width: the scope of that request, 1 to 65,535 hops.
    pub width: u16,
}

/// What a packet carries.
#[derive(Debug, Drop)]
pub enum Body {
    /// A drawing operation, from its source.
    Drawop {
        /// The operation's name.
        name: Name,
        /// What was drawn.
        ink: u32,
    },
    /// A request for a drawing operation.
    Request {
        /// The name that is asked for.
        name: Name,
        /// How many hops it goes, 1 to 65,535; none: to all.
        scope: Option<u16>,
    },
    /// A drawing operation, sent again by whoever holds it.
    Repair {
        /// The operation's name.
        name: Name,
        /// What was drawn.
        ink: u32,
        /// Where it answers a request with a scope: how far it goes, and for whom. None: to all.
        local: Option<Local>,
    },
    /// A session message.
    Session {
        /// What its sender heard of each page.
        heard: Sequence<Heard>,
    },
}

// By hand, so that contracts see that the copy is equal.
impl Clone for Body {
    ghost is_clone = { λ s t. t ≡ s };

    fn clone(&self) -> Result<Self, AllocError> {
        match self {
            Body::Drawop { name, ink } => Ok(Body::Drawop {
                name: *name,
                ink: *ink,
            }),
            Body::Request { name, scope } => Ok(Body::Request {
                name: *name,
                scope: *scope,
            }),
            Body::Repair { name, ink, local } => Ok(Body::Repair {
                name: *name,
                ink: *ink,
                local: *local,
            }),
            Body::Session { heard } => Ok(Body::Session {
                heard: heard.clone()?,
            }),
        }
    }
}

impl Body {
    ghost use Rattle.srm_net.specs.Scopes.{scope_of};

    /// How many hops a packet that carries it goes at most, or none where it goes to all.
    pub fn scope(&self) -> Option<u32>
        ensures { result ≡ scope_of self.now }
    {
        match self {
            Body::Request {
                scope: Some(hops),
                ..
            } => Some(u32::from(*hops)),
            Body::Repair {
                local: Some(local),
                ..
            } => Some(local.scope),
            Body::Drawop { .. }
            | Body::Request { .. }
            | Body::Repair { .. }
            | Body::Session { .. } => None,
        }
    }
}

/// A packet, which goes to all members, or as far as its scope (Floyd et al. 1997).
#[derive(Clone, Debug, Drop)]
pub struct Packet {
    /// The packet's identity.
    pub id: PacketId,
    /// When it was sent, in ticks.
    pub sent: u64,
    /// What it carries.
    pub body: Body,
}
