//! What packets carry, as plain data.
use srm_net::packet::{Body, Heard, Local, Name};
use srm_net::sequence::Sequence;
use std::alloc::{AllocError, Global};

/// What a packet carries.
#[derive(Clone, Copy, Debug)]
pub enum Carried {
    /// A drawing operation, from its source.
    Data {
        /// The operation's name.
        name: Name,
        /// What was drawn.
        ink: u32,
    },
    /// A request for a drawing operation.
    Request {
        /// The name that is asked for.
        name: Name,
        /// How many hops it goes; none: to all.
        scope: Option<u16>,
    },
    /// A drawing operation, sent again.
    Repair {
        /// The operation's name.
        name: Name,
        /// What was drawn.
        ink: u32,
        /// Where it answers a request with a scope: how far it goes, and for whom.
        local: Option<Local>,
    },
    /// A session message.
    Session {
        /// What its sender heard of each page.
        heard: &'static [Heard],
    },
}

impl Carried {
    /// The body of a packet that carries this.
    pub(crate) fn body(self, alloc: Global) -> Result<Body, AllocError> {
        match self {
            Carried::Data { name, ink } => Ok(Body::Drawop { name, ink }),
            Carried::Request { name, scope } => Ok(Body::Request { name, scope }),
            Carried::Repair { name, ink, local } => Ok(Body::Repair { name, ink, local }),
            Carried::Session { heard } => Ok(Body::Session {
                heard: Sequence::from_vec(heard.to_vec(alloc)?),
            }),
        }
    }

    /// Whether a body carries this.
    pub(crate) fn is_in(self, body: &Body) -> bool {
        match (self, body) {
            (Carried::Data { name, ink }, Body::Drawop { name: n, ink: i }) => {
                name == *n && ink == *i
            }
            (Carried::Request { name, scope }, Body::Request { name: n, scope: s }) => {
                name == *n && scope == *s
            }
            (
                Carried::Repair { name, ink, local },
                Body::Repair {
                    name: n,
                    ink: i,
                    local: l,
                },
            ) => name == *n && ink == *i && local == *l,
            (Carried::Session { heard }, Body::Session { heard: h }) => heard == h.as_slice(),
            _ => false,
        }
    }
}
