//! Requests and repairs that were sent, and how far they went.
ghost use Rattle.std.specs.Prelude.{◌≡◌};
ghost use Rattle.srm_report.specs.Scopes.{entry_of, heard_in, local_in};

use srm_member::row::{About, Row, Word};
use srm_net::key::Key;
use srm_net::packet::{Body, Local, Name, PacketId};

/// A request or a repair that a member sent.
#[derive(Clone, Copy)]
pub struct ScopeEntry {
    /// The key of the event in which it was sent.
    pub key: Key,
    /// The kind of that event.
    pub cause: Word,
    /// The name that it is for.
    pub name: Name,
    /// The packet.
    pub sent: PacketId,
    /// How many hops it went, or none where it went to all.
    pub scope: Option<u32>,
    /// Of a repair with a scope, whose request it answered, and how far that went.
    pub local: Option<Local>,
}

impl ScopeEntry {
    /// What a row tells, if a request or a repair was sent in its event.
    pub(crate) fn of(row: &Row) -> Option<Self>
        ensures { result ≡ entry_of row.now }
    {
        let is_for_timer = row.cause.is_ask() || row.cause.is_answer();
        if !is_for_timer || !row.told.is_sent() {
            return None;
        }
        match (&row.about, &row.sent) {
            (About::Named { name }, Some(packet)) => Some(ScopeEntry {
                key: row.key,
                cause: row.cause,
                name: *name,
                sent: packet.id,
                scope: packet.body.scope(),
                local: local_of(&packet.body),
            }),
            _ => None,
        }
    }
}

// Whose request a repair answers, and how far that went, where it has a scope.
fn local_of(body: &Body) -> Option<Local>
    ensures { result ≡ local_in body.now }
{
    match body {
        Body::Repair { local, .. } => *local,
        Body::Drawop { .. } | Body::Request { .. } | Body::Session { .. } => None,
    }
}

// The request or repair that arrives in a row, if one does.
pub(crate) fn heard(row: &Row) -> Option<PacketId>
    ensures { result ≡ heard_in row.now }
{
    match &row.about {
        About::Of { packet } => match packet.body {
            Body::Request { .. } | Body::Repair { .. } => Some(packet.id),
            Body::Drawop { .. } | Body::Session { .. } => None,
        },
        About::Nothing | About::Named { .. } => None,
    }
}
