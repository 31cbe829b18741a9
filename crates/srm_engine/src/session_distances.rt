//! A session that keeps the distances of the member that sent last.
ghost use Rattle.std.specs.Prelude.{◌≡◌, ◌<◌, IfOk, IfSome, length};
ghost use Rattle.srm_net.specs.Limits.{end_of_time};
ghost use Rattle.srm_scenario.specs.Accepted.{IsAccepted};
ghost use Rattle.srm_cell.specs.Setting.{traffic_of, arrival_of, IsSpreadOf};
ghost use Rattle.srm_engine.specs.Distances.{distances_from, ComesEverywhereIn};

use srm_cell::arrival::arrival;
use srm_net::net::Net;
use srm_net::packet::Packet;
use srm_net::spread::Spread;
use srm_scenario::session::Session;
use std::alloc::{AllocError, Global};
use std::marker::Model;

/// A session, and the distances of the member that sent last. Contracts see the session.
///
/// Most packets of a run are sent by one member, several in a row: a distance that is kept is read, where otherwise it is computed
/// anew for each packet.
#[derive(Drop)]
pub(crate) struct SessionDistances<'a> {
    session: Session<'a>,
    sender: u16,
    // From the sender to each member, in ticks; or none before its second packet in a row, as one alone would not pay for them.
    distances: Vec<u64>,
}

impl<'a> Model for SessionDistances<'a> {
    ghost use Rattle.srm_scenario.specs.declared.session.Session.{Session};
    ghost use Rattle.srm_engine.specs.Distances.{AreDistancesFrom};

    ghost Value = { Session };

    ghost view = { λ s. s.session };

    ghost invariant = { λ s. AreDistancesFrom s.session.net.now s.sender s.distances.items };
}

impl<'a> SessionDistances<'a> {
    /// A session of which no distances are kept yet.
    pub(crate) fn new(alloc: Global, session: Session<'a>) -> SessionDistances<'a>
        ensures { result ≡ session.entry }
    {
        SessionDistances {
            session,
            sender: 0,
            distances: Vec::new(alloc),
        }
    }

    /// The session alone.
    pub(crate) fn as_session(&self) -> Session<'a>
        ensures { result ≡ self.now }
    {
        self.session
    }

    /// The tick at which the run ends.
    pub(crate) fn until(&self) -> u64
        ensures until { result ≡ self.now.scenario.now.until }
        ensures accepted { IsAccepted self.now.scenario.now }
    {
        self.session.scenario.until()
    }

    /// Notes who sends a packet. The distances of a member are found as it sends its second one in a row.
    pub(crate) fn note(&mut self, alloc: Global, sender: u16) -> Result<(), AllocError>
        requires { sender < length self.old.net.now.hosts }
        ensures { self.new ≡ self.old }
    {
        if self.sender != sender {
            self.sender = sender;
            self.distances = Vec::new(alloc);
        } else if self.distances.is_empty() {
            self.distances = find_distances(alloc, self.session.net, sender)?;
        }
        Ok(())
    }

    /// How long the packet of a spread takes to each member, in ticks, where it comes to every node and this is kept.
    pub(crate) fn distances_for(&self, spread: &Spread) -> Option<&[u64]>
        ensures { IfSome result (λ ds. ComesEverywhereIn self.now.net.now spread.now ds.now) }
    {
        if self.distances.is_empty() || self.sender != spread.sender() || !spread.is_everywhere() {
            return None;
        }
        Some(self.distances.as_slice())
    }
}

/// When a member is handed a packet, as [`arrival`] tells it; from the distances of the sender where they are given.
#[inline(always)]
pub(crate) fn arrival_by(
    session: Session,
    packet: &Packet,
    spread: &Spread,
    distances: Option<&[u64]>,
    member: u16,
) -> Option<u64>
    requires spread { IsSpreadOf session.net.now session.scenario.now.drops packet.now spread.now }
    requires distances { IfSome distances (λ ds. ComesEverywhereIn session.net.now spread.now ds.now) }
    requires sent { packet.now.sent < end_of_time }
    requires sender { packet.now.id.sender < length session.scenario.now.members }
    requires member { member < length session.scenario.now.members }
    ensures { result ≡ arrival_of (traffic_of session.entry.scenario.now session.entry.net.now) packet.now member }
{
    let Some(distances) = distances else {
        return arrival(session, packet, spread, member);
    };
    let scenario = session.scenario;
    let until = scenario.until();
    if member == packet.id.sender {
        return None;
    }
    let at = packet.sent + distances[usize::from(member)];
    if scenario.member(member).is_present(until, at) {
        Some(at)
    } else {
        None
    }
}

// The distances from a member to each, in ticks.
fn find_distances(alloc: Global, net: &Net, from: u16) -> Result<Vec<u64>, AllocError>
    requires { from < length net.now.hosts }
    ensures { IfOk result (λ distances. distances.items ≡ distances_from net.now from) }
{
    let mut distances = Vec::with_capacity(alloc, usize::from(net.members()))?;
    for member in 0..net.members() {
        distances.push(net.distance(from, member))?;
    }
    Ok(distances)
}
