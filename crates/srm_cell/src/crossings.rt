//! Crossings of rows.
ghost use Rattle.std.specs.Prelude.{◌≡◌, ◌<◌, ◌+◌, ◌^◌, ◌∷◌, [], ℕ, length};
ghost use Rattle.std.specs.Prelude.{All, IfOk, IfErr, MatchOption};
ghost use Rattle.srm_net.specs.Limits.{end_of_time};
ghost use Rattle.srm_scenario.specs.Plain.{PlainScenario};
ghost use Rattle.srm_ledger.specs.Counts.{nothing_at};
ghost use Rattle.srm_cell.specs.Setting.{traffic_of, IsSpreadOf};
ghost use Rattle.srm_cell.specs.Crossings.{packets_of};
ghost use Rattle.srm_cell.specs.Hearing.{IsSent, packets_in};
ghost use Rattle.srm_cell.specs.Totalled.{MayCount, Counts, IsSentBelow, numbers_of};

use crate::count::count;
use crate::sent::Sent;
use srm_ledger::totals::Totals;
use srm_member::row::Row;
use srm_net::net::Net;
use srm_net::packet::Packet;
use srm_net::spread::Spread;
use srm_scenario::scenario::Scenario;
use srm_scenario::session::Session;
use std::alloc::{AllocError, Global};
use std::marker::Model;

/// Five numbers for each link. As it is written, they take memory from the first packet on that is counted. Contracts see them as
/// one list, the five of link 0 first.
#[derive(Drop)]
pub struct Crossings {
    links: u16,
    counted: Option<Totals>,
}

impl Model for Crossings {
    ghost use Rattle.std.specs.Prelude.{List, ℕ, unwrap_or};
    ghost use Rattle.srm_ledger.specs.Counts.{nothing_at};

    ghost Value = { List ℕ };

    ghost view = { λ c. unwrap_or c.counted (nothing_at c.links) };
}

impl Crossings {
    /// Nothing counted yet at any of `links` links. It does not allocate.
    pub fn none(links: u16) -> Self
        ensures { result ≡ nothing_at links }
    {
        Crossings {
            links,
            counted: None,
        }
    }

    /// What was counted, if there is anything.
    pub fn counted(&self) -> Option<&Totals>
        ensures { MatchOption result ((links : ℕ) × (self.now ≡ nothing_at links)) (λ totals. totals.now ≡ self.now) }
    {
        self.counted.as_ref()
    }

    // Counts a packet at each link that it crosses, and at each that drops it.
    fn count_packet(
        &mut self,
        alloc: Global,
        scenario: &Scenario,
        net: &Net,
        packet: &Packet,
    ) -> Result<(), AllocError>
        requires sent { packet.now.sent < end_of_time }
        requires sender { packet.now.id.sender < length net.now.hosts }
        requires room { MayCount (traffic_of scenario.now net.now) 1 self.old }
        ensures { IfOk result (λ _. Counts scenario.now net.now (packet.now ∷ []) self.old self.new) }
    {
        let spread = net.spread(
            alloc,
            scenario.drops(),
            packet.id,
            packet.sent,
            packet.body.scope(),
        )?;
        self.count_spread(alloc, net, &spread, packet)
    }

    // Counts a packet, of which this is the spread.
    fn count_spread(
        &mut self,
        alloc: Global,
        net: &Net,
        spread: &Spread,
        packet: &Packet,
    ) -> Result<(), AllocError>
        requires sender { packet.now.id.sender < length net.now.hosts }
        requires room { (s : PlainScenario) × IsSpreadOf net.now s.drops packet.now spread.now
            × MayCount (traffic_of s net.now) 1 self.old }
        ensures { IfOk result (λ _. (s : PlainScenario)
            → IsSpreadOf net.now s.drops packet.now spread.now
            → Counts s net.now (packet.now ∷ []) self.old self.new) }
    {
        let mut totals = match self.counted.take() {
            Some(totals) => totals,
            None => Totals::new(alloc, self.links)?,
        };
        count(&mut totals, net, spread, packet);
        self.counted = Some(totals);
        Ok(())
    }

    /// The crossings of packets that were sent, by their spreads. Where there is none it does not allocate.
    ///
    /// # Errors
    /// [`AllocError`].
    pub fn of(alloc: Global, session: Session, all: &[Sent]) -> Result<Crossings, AllocError>
        requires sent { All (λ x. IsSent session.scenario.now session.net.now x) all.now }
        requires few { length all.now + 2 < 2 ^ 64 }
        ensures counted { IfOk result (λ c. c
            ≡ numbers_of (traffic_of session.entry.scenario.now session.entry.net.now) (packets_in all.now)) }
        ensures asked { IfErr result (λ _. 0 < length all.now) }
    {
        let net = session.net;
        let mut crossings = Crossings::none(net.links().len() as u16);
        for sent in all {
            crossings.count_spread(alloc, net, &sent.spread, &sent.packet)?;
        }
        Ok(crossings)
    }

    /// Counts the packets that the rows' members sent. Where none was sent it does not allocate.
    ///
    /// # Errors
    /// [`AllocError`], only where some row sent a packet: nothing is known of the numbers then.
    pub fn count_rows(
        &mut self,
        alloc: Global,
        scenario: &Scenario,
        net: &Net,
        rows: &[Row],
    ) -> Result<(), AllocError>
        requires senders { All (λ r. IsSentBelow (length net.now.hosts) r.sent) rows.now }
        requires room { MayCount (traffic_of scenario.now net.now) (length (packets_of rows.now)) self.old }
        ensures counted { IfOk result (λ _. Counts scenario.now net.now (packets_of rows.now) self.old self.new) }
        ensures asked { IfErr result (λ _. 0 < length (packets_of rows.now)) }
    {
        for row in rows {
            if let Some(packet) = &row.sent {
                self.count_packet(alloc, scenario, net, packet)?;
            }
        }
        Ok(())
    }
}
