//! The totals of a run as they grow.
ghost use Rattle.std.specs.Prelude.{◌≡◌, ◌<◌, ◌+◌, ◌^◌, ◌∷◌, ◌++◌, [], List, length, IfOk};
ghost use Rattle.srm_net.specs.declared.packet.Packet.{Packet};
ghost use Rattle.srm_net.specs.Network.{Network};
ghost use Rattle.srm_scenario.specs.Plain.{PlainScenario};
ghost use Rattle.srm_cell.specs.Setting.{IsSpreadOf};
ghost use Rattle.srm_cell.specs.Tallies.{tallied, Tallies};

use crate::count::count;
use crate::everywhere::Everywhere;
use srm_ledger::totals::Totals;
use srm_net::net::Net;
use srm_net::packet::Packet;
use srm_net::spread::Spread;
use std::alloc::{AllocError, Global};

/// The crossings and drops of packets in one network: five numbers for each link, as [`Totals`] has them.
///
/// All packets that go everywhere cross the same links, whoever sends them. So these are counted once, by their kinds, and are
/// put to the numbers of the links only at the end; the packets that were stopped somewhere are counted link by link.
#[derive(Debug, Drop)]
pub struct Tally {
    /// The packets that went everywhere.
    pub everywhere: Everywhere,
    /// The crossings and drops of the others.
    pub stopped: Totals,
}

impl Tally {
    /// Nothing counted yet in a network of so many links.
    ///
    /// # Errors
    /// [`AllocError`].
    pub fn new(alloc: Global, links: u16) -> Result<Self, AllocError>
        ensures { IfOk result (λ t. (s : PlainScenario) (net : Network) → length net.links ≡ links → Tallies s net [] t) }
    {
        Ok(Tally {
            everywhere: Everywhere::none(),
            stopped: Totals::new(alloc, links)?,
        })
    }

    /// Counts a packet, of which this is the spread: once, where it goes everywhere, and else at each link that it crosses, and
    /// at each that drops it. It does not allocate.
    pub fn count(&mut self, net: &Net, spread: &Spread, packet: &Packet)
        requires sender { packet.now.id.sender < length net.now.hosts }
        requires room { (s : PlainScenario) × (ps : List Packet) × IsSpreadOf net.now s.drops packet.now spread.now
            × Tallies s net.now ps self.old × (length ps + 3 < 2 ^ 64) }
        ensures { (s : PlainScenario) (ps : List Packet) → IsSpreadOf net.now s.drops packet.now spread.now
            → Tallies s net.now ps self.old → Tallies s net.now (ps ++ packet.now ∷ []) self.new }
    {
        let _links = net.links();
        if spread.is_everywhere() {
            self.everywhere.count(&packet.body);
        } else {
            count(&mut self.stopped, net, spread, packet);
        }
    }

    /// The totals of all packets that were counted in a network. It does not allocate.
    pub fn into_totals(self, net: &Net) -> Totals
        requires { (s : PlainScenario) × (ps : List Packet) × Tallies s net.now ps self }
        ensures { result ≡ tallied net.now self }
    {
        let Tally {
            everywhere,
            mut stopped,
        } = self;
        let links = net.links().len() as u16;
        for link in 0..links {
            if net.joins_members(link) {
                everywhere.add_to(&mut stopped, link);
            }
        }
        stopped
    }
}
