//! Which packets links drop: those listed, all that come to a link in an outage, and those that losses take.
ghost use Rattle.std.specs.Prelude.{◌≡◌, ◌↔◌, ◌||◌, Contains, IfOk, IfErr};
ghost use Rattle.srm_net.specs.declared.link.DropSpec.{DropSpec};
ghost use Rattle.srm_net.specs.Orders.{Ascends};
ghost use Rattle.srm_net.specs.DropRules.{is_out, may_drop, with_seed};
ghost use Rattle.srm_net.specs.Listed.{is_listed_somewhere};
ghost use Rattle.srm_net.specs.Losses.{is_lost};
ghost use Rattle.srm_net.specs.Paths.{drop_cmp, is_listed, stop, takes_out};

use crate::drop_sets::DropSets;
use crate::fault::NetFault;
use crate::link::{DropSpec, LossSpec, OutageSpec};
use crate::losses::Losses;
use crate::outages::Outages;
use crate::packet::PacketId;
use std::alloc::{AllocError, Global};
use std::collections::HashSet;
use std::marker::Model;
use std::sync::Arc;

/// The packets that links are configured to drop, the outages of links, and their losses. Contracts see it as the rules of its
/// entries in the order of links, senders and counts, each once, of its outages and losses as they were given, and of the seed of
/// the losses.
///
/// Those of several seeds share all but the seed.
#[derive(Drop)]
pub struct Drops {
    sets: Arc<DropSets>,
    seed: u64,
}

impl Model for Drops {
    ghost use Rattle.srm_net.specs.DropRules.{DropRules};

    ghost Value = { DropRules };

    ghost use Rattle.srm_net.specs.DropSets.{rules_of, KnowsItsPackets};

    ghost view = { rules_of };

    ghost invariant = { KnowsItsPackets };
}

impl Drops {
    /// The set of these entries, with these outages and losses, whose words are those of the seed. An entry that stands in the
    /// list more than once counts once.
    ///
    /// # Errors
    ///
    /// [`NetFault::NoMemory`] alone.
    pub fn of(
        alloc: Global,
        list: &[DropSpec],
        outages: &[OutageSpec],
        losses: &[LossSpec],
        seed: u64,
    ) -> Result<Drops, NetFault>
        ensures entries { IfOk result (λ drops. (d : DropSpec) → Contains drops.listed d ↔ Contains list.now d) }
        ensures once_in_order { IfOk result (λ drops. Ascends drop_cmp drops.listed) }
        ensures outages { IfOk result (λ drops. drops.outages ≡ outages.now) }
        ensures losses { IfOk result (λ drops. drops.losses ≡ losses.now) }
        ensures seed { IfOk result (λ drops. drops.seed ≡ seed) }
        ensures only_memory { IfErr result (λ e. e ≡ NetFault.NoMemory) }
    {
        let mut entries = HashSet::new(alloc);
        let mut packets = HashSet::new(alloc);
        for entry in list {
            let Ok(_) = entries.insert(*entry) else {
                return Err(NetFault::NoMemory);
            };
            let Ok(_) = packets.insert(entry.id) else {
                return Err(NetFault::NoMemory);
            };
        }
        let outages = Outages::of(alloc, outages)?;
        let losses = Losses::of(alloc, losses)?;
        let sets = DropSets {
            entries,
            packets,
            outages,
            losses,
        };
        let Ok(sets) = Arc::new(alloc, sets) else {
            return Err(NetFault::NoMemory);
        };
        Ok(Drops { sets, seed })
    }

    /// The same once more. The two share what they hold, and no memory is asked for.
    ///
    /// # Errors
    /// [`AllocError`], only where some 2^63 share it.
    pub fn share(&self) -> Result<Drops, AllocError>
        ensures { IfOk result (λ drops. drops ≡ self.now) }
    {
        Ok(Drops {
            sets: Arc::try_clone(&self.sets)?,
            seed: self.seed,
        })
    }

    /// The same with another seed of its losses.
    pub fn with_seed(self, seed: u64) -> Drops
        ensures { result ≡ with_seed self seed }
    {
        Drops { seed, ..self }
    }

    /// Whether a link is configured to drop a packet.
    pub fn lists(&self, link: u16, id: PacketId) -> bool
        ensures { result ≡ is_listed self.now.listed id link }
    {
        self.sets.entries.contains(&DropSpec { link, id })
    }

    /// Whether a link takes out a packet that comes to it at the tick `at`: it is listed for the packet, out at that tick, or
    /// loses it.
    pub fn takes_out(&self, id: PacketId, link: u16, at: u64) -> bool
        ensures { result ≡ takes_out self.now id (stop link at) }
    {
        self.lists(link, id) || self.takes_out_unlisted(id, link, at)
    }

    /// The same as [`takes_out`](Drops::takes_out), where it is known already whether any link is listed for the packet: if none
    /// is, this one is not looked up.
    pub(crate) fn takes_out_of(&self, is_listed: bool, id: PacketId, link: u16, at: u64) -> bool
        requires { is_listed ≡ is_listed_somewhere self.now.listed id }
        ensures { result ≡ takes_out self.now id (stop link at) }
    {
        (is_listed && self.lists(link, id)) || self.takes_out_unlisted(id, link, at)
    }

    /// Whether a link is out at the tick `at`, or loses a packet that comes to it then.
    fn takes_out_unlisted(&self, id: PacketId, link: u16, at: u64) -> bool
        ensures { result ≡ (is_out self.now.outages link at || is_lost self.now.losses self.now.seed id link at) }
    {
        self.sets.outages.is_out(link, at) || self.sets.losses.is_lost(self.seed, id, link, at)
    }

    /// Whether any link is configured to drop a packet.
    pub(crate) fn lists_somewhere(&self, id: PacketId) -> bool
        ensures { result ≡ is_listed_somewhere self.now.listed id }
    {
        self.sets.packets.contains(&id)
    }

    /// Whether a packet that is sent at the tick `sent` may be dropped at all: some link is listed for it, or an outage ends or a
    /// loss goes on later than that.
    ///
    /// Any other packet goes everywhere ([`unlisted_packets_go_everywhere`](crate::laws::unlisted_packets_go_everywhere)).
    pub fn may_drop(&self, id: PacketId, sent: u64) -> bool
        ensures { result ≡ may_drop self.now id sent }
    {
        self.lists_somewhere(id)
            || self.sets.outages.end_after(sent)
            || self.sets.losses.go_on_after(sent)
    }
}
