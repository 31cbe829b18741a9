//! How often packets were heard.
ghost use Rattle.std.specs.Prelude.{◌≡◌, ◌+◌, [], OnOk};
ghost use Rattle.std.specs.FinMap.Entries.{put};
ghost use Rattle.srm_net.specs.Names.{id_cmp};
ghost use Rattle.srm_report.specs.KeptScopes.{count_in, HearMore};

use srm_net::packet::PacketId;
use std::alloc::{AllocError, Global};
use std::collections::BTreeMap;
use std::marker::Model;

/// How many members heard each packet, which contracts see as a list of entries.
#[derive(Drop)]
pub(crate) struct HeardCounts {
    map: BTreeMap<PacketId, u64>,
}

impl Model for HeardCounts {
    ghost use Rattle.std.specs.Prelude.{ℕ, List};
    ghost use Rattle.srm_net.specs.declared.packet.PacketId.{PacketId as Key};

    ghost Value = { List (Key × ℕ) };

    ghost view = { λ h. h.map.entries };
}

impl HeardCounts {
    /// Of no packet. It does not allocate.
    pub(crate) fn new(alloc: Global) -> Self
        ensures { result ≡ [] }
    {
        HeardCounts {
            map: BTreeMap::new(alloc),
        }
    }

    /// How many members heard a packet.
    pub(crate) fn of(&self, packet: PacketId) -> u64
        ensures { result ≡ count_in self.now packet }
    {
        self.map.get(&packet).copied().unwrap_or(0)
    }

    /// One more member heard these packets.
    ///
    /// # Errors
    /// [`AllocError`], also where a count would be too great for its number.
    pub(crate) fn add(&mut self, packets: &[PacketId]) -> Result<(), AllocError>
        ensures { OnOk result (HearMore self.old packets.now self.new) }
    {
        for packet in packets {
            self.count(*packet)?;
        }
        Ok(())
    }

    // One more member heard this packet. It answers no memory also where its count would be too great for its number.
    fn count(&mut self, packet: PacketId) -> Result<(), AllocError>
        ensures { OnOk result (self.new ≡ put id_cmp packet (count_in self.old packet + 1) self.old) }
    {
        let Some(count) = self.of(packet).checked_add(1) else {
            return Err(AllocError);
        };
        self.map.insert(packet, count)?;
        Ok(())
    }
}
