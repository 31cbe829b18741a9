//! What the elements of links, draws, session messages, drops, outages and losses hold.
ghost use Rattle.std.specs.Prelude.{◌≡◌};
ghost use Rattle.toml.specs.View.{table_view};
ghost use Rattle.srm_scenario.specs.Rules.{link_rules, draw_rules, session_rules, drop_rules, outage_rules, loss_rules};
ghost use Rattle.srm_scenario.specs.Described.{link_of, draw_of, session_message_of, drop_of, outage_of, loss_of};
ghost use Rattle.srm_scenario.specs.Faults.{accepted};

use crate::element::Element;
use crate::file_key::FileKey;
use crate::limits::{LAST_COUNT, LAST_NODE, LAST_TICK};
use crate::parts::{DrawSpec, SessionSpec};
use crate::repeated::{Repeated, risen, step_of};
use crate::rules::{draw_rules, drop_rules, link_rules, loss_rules, outage_rules, session_rules};
use crate::table::{fits_rules, number, optional_number};
use crate::version::Version;
use srm_net::link::{DropSpec, LinkSpec, LossSpec, OutageSpec};
use srm_net::packet::PacketId;
use std::alloc::{AllocError, Global};
use toml::Table;

fn link_of(version: Version, table: &Table) -> Option<LinkSpec>
    ensures { result ≡ accepted (link_rules version) link_of (table_view table.now) }
{
    if !fits_rules(table, &link_rules(version)) {
        return None;
    }
    let delay = number(table, FileKey::Delay);
    Some(LinkSpec {
        a: number(table, FileKey::A) as u16,
        b: number(table, FileKey::B) as u16,
        delay,
        back: optional_number(table, FileKey::Back).unwrap_or(delay),
    })
}

fn draw_of(version: Version, table: &Table) -> Option<DrawSpec>
    ensures { result ≡ accepted (draw_rules version) draw_of (table_view table.now) }
{
    if !fits_rules(table, &draw_rules(version)) {
        return None;
    }
    Some(DrawSpec {
        member: number(table, FileKey::Member) as u16,
        page: number(table, FileKey::Page) as u16,
        ink: number(table, FileKey::Ink) as u32,
        at: number(table, FileKey::At),
    })
}

fn session_message_of(version: Version, table: &Table) -> Option<SessionSpec>
    ensures { result ≡ accepted (session_rules version) session_message_of (table_view table.now) }
{
    if !fits_rules(table, &session_rules(version)) {
        return None;
    }
    Some(SessionSpec {
        member: number(table, FileKey::Member) as u16,
        at: number(table, FileKey::At),
    })
}

fn drop_of(version: Version, table: &Table) -> Option<DropSpec>
    ensures { result ≡ accepted (drop_rules version) drop_of (table_view table.now) }
{
    if !fits_rules(table, &drop_rules(version)) {
        return None;
    }
    Some(DropSpec {
        link: number(table, FileKey::Link) as u16,
        id: PacketId {
            sender: number(table, FileKey::Sender) as u16,
            count: number(table, FileKey::Count),
        },
    })
}

fn outage_of(version: Version, table: &Table) -> Option<OutageSpec>
    ensures { result ≡ accepted (outage_rules version) outage_of (table_view table.now) }
{
    if !fits_rules(table, &outage_rules(version)) {
        return None;
    }
    Some(OutageSpec {
        link: number(table, FileKey::Link) as u16,
        from: number(table, FileKey::From),
        to: number(table, FileKey::To),
    })
}

fn loss_of(version: Version, table: &Table) -> Option<LossSpec>
    ensures { result ≡ accepted (loss_rules version) loss_of (table_view table.now) }
{
    if !fits_rules(table, &loss_rules(version)) {
        return None;
    }
    Some(LossSpec {
        link: number(table, FileKey::Link) as u16,
        rate: number(table, FileKey::Rate) as u32,
        stream: number(table, FileKey::Stream),
        from: number(table, FileKey::From),
        to: optional_number(table, FileKey::To),
        burst: optional_number(table, FileKey::Burst),
    })
}

impl Element for LinkSpec {
    ghost use Rattle.srm_scenario.specs.Rules.{link_rules};
    ghost use Rattle.srm_scenario.specs.Described.{link_of};

    ghost rules = { link_rules };

    ghost reading = { link_of };

    fn read(_alloc: Global, version: Version, table: &Table) -> Result<Option<Self>, AllocError> {
        Ok(link_of(version, table))
    }
}

impl Element for DrawSpec {
    ghost use Rattle.srm_scenario.specs.Rules.{draw_rules};
    ghost use Rattle.srm_scenario.specs.Described.{draw_of};

    ghost rules = { draw_rules };

    ghost reading = { draw_of };

    fn read(_alloc: Global, version: Version, table: &Table) -> Result<Option<Self>, AllocError> {
        Ok(draw_of(version, table))
    }
}

impl Element for SessionSpec {
    ghost use Rattle.srm_scenario.specs.Rules.{session_rules};
    ghost use Rattle.srm_scenario.specs.Described.{session_message_of};

    ghost rules = { session_rules };

    ghost reading = { session_message_of };

    fn read(_alloc: Global, version: Version, table: &Table) -> Result<Option<Self>, AllocError> {
        Ok(session_message_of(version, table))
    }
}

impl Element for DropSpec {
    ghost use Rattle.srm_scenario.specs.Rules.{drop_rules};
    ghost use Rattle.srm_scenario.specs.Described.{drop_of};

    ghost rules = { drop_rules };

    ghost reading = { drop_of };

    fn read(_alloc: Global, version: Version, table: &Table) -> Result<Option<Self>, AllocError> {
        Ok(drop_of(version, table))
    }
}

impl Element for OutageSpec {
    ghost use Rattle.srm_scenario.specs.Rules.{outage_rules};
    ghost use Rattle.srm_scenario.specs.Described.{outage_of};

    ghost rules = { outage_rules };

    ghost reading = { outage_of };

    fn read(_alloc: Global, version: Version, table: &Table) -> Result<Option<Self>, AllocError> {
        Ok(outage_of(version, table))
    }
}

impl Element for LossSpec {
    ghost use Rattle.srm_scenario.specs.Rules.{loss_rules};
    ghost use Rattle.srm_scenario.specs.Described.{loss_of};

    ghost rules = { loss_rules };

    ghost reading = { loss_of };

    fn read(_alloc: Global, version: Version, table: &Table) -> Result<Option<Self>, AllocError> {
        Ok(loss_of(version, table))
    }
}

impl Repeated for DrawSpec {
    ghost use Rattle.srm_scenario.specs.Described.{draw_copy};
    ghost use Rattle.srm_scenario.specs.Faults.{draw_in_range};

    ghost copy = { draw_copy };

    ghost in_range = { draw_in_range };

    fn copied(&self, _alloc: Global, k: u64, every: u64) -> Result<Option<Self>, AllocError> {
        let Some(at) = risen(self.at, step_of(k, every), LAST_TICK) else {
            return Ok(None);
        };
        Ok(Some(DrawSpec {
            member: self.member,
            page: self.page,
            ink: self.ink,
            at,
        }))
    }
}

impl Repeated for SessionSpec {
    ghost use Rattle.srm_scenario.specs.Described.{session_copy};
    ghost use Rattle.srm_scenario.specs.Faults.{session_in_range};

    ghost copy = { session_copy };

    ghost in_range = { session_in_range };

    fn copied(&self, _alloc: Global, k: u64, every: u64) -> Result<Option<Self>, AllocError> {
        let Some(at) = risen(self.at, step_of(k, every), LAST_TICK) else {
            return Ok(None);
        };
        Ok(Some(SessionSpec {
            member: self.member,
            at,
        }))
    }
}

impl Repeated for DropSpec {
    ghost use Rattle.srm_scenario.specs.Described.{drop_copy};
    ghost use Rattle.srm_scenario.specs.Faults.{drop_in_range};

    ghost copy = { drop_copy };

    ghost in_range = { drop_in_range };

    fn copied(&self, _alloc: Global, k: u64, every: u64) -> Result<Option<Self>, AllocError> {
        let Some(count) = risen(self.id.count, step_of(k, every), LAST_COUNT) else {
            return Ok(None);
        };
        Ok(Some(DropSpec {
            link: self.link,
            id: PacketId {
                sender: self.id.sender,
                count,
            },
        }))
    }
}

impl Repeated for OutageSpec {
    ghost use Rattle.srm_scenario.specs.Described.{outage_copy};
    ghost use Rattle.srm_scenario.specs.Faults.{outage_in_range};

    ghost copy = { outage_copy };

    ghost in_range = { outage_in_range };

    fn copied(&self, _alloc: Global, k: u64, every: u64) -> Result<Option<Self>, AllocError> {
        let step = step_of(k, every);
        let Some(from) = risen(self.from, step, LAST_TICK) else {
            return Ok(None);
        };
        let Some(to) = risen(self.to, step, LAST_TICK) else {
            return Ok(None);
        };
        Ok(Some(OutageSpec {
            link: self.link,
            from,
            to,
        }))
    }
}

impl Repeated for LossSpec {
    ghost use Rattle.srm_scenario.specs.Described.{loss_copy};
    ghost use Rattle.srm_scenario.specs.Faults.{loss_in_range};

    ghost copy = { loss_copy };

    ghost in_range = { loss_in_range };

    fn copied(&self, _alloc: Global, k: u64, every: u64) -> Result<Option<Self>, AllocError> {
        let Some(link) = risen(u64::from(self.link), step_of(k, every), LAST_NODE) else {
            return Ok(None);
        };
        Ok(Some(LossSpec {
            link: link as u16,
            rate: self.rate,
            stream: self.stream,
            from: self.from,
            to: self.to,
            burst: self.burst,
        }))
    }
}
