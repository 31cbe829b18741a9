//! A member's pending timers.
ghost use Rattle.std.specs.Prelude.{◌≡◌, [], OnOk, IfOk, map};
ghost use Rattle.std.specs.FinMap.Entries.{put, find};
ghost use Rattle.srm_net.specs.Names.{name_cmp};
ghost use Rattle.srm_member.specs.Record.{earliest};
ghost use Rattle.srm_member.specs.React.{without};
ghost use Rattle.srm_member.specs.Pending.{RisesByName, pending_timers, request_timer, repair_timer};

use crate::due::Due;
use crate::entries::{Missing, Repairing};
use crate::index::Index;
use crate::named::Named;
use srm_net::packet::Name;
use srm_net::rank::Rank;
use srm_net::sequence::Sequence;
use std::alloc::{AllocError, Global};
use std::marker::Model;

/// The names that a member lacks, with their request timers, and its repair timers, with an index of all timers by time.
#[derive(Debug, Drop)]
pub struct Pending {
    index: Index,
    missing: Named<Missing>,
    repairs: Named<Repairing>,
}

impl Model for Pending {
    ghost use Rattle.std.specs.Prelude.{List};
    ghost use Rattle.srm_net.specs.declared.packet.Name.{Name as N};
    ghost use Rattle.srm_member.specs.declared.entries.Missing.{Missing as M};
    ghost use Rattle.srm_member.specs.declared.entries.Repairing.{Repairing as R};
    ghost use Rattle.srm_member.specs.Pending.{IsIndexed};

    ghost Value = { List (N × M) × List (N × R) };

    ghost view = { λ p. (p.missing, p.repairs) };

    ghost invariant = { λ p. IsIndexed p.index p.missing p.repairs };
}

impl Pending {
    /// No timer. It does not allocate.
    pub fn new(alloc: Global) -> Self
        ensures { result ≡ ([], []) }
    {
        Pending {
            index: Index::new(alloc),
            missing: Named::new(alloc),
            repairs: Named::new(alloc),
        }
    }

    /// What is kept of a name that is missing.
    pub fn missing(&self, name: Name) -> Option<Missing>
        ensures { result ≡ find name_cmp name self.now.0 }
    {
        self.missing.get(name)
    }

    /// A name's repair timer, if one is pending.
    pub fn repair(&self, name: Name) -> Option<Repairing>
        ensures { result ≡ find name_cmp name self.now.1 }
    {
        self.repairs.get(name)
    }

    /// The names that are missing, rising.
    pub fn names(&self, alloc: Global) -> Result<Sequence<Name>, AllocError>
        ensures { IfOk result (λ ns. ns ≡ map (λ e. e.0) self.now.0) }
    {
        self.missing.names(alloc)
    }

    /// The least timer by time, rank and name.
    pub fn due(&self) -> Option<Due>
        ensures { result ≡ earliest (pending_timers self.now.0 self.now.1) }
    {
        self.index.first()
    }

    /// Sets what is kept of a missing name, and its request timer.
    pub fn miss(&mut self, name: Name, missing: Missing) -> Result<(), AllocError>
        ensures { OnOk result (self.new ≡ (put name_cmp name missing self.old.0, self.old.1)) }
    {
        self.forget_missing(name);
        let due = request_due(name, missing);
        self.index.insert(due)?;
        match self.missing.put(name, missing) {
            Ok(()) => Ok(()),
            Err(fault) => {
                self.index.remove(due);
                Err(fault)
            }
        }
    }

    /// Forgets that a name was missing, which ends its request timer.
    pub fn forget_missing(&mut self, name: Name)
        ensures rising { RisesByName self.old.0 }
        ensures left { self.new ≡ (without name self.old.0, self.old.1) }
    {
        if let Some(before) = self.missing.take(name) {
            self.index.remove(request_due(name, before));
        }
    }

    /// Sets a repair timer.
    pub fn plan(&mut self, name: Name, repair: Repairing) -> Result<(), AllocError>
        ensures { OnOk result (self.new ≡ (self.old.0, put name_cmp name repair self.old.1)) }
    {
        self.forget_repair(name);
        let due = repair_due(name, repair);
        self.index.insert(due)?;
        match self.repairs.put(name, repair) {
            Ok(()) => Ok(()),
            Err(fault) => {
                self.index.remove(due);
                Err(fault)
            }
        }
    }

    /// Forgets a repair that was planned, which ends its timer.
    pub fn forget_repair(&mut self, name: Name)
        ensures rising { RisesByName self.old.1 }
        ensures left { self.new ≡ (self.old.0, without name self.old.1) }
    {
        if let Some(before) = self.repairs.take(name) {
            self.index.remove(repair_due(name, before));
        }
    }
}

fn request_due(name: Name, missing: Missing) -> Due
    ensures { result ≡ request_timer name missing }
{
    Due {
        time: missing.expiry,
        rank: Rank::Request,
        name,
    }
}

fn repair_due(name: Name, repair: Repairing) -> Due
    ensures { result ≡ repair_timer name repair }
{
    Due {
        time: repair.expiry,
        rank: Rank::Repair,
        name,
    }
}
