//! What the rows of one member tell of scopes, taken in as they come.
ghost use Rattle.std.specs.Prelude.{◌≡◌, ◌++◌, [], OnOk};
ghost use Rattle.std.specs.List.{cons_option};

use crate::scopes::scope_entry::{ScopeEntry, heard};
use srm_member::row::Row;
use srm_net::packet::PacketId;
use std::alloc::{AllocError, Global};

/// The requests and repairs that one member sent, and those that it heard, in order.
#[derive(Drop)]
pub struct MemberScopes {
    pub(crate) sent: Vec<ScopeEntry>,
    pub(crate) heard: Vec<PacketId>,
}

impl MemberScopes {
    ghost use Rattle.std.specs.Prelude.{◌∷◌, [], OnOk};
    ghost use Rattle.srm_report.specs.KeptScopes.{KeepsScopes, KeepsMore};

    /// Of no row. It does not allocate.
    pub(crate) fn new(alloc: Global) -> Self
        ensures { KeepsScopes [] result }
    {
        MemberScopes {
            sent: Vec::new(alloc),
            heard: Vec::new(alloc),
        }
    }

    /// Takes in what one more row of the member tells.
    pub(crate) fn take_row(&mut self, row: &Row) -> Result<(), AllocError>
        ensures { OnOk result (KeepsMore self.old (row.now ∷ []) self.new) }
    {
        push_some(&mut self.sent, ScopeEntry::of(row))?;
        push_some(&mut self.heard, heard(row))?;
        Ok(())
    }
}

// Appends what is there.
fn push_some<T: Copy>(items: &mut Vec<T>, item: Option<T>) -> Result<(), AllocError>
    ensures { OnOk result (items.new.items ≡ items.old.items ++ cons_option item []) }
{
    if let Some(item) = item {
        items.push(item)?;
    }
    Ok(())
}
