//! The watch that keeps what a member's rows tell of scopes.
use crate::scopes::member_scopes::MemberScopes;
use srm_interfaces::watch::{MemberWatch, Watch};
use srm_member::row::Row;
use std::alloc::{AllocError, Global};

/// Keeps the requests and repairs that a member sent and heard, and no row.
#[derive(Clone, Copy)]
pub struct FindScopes {
    /// The memory that is taken for what is kept.
    pub alloc: Global,
}

impl Watch<MemberScopes> for FindScopes {
    ghost use Rattle.std.specs.Prelude.{◌≡◌, refl};
    ghost use Rattle.srm_report.specs.KeptScopes.{KeepsScopes};

    ghost keeps = { λ _ k rows. KeepsScopes rows k };

    ghost closes = { λ _ old new. new ≡ old };

    ghost may_stand = { λ _ _. refl };

    fn none(&self) -> MemberScopes {
        MemberScopes::new(self.alloc)
    }

    fn clear(&self, kept: &mut MemberScopes) {
        *kept = self.none();
    }

    fn add(&self, kept: &mut MemberScopes, rows: &[Row]) -> Result<(), AllocError> {
        for row in rows {
            kept.take_row(row)?;
        }
        Ok(())
    }

    fn close(&self, _kept: &mut [MemberScopes]) -> Result<(), AllocError> {
        Ok(())
    }
}

impl MemberWatch<MemberScopes> for FindScopes {
    ghost stays = { λ w old new h. h };
}
