//! The watch that keeps what a member's rows tell of operations.
use crate::operations::member_operations::MemberOperations;
use srm_interfaces::watch::{MemberWatch, Watch};
use srm_member::row::Row;
use std::alloc::{AllocError, Global};

/// Keeps what became of a member's losses, what it sent for each name, and whether it left, and no row.
#[derive(Clone, Copy)]
pub struct FindOperations {
    /// The memory that is taken for what is kept.
    pub alloc: Global,
}

impl Watch<MemberOperations> for FindOperations {
    ghost use Rattle.std.specs.Prelude.{◌≡◌, refl};
    ghost use Rattle.srm_report.specs.KeptOperations.{KeepsOperations};

    ghost keeps = { λ _ k rows. KeepsOperations rows k };

    ghost closes = { λ _ old new. new ≡ old };

    ghost may_stand = { λ _ _. refl };

    fn none(&self) -> MemberOperations {
        MemberOperations::new(self.alloc)
    }

    fn clear(&self, kept: &mut MemberOperations) {
        *kept = self.none();
    }

    /// Takes in more rows of the member.
    ///
    /// # Errors
    /// [`AllocError`], also where a count would be too great for its number.
    fn add(&self, kept: &mut MemberOperations, rows: &[Row]) -> Result<(), AllocError> {
        for row in rows {
            kept.take_row(row)?;
        }
        Ok(())
    }

    fn close(&self, _kept: &mut [MemberOperations]) -> Result<(), AllocError> {
        Ok(())
    }
}

impl MemberWatch<MemberOperations> for FindOperations {
    ghost stays = { λ w old new h. h };
}
