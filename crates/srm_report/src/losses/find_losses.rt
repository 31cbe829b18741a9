//! The watch that keeps what became of the losses of a member.
use crate::losses::by_loss::ByLoss;
use crate::losses::courses::note;
use crate::losses::member_losses::MemberLosses;
use srm_interfaces::watch::{MemberWatch, Watch};
use srm_member::row::Row;
use std::alloc::{AllocError, Global};

/// Keeps what became of the losses of a member, and no row.
#[derive(Clone, Copy)]
pub struct FindLosses {
    /// The memory that is taken for losses.
    pub alloc: Global,
}

impl Watch<MemberLosses> for FindLosses {
    ghost use Rattle.std.specs.Prelude.{◌≡◌, refl};
    ghost use Rattle.srm_report.specs.KeptLosses.{KeepsLosses};

    ghost keeps = { λ _ k rows. KeepsLosses rows k };

    ghost closes = { λ _ old new. new ≡ old };

    ghost may_stand = { λ _ _. refl };

    fn none(&self) -> MemberLosses {
        MemberLosses {
            losses: ByLoss::new(self.alloc),
        }
    }

    fn clear(&self, kept: &mut MemberLosses) {
        *kept = self.none();
    }

    fn add(&self, kept: &mut MemberLosses, rows: &[Row]) -> Result<(), AllocError> {
        for row in rows {
            note(&mut kept.losses, row)?;
        }
        Ok(())
    }

    fn close(&self, _kept: &mut [MemberLosses]) -> Result<(), AllocError> {
        Ok(())
    }
}

impl MemberWatch<MemberLosses> for FindLosses {
    ghost stays = { λ w old new h. h };
}
