//! The watch that counts what the rows of a member say of it.
use crate::members::member_count::MemberCount;
use srm_interfaces::watch::{MemberWatch, Watch};
use srm_member::row::Row;
use std::alloc::AllocError;

/// Counts what the rows of a member say of it, and keeps no row.
#[derive(Clone, Copy, Debug)]
pub struct CountRows;

impl Watch<MemberCount> for CountRows {
    ghost use Rattle.std.specs.Prelude.{◌≡◌, refl};
    ghost use Rattle.srm_report.specs.MemberCounts.{IsCountOf};

    ghost keeps = { λ _ k rows. IsCountOf rows k };

    ghost closes = { λ _ old new. new ≡ old };

    ghost may_stand = { λ _ _. refl };

    fn none(&self) -> MemberCount {
        MemberCount::new()
    }

    fn clear(&self, kept: &mut MemberCount) {
        *kept = self.none();
    }

    /// Counts more rows of the member.
    ///
    /// # Errors
    /// [`AllocError`] where they would be more than 2^63 rows in all.
    fn add(&self, kept: &mut MemberCount, rows: &[Row]) -> Result<(), AllocError> {
        for row in rows {
            kept.count(row)?;
        }
        Ok(())
    }

    fn close(&self, _kept: &mut [MemberCount]) -> Result<(), AllocError> {
        Ok(())
    }
}

impl MemberWatch<MemberCount> for CountRows {
    ghost stays = { λ w old new h. h };
}
