//! The watch of a table that is made of no row.
use srm_interfaces::watch::{MemberWatch, Watch};
use srm_member::row::Row;
use std::alloc::AllocError;

/// Nothing is kept of the rows of a member.
#[derive(Clone, Copy, Debug)]
pub struct Nothing;

/// Keeps nothing of rows, and refuses none.
#[derive(Clone, Copy, Debug)]
pub struct KeepNothing;

impl Watch<Nothing> for KeepNothing {
    ghost use Rattle.std.specs.Prelude.{◌≡◌, refl};

    ghost keeps = { λ _ _ _. Unit {0} };

    ghost closes = { λ _ old new. new ≡ old };

    ghost may_stand = { λ _ _. refl };

    fn none(&self) -> Nothing {
        Nothing
    }

    fn clear(&self, _kept: &mut Nothing) {}

    fn add(&self, _kept: &mut Nothing, _rows: &[Row]) -> Result<(), AllocError> {
        Ok(())
    }

    fn close(&self, _kept: &mut [Nothing]) -> Result<(), AllocError> {
        Ok(())
    }
}

impl MemberWatch<Nothing> for KeepNothing {
    ghost stays = { λ w old new h. h };
}
