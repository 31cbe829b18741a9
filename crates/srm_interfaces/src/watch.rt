//! What is kept of the rows of members while they are made.
ghost use Rattle.std.specs.Prelude.{◌≡◌, ◌++◌, [], List, OnOk, length};
ghost use Rattle.srm_member.specs.declared.row.Row.{Row as OneRow};

use srm_member::row::Row;
use std::alloc::AllocError;

/// What is kept of the rows of one member, as they come: a `K`.
pub trait Watch<K> {
    // This is what is kept of exactly these rows.
    ghost keeps: { Self → K → List OneRow → Type 0 };

    // What was kept of each of some members was closed, and this is kept then.
    ghost closes: { Self → List K → List K → Type 0 };

    /// What is kept of no row.
    fn none(&self) -> K
        ensures { keeps self.now result [] };

    /// Makes this what is kept of no row, whatever it was.
    fn clear(&self, kept: &mut K)
        ensures { keeps self.now kept.new [] };

    /// Takes in more rows of the member.
    ///
    /// # Errors
    /// [`AllocError`]: what is kept is of no more use.
    fn add(&self, kept: &mut K, rows: &[Row]) -> Result<(), AllocError>
        ensures { OnOk result ((before : List OneRow) → keeps self.now kept.old before
            → keeps self.now kept.new (before ++ rows.now)) };

    /// Closes what is kept of each of some members, in order of their numbers, as those of a job: it may put it together, so that
    /// less is left to whoever takes what is kept of all.
    ///
    /// # Errors
    /// [`AllocError`]: what is kept is of no more use.
    fn close(&self, kept: &mut [K]) -> Result<(), AllocError>
        ensures long { length kept.new ≡ length kept.old }
        ensures closed { OnOk result (closes self.now kept.old kept.new) };

    // What is closed may stand as it is.
    ghost may_stand: { (w : Self) (own : List K) → closes w own own };
}

/// A watch that puts nothing together: more rows may be taken in after a close.
pub trait MemberWatch<K>: Watch<K> {
    ghost stays: { (w : Self) (old new : List K) → Self.closes w old new → new ≡ old };
}
