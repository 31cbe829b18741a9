//! The watch that keeps a member's rows.
ghost use Rattle.std.specs.Prelude.{◌≡◌, IfOk};

use srm_interfaces::watch::Watch;
use srm_member::adapted::Adapted;
use srm_member::row::{About, Row};
use std::alloc::{AllocError, Global};

/// Keeps copies of the rows of a member.
#[derive(Clone, Copy)]
pub(crate) struct KeepRows {
    /// The memory that is taken for rows.
    pub(crate) alloc: Global,
}

impl Watch<Vec<Row>> for KeepRows {
    ghost use Rattle.std.specs.Prelude.{◌≡◌, refl};

    ghost keeps = { λ _ k rows. k.items ≡ rows };

    ghost closes = { λ _ old new. new ≡ old };

    ghost may_stand = { λ _ _. refl };

    fn none(&self) -> Vec<Row> {
        Vec::new(self.alloc)
    }

    fn clear(&self, kept: &mut Vec<Row>) {
        kept.clear();
    }

    fn add(&self, kept: &mut Vec<Row>, rows: &[Row]) -> Result<(), AllocError> {
        for row in rows {
            kept.push(copied(self.alloc, row)?)?;
        }
        Ok(())
    }

    fn close(&self, _kept: &mut [Vec<Row>]) -> Result<(), AllocError> {
        Ok(())
    }
}

// A copy of a row.
fn copied(alloc: Global, row: &Row) -> Result<Row, AllocError>
    ensures { IfOk result (λ copy. copy ≡ row.now) }
{
    let about = match &row.about {
        About::Nothing => About::Nothing,
        About::Of { packet } => About::Of {
            packet: packet.clone()?,
        },
        About::Named { name } => About::Named { name: *name },
    };
    let sent = match &row.sent {
        Some(packet) => Some(packet.clone()?),
        None => None,
    };
    Ok(Row {
        key: row.key,
        cause: row.cause,
        about,
        told: row.told,
        lost: row.lost.clone()?,
        sent,
        adapted: Adapted::of(alloc, row.adapted.get())?,
    })
}
