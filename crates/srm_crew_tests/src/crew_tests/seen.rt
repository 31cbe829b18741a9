//! What tests look at of what is done of jobs.
use srm_cell::cell::Cell;
use srm_cell::crossings::Crossings;
use srm_cell::job::Done;
use srm_interfaces::watched::WatchedDone;
use srm_member::member::Member;
use srm_member::row::{Row, Word};
use srm_member::told::Told;
use srm_net::sequence::Sequence;
use std::alloc::{AllocError, Global};

/// A row: when its event was, in ticks; whose it was, of which kind, and what came of it; and the count of the packet
/// that was sent.
pub(crate) type Seen = (u64, u16, Word, Told, Option<u64>);

/// What tests look at of a row.
pub(crate) fn row_seen(row: &Row) -> Seen {
    let sent = match &row.sent {
        None => None,
        Some(packet) => Some(packet.id.count),
    };
    (row.key.time, row.key.member, row.cause, row.told, sent)
}

/// What is done of all jobs of a window.
#[derive(Drop)]
pub(crate) struct Window {
    /// The rows, cell by cell.
    pub(crate) rows: Vec<Seen>,
    /// For each job whose rows have crossings its place, with the five numbers of each link.
    pub(crate) crossings: Vec<(usize, [u64; 5])>,
    /// The next time of each cell.
    pub(crate) next_times: Vec<Option<u64>>,
}

impl Window {
    /// What is done of these jobs.
    ///
    /// # Errors
    /// [`AllocError`] alone.
    pub(crate) fn of(alloc: Global, all: &[Done]) -> Result<Self, AllocError> {
        let mut window = Window {
            rows: Vec::new(alloc),
            crossings: Vec::new(alloc),
            next_times: Vec::new(alloc),
        };
        for done in all {
            window.add_lists(done.rows.as_slice())?;
            window.add_crossings(done.place, &done.crossings)?;
            window.add_next_times(done.cells.as_slice())?;
        }
        Ok(window)
    }

    /// The same of jobs of whose rows this was kept.
    ///
    /// # Errors
    /// [`AllocError`] alone.
    pub(crate) fn of_watched(
        alloc: Global,
        all: Vec<WatchedDone<Box<dyn Member>, Vec<Seen>>>,
    ) -> Result<Self, AllocError> {
        let mut window = Window {
            rows: Vec::new(alloc),
            crossings: Vec::new(alloc),
            next_times: Vec::new(alloc),
        };
        for done in all {
            window.add_crossings(done.place, &done.crossings)?;
            window.add_next_times(done.cells.as_slice())?;
            window.add_kept(done.kept)?;
        }
        Ok(window)
    }

    fn add_kept(&mut self, kept: Vec<Vec<Seen>>) -> Result<(), AllocError> {
        for own in kept {
            let mut own = own;
            self.rows.append(&mut own)?;
        }
        Ok(())
    }

    fn add_lists(&mut self, lists: &[Sequence<Row>]) -> Result<(), AllocError> {
        for rows in lists {
            self.add_rows(rows.as_slice())?;
        }
        Ok(())
    }

    fn add_rows(&mut self, rows: &[Row]) -> Result<(), AllocError> {
        for row in rows {
            self.rows.push(row_seen(row))?;
        }
        Ok(())
    }

    fn add_crossings(&mut self, place: usize, crossings: &Crossings) -> Result<(), AllocError> {
        let Some(totals) = crossings.counted() else {
            return Ok(());
        };
        for link in totals.links() {
            self.crossings.push((place, *link))?;
        }
        Ok(())
    }

    fn add_next_times(&mut self, cells: &[Cell]) -> Result<(), AllocError> {
        for cell in cells {
            self.next_times.push(cell.next_time())?;
        }
        Ok(())
    }
}
