//! Two jobs that have to be under way at once.
use std::alloc::{AllocError, Global};
use std::sync::Arc;
use std::sync::atomic::{AtomicU64, Ordering};
use std::thread::yield_now;

// How often a job looks whether the other has come, and lets other threads run: some seconds.
const LOOKS: u32 = 5_000_000;

/// How often jobs came to a meeting.
#[derive(Clone, Copy, Debug, PartialEq, Eq)]
pub struct Entries {
    /// The first of the two that have to meet.
    pub first: u64,
    /// The second of them.
    pub second: u64,
    /// Any other.
    pub others: u64,
    /// How often one of the two waited in vain.
    pub missed: u64,
}

/// Where the jobs of two places have to meet, in each list of jobs anew.
#[derive(Drop)]
pub struct Meeting {
    place: usize,
    first: AtomicU64,
    second: AtomicU64,
    others: AtomicU64,
    missed: AtomicU64,
}

impl Meeting {
    /// For the jobs of this place and of the next one. None came yet.
    ///
    /// # Errors
    /// [`AllocError`] alone.
    pub fn new(alloc: Global, place: usize) -> Result<Arc<Meeting>, AllocError> {
        Ok(Arc::new(
            alloc,
            Meeting {
                place,
                first: AtomicU64::new(0),
                second: AtomicU64::new(0),
                others: AtomicU64::new(0),
                missed: AtomicU64::new(0),
            },
        )?)
    }

    /// The job of a place comes. One of the two waits for the other, but no longer than some seconds, and no more once one has
    /// waited in vain.
    pub fn come(&self, place: usize) {
        if place == self.place {
            self.meet(&self.first, &self.second);
        } else if place > 0 && place - 1 == self.place {
            self.meet(&self.second, &self.first);
        } else {
            self.others.fetch_add(1, Ordering::SeqCst);
        }
    }

    // Comes as `own`, and waits until `other` has come as often, or until one has waited in vain.
    fn meet(&self, own: &AtomicU64, other: &AtomicU64) {
        let before = own.fetch_add(1, Ordering::SeqCst);
        for _ in 0..LOOKS {
            if other.load(Ordering::SeqCst) > before || self.missed.load(Ordering::SeqCst) > 0 {
                return;
            }
            yield_now();
        }
        self.missed.fetch_add(1, Ordering::SeqCst);
    }

    /// How often jobs came so far.
    pub fn entries(&self) -> Entries {
        Entries {
            first: self.first.load(Ordering::SeqCst),
            second: self.second.load(Ordering::SeqCst),
            others: self.others.load(Ordering::SeqCst),
            missed: self.missed.load(Ordering::SeqCst),
        }
    }
}
