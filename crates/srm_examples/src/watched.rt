//! Members whose reactions and ends are watched.
ghost use Rattle.std.specs.Prelude.{◌≡◌, ◌+◌, [], length, IfOk};

use srm_member::cause::Cause;
use srm_member::due::Due;
use srm_member::exit::Exit;
use srm_member::fault::MemberFault;
use srm_member::member::Member;
use srm_member::react::React;
use std::alloc::{AllocError, Global};
use std::sync::Arc;
use std::sync::atomic::{AtomicU64, Ordering};

/// A member that answers as the one inside, and counts its reactions and drops.
pub struct Watched<M: Member> {
    inner: M,
    reacts: Arc<AtomicU64>,
    drops: Arc<AtomicU64>,
}

impl<M: Member> Drop for Watched<M> {
    fn drop(self) {
        self.drops.fetch_add(1, Ordering::SeqCst);
        let Watched {
            inner: _,
            reacts: _,
            drops: _,
        } = self;
    }
}

impl<M: Member> Member for Watched<M> {
    ghost plain = { λ w. M.plain w.inner };

    fn number(&self) -> u16 {
        self.inner.number()
    }

    fn due(&self) -> Option<Due> {
        self.inner.due()
    }

    fn react(&mut self, alloc: Global, at: u64, cause: &Cause) -> Result<React, MemberFault> {
        self.reacts.fetch_add(1, Ordering::SeqCst);
        self.inner.react(alloc, at, cause)
    }

    fn finish(&mut self, alloc: Global) -> Result<Exit, MemberFault> {
        self.inner.finish(alloc)
    }
}

/// How often some members have reacted together, and how often each was dropped.
#[derive(Drop)]
pub struct MemberWatch {
    reacts: Arc<AtomicU64>,
    drops: Vec<Arc<AtomicU64>>,
}

impl MemberWatch {
    /// No member is watched yet.
    ///
    /// # Errors
    /// [`AllocError`] alone.
    pub fn new(alloc: Global) -> Result<MemberWatch, AllocError>
        ensures { IfOk result (λ w. w.drops.items ≡ []) }
    {
        Ok(MemberWatch {
            reacts: Arc::new(alloc, AtomicU64::new(0))?,
            drops: Vec::new(alloc),
        })
    }

    /// How often the members have reacted, also from now on.
    ///
    /// # Errors
    /// [`AllocError`] alone.
    pub fn reacts(&self) -> Result<Arc<AtomicU64>, AllocError> {
        Ok(Arc::try_clone(&self.reacts)?)
    }

    /// The member, watched from now on.
    ///
    /// # Errors
    /// [`AllocError`]: the member is gone, and not watched.
    pub fn over<M: Member>(&mut self, alloc: Global, inner: M) -> Result<Watched<M>, AllocError>
        ensures member { IfOk result (λ w. w.inner ≡ inner) }
        ensures more { IfOk result (λ _. length self.new.drops.items ≡ length self.old.drops.items + 1) }
    {
        let reacts = self.reacts()?;
        let drops = Arc::new(alloc, AtomicU64::new(0))?;
        self.drops.push(Arc::try_clone(&drops)?)?;
        Ok(Watched {
            inner,
            reacts,
            drops,
        })
    }

    /// How many members were watched.
    pub fn members(&self) -> usize
        ensures { result ≡ length self.now.drops.items }
    {
        self.drops.len()
    }

    /// Whether each member that was watched has been dropped exactly once.
    pub fn saw_each_dropped_once(&self) -> bool {
        for drops in &self.drops {
            if drops.load(Ordering::SeqCst) != 1 {
                return false;
            }
        }
        true
    }
}
