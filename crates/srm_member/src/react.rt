//! What a member answers to a cause.
ghost use Rattle.std.specs.Prelude.{◌≡◌, ◌≢◌, [], None, Some, IfOk, OnErr};
ghost use Rattle.std.specs.Option.{option_copied};
ghost use Rattle.srm_member.specs.declared.told.Told.TheVariants.{Sent};
ghost use Rattle.srm_member.specs.Answers.{answer_of};

use crate::adapted::Adapted;
use crate::intervals::Intervals;
use crate::rare::Rare;
use crate::told::Told;
use srm_net::packet::{Body, Name};
use srm_net::sequence::Sequence;
use std::alloc::{AllocError, Global};
use std::marker::Model;

/// A member's answer to a cause, which contracts see as what it tells: what came of it, the names that are lost, what is sent, and
/// intervals.
///
/// All but the first are in a box, which most answers lack, so that each is small to hand on.
#[derive(Debug, Drop)]
pub struct React {
    told: Told,
    rare: Option<Box<Rare>>,
}

impl Model for React {
    ghost use Rattle.srm_member.specs.Answers.{Answer, answer_of};

    ghost Value = { Answer };

    ghost view = { λ r. answer_of r.told r.rare };
}

impl React {
    /// The answer that tells no more than what came of the cause. It does not allocate.
    #[inline(always)]
    pub fn quiet(told: Told) -> Self
        ensures { result ≡ record { told = told; lost = []; body = None; adapted = None } }
    {
        React { told, rare: None }
    }

    /// The answer that names are lost, and nothing is sent. Where there is no name it does not allocate.
    ///
    /// # Errors
    /// [`AllocError`], only where there is one.
    #[inline]
    pub fn losing(alloc: Global, told: Told, lost: Sequence<Name>) -> Result<Self, AllocError>
        ensures ok { IfOk result (λ r. r ≡ record { told = told; lost = lost; body = None; adapted = None }) }
        ensures memory { OnErr result (lost ≢ []) }
    {
        if lost.is_empty() {
            return Ok(React::quiet(told));
        }
        let rare = Rare {
            lost,
            body: None,
            adapted: Adapted::nothing(),
        };
        React::of(alloc, told, rare)
    }

    /// The answer that sends a packet with this body.
    ///
    /// # Errors
    /// [`AllocError`].
    pub fn sent(alloc: Global, body: Body) -> Result<Self, AllocError>
        ensures { IfOk result (λ r. r ≡ record { told = Sent; lost = []; body = Some body; adapted = None }) }
    {
        let rare = Rare {
            lost: Sequence::new(alloc),
            body: Some(body),
            adapted: Adapted::nothing(),
        };
        React::of(alloc, Told::Sent, rare)
    }

    /// The answer that tells this of intervals, and else the same.
    ///
    /// # Errors
    /// [`AllocError`].
    #[inline(always)]
    pub fn telling(self, alloc: Global, adapted: Adapted) -> Result<Self, AllocError>
        ensures { IfOk result (λ r. r ≡ record self { adapted = adapted }) }
    {
        let React { told, rare } = self;
        if let Some(mut rare) = rare {
            rare.adapted = adapted;
            return Ok(React {
                told,
                rare: Some(rare),
            });
        }
        if adapted.is_nothing() {
            return Ok(React::quiet(told));
        }
        let rare = Rare {
            lost: Sequence::new(alloc),
            body: None,
            adapted,
        };
        React::of(alloc, told, rare)
    }

    // The answer that tells this.
    fn of(alloc: Global, told: Told, rare: Rare) -> Result<Self, AllocError>
        ensures { IfOk result (λ r. r ≡ record { told = told; lost = rare.lost; body = rare.body; adapted = rare.adapted }) }
    {
        let rare = Box::new(alloc, rare)?;
        Ok(React {
            told,
            rare: Some(rare),
        })
    }

    /// What came of the cause. It does not allocate.
    #[inline]
    pub fn told(&self) -> Told
        ensures { result ≡ self.now.told }
    {
        self.told
    }

    /// The names that the member found to be missing, in the order in which it found them. It does not allocate.
    pub fn lost(&self) -> &[Name]
        ensures { result.now ≡ self.now.lost }
    {
        match &self.rare {
            Some(rare) => rare.lost.as_slice(),
            None => &[],
        }
    }

    /// What the member sends, if anything. It does not allocate.
    pub fn body(&self) -> Option<&Body>
        ensures { option_copied result ≡ self.now.body }
    {
        match &self.rare {
            Some(rare) => rare.body.as_ref(),
            None => None,
        }
    }

    /// The member's intervals after the event, if the answer tells them. It does not allocate.
    pub fn adapted(&self) -> Option<Intervals>
        ensures { result ≡ self.now.adapted }
    {
        match &self.rare {
            Some(rare) => rare.adapted.get(),
            None => None,
        }
    }

    /// What came of the cause, and the rest, if it tells any. It does not allocate.
    #[inline]
    pub fn into_parts(self) -> (Told, Option<Box<Rare>>)
        ensures { self ≡ answer_of result.0 result.1 }
    {
        let React { told, rare } = self;
        (told, rare)
    }
}
