//! What the format says of one key.
ghost use Rattle.std.specs.Prelude.{◌≡◌, if◌then◌else◌};
ghost use Rattle.srm_scenario.specs.declared.rule.Need.TheVariants.{Required, Optional, Refused};
ghost use Rattle.srm_scenario.specs.Rules.{rule};

use crate::file_key::FileKey;

/// A set of words.
#[derive(Clone, Copy, Debug, PartialEq, Eq)]
pub enum Words {
    /// The roles of members.
    Roles,
    /// The topologies that are made of their size.
    Topologies,
    /// The same, and that the parents of nodes are given.
    TopologiesAndParents,
}

/// What a key may hold.
#[derive(Clone, Copy, Debug, PartialEq, Eq)]
pub enum ValueKind {
    /// A whole number from the first to the second, both allowed.
    Whole(u64, u64),
    /// A word of a set.
    Word(Words),
    /// An array of at most so many whole numbers, from 0 to the second.
    Numbers(u64, u64),
    /// An array of exactly so many whole numbers, from the second to the third.
    Each(u64, u64, u64),
    /// An array of at most so many elements, which are a part of their own.
    Elements(u64),
    /// An array of elements, which are a part of their own and stand for at most so many.
    Repeated(u64),
}

/// Whether a key must be there.
#[derive(Clone, Copy, Debug, PartialEq, Eq)]
pub enum Need {
    /// It must be there.
    Required,
    /// It may be there.
    Optional,
    /// It must not be there.
    Refused,
}

impl Need {
    /// Required where it is so, and otherwise refused.
    pub(crate) fn required_if(holds: bool) -> Need
        ensures { result ≡ (if holds then Required else Refused) }
    {
        if holds { Need::Required } else { Need::Refused }
    }

    /// Optional where it is so, and otherwise refused.
    pub(crate) fn optional_if(holds: bool) -> Need
        ensures { result ≡ (if holds then Optional else Refused) }
    {
        if holds { Need::Optional } else { Need::Refused }
    }

    /// Refused where it is so, and otherwise this.
    pub(crate) fn unless(self, holds: bool) -> Need
        ensures { result ≡ (if holds then Refused else self) }
    {
        if holds { Need::Refused } else { self }
    }
}

/// What the format says of one key.
#[derive(Clone, Copy, Debug, PartialEq, Eq)]
pub struct Rule {
    /// The key.
    pub key: FileKey,
    /// What it may hold.
    pub kind: ValueKind,
    /// Whether it must be there.
    pub need: Need,
}

impl Rule {
    /// The rule of a key.
    pub(crate) fn new(key: FileKey, kind: ValueKind, need: Need) -> Rule
        ensures { result ≡ rule key kind need }
    {
        Rule { key, kind, need }
    }
}
