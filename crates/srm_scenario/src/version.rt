//! Versions of the scenario format.
ghost use Rattle.std.specs.Prelude.{◌≡◌, ◌≤◌, ◌==◌, if◌then◌else◌};
ghost use Rattle.srm_scenario.specs.declared.version.Version.TheVariants.{One, Two, Three, Four, Five};

use crate::limits::{GREATEST_CONSTANT, GREATEST_LIMIT, MOST_LISTED, MOST_REPEATED};

/// A version of the scenario format.
#[derive(Clone, Copy, Debug, PartialEq, Eq)]
pub enum Version {
    /// A link takes as long in both directions, and is never out. There are at most 256 nodes.
    One,
    /// A link may have a second delay, `back`, and outages. There are at most 1,024 nodes.
    Two,
    /// As version 2; and members may adapt the constants of their timers, an element may stand for several, and the parents of
    /// nodes may be given in place of links. There are at most 65,535 nodes.
    Three,
    /// As version 3; and links may lose packets at random.
    Four,
    /// As version 4; and requests may have scopes, and losses may come in bursts.
    Five,
}

impl Version {
    ghost use Rattle.srm_scenario.specs.Rules.{allows_back, allows_bursts, allows_limits, allows_losses, allows_outages, allows_parents, allows_repetition, allows_scopes, greatest_constant_in, most_nodes_in, last_number, most_listed_in};

    /// The version of this number. Where there is none of this number, it is the first.
    pub fn of(number: u64) -> Version
        ensures { result ≡ (if number == 5 then Five else if number == 4 then Four else if number == 3 then Three
            else if number == 2 then Two else One) }
    {
        match number {
            5 => Version::Five,
            4 => Version::Four,
            3 => Version::Three,
            2 => Version::Two,
            _ => Version::One,
        }
    }

    /// Whether links may have a second delay.
    pub fn allows_back(self) -> bool
        ensures { result ≡ allows_back self }
    {
        match self {
            Version::One => false,
            Version::Two | Version::Three | Version::Four | Version::Five => true,
        }
    }

    /// Whether links may have outages.
    pub fn allows_outages(self) -> bool
        ensures { result ≡ allows_outages self }
    {
        match self {
            Version::One => false,
            Version::Two | Version::Three | Version::Four | Version::Five => true,
        }
    }

    /// Whether links may lose packets at random.
    pub fn allows_losses(self) -> bool
        ensures { result ≡ allows_losses self }
    {
        match self {
            Version::One | Version::Two | Version::Three => false,
            Version::Four | Version::Five => true,
        }
    }

    /// Whether losses may come in bursts.
    pub fn allows_bursts(self) -> bool
        ensures { result ≡ allows_bursts self }
    {
        match self {
            Version::One | Version::Two | Version::Three | Version::Four => false,
            Version::Five => true,
        }
    }

    /// Whether requests may have scopes.
    pub fn allows_scopes(self) -> bool
        ensures { result ≡ allows_scopes self }
    {
        match self {
            Version::One | Version::Two | Version::Three | Version::Four => false,
            Version::Five => true,
        }
    }

    /// Whether members may adapt the constants of their timers.
    pub fn allows_limits(self) -> bool
        ensures { result ≡ allows_limits self }
    {
        match self {
            Version::One | Version::Two => false,
            Version::Three | Version::Four | Version::Five => true,
        }
    }

    /// Whether the parents of nodes may be given in place of links.
    pub fn allows_parents(self) -> bool
        ensures { result ≡ allows_parents self }
    {
        match self {
            Version::One | Version::Two => false,
            Version::Three | Version::Four | Version::Five => true,
        }
    }

    /// Whether an element may stand for several.
    pub fn allows_repetition(self) -> bool
        ensures { result ≡ allows_repetition self }
    {
        match self {
            Version::One | Version::Two => false,
            Version::Three | Version::Four | Version::Five => true,
        }
    }

    /// The greatest first value of a constant of timers, in thousandths: 64,000 or 1,024,000.
    pub fn greatest_constant(self) -> u64
        ensures { result ≡ greatest_constant_in self }
    {
        match self {
            Version::One | Version::Two => GREATEST_CONSTANT,
            Version::Three | Version::Four | Version::Five => GREATEST_LIMIT,
        }
    }

    /// How many nodes there are at most, and how many members: 256, 1,024 or 65,535.
    pub fn most_nodes(self) -> u16
        ensures nodes { result ≡ most_nodes_in self }
        ensures some { 1 ≤ result }
    {
        match self {
            Version::One => 256,
            Version::Two => 1024,
            Version::Three | Version::Four | Version::Five => 65_535,
        }
    }

    /// How many draws there are at most, and how many session messages, drops, outages and losses, of each kind: 4,096 or
    /// 65,535.
    pub fn most_listed(self) -> u64
        ensures { result ≡ most_listed_in self }
    {
        match self {
            Version::One | Version::Two => MOST_LISTED,
            Version::Three | Version::Four | Version::Five => MOST_REPEATED,
        }
    }

    /// The last number that a node, a link or a member may have: 255, 1,023 or 65,534.
    pub fn last_number(self) -> u16
        ensures number { result ≡ last_number self }
        ensures few { result ≤ 65534 }
    {
        self.most_nodes() - 1
    }
}
