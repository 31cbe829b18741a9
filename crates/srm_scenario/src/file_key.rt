//! The keys of scenario files.
ghost use Rattle.std.specs.Prelude.{◌≡◌};
ghost use Rattle.srm_scenario.specs.Keys.{name_of};

/// A key of a scenario file, in whichever part. Where two parts have keys of one name, they are one key.
#[derive(Clone, Copy, Debug, PartialEq, Eq)]
pub enum FileKey {
    /// `version`.
    Version,
    /// `until`.
    Until,
    /// `c1`.
    C1,
    /// `c2`.
    C2,
    /// `d1`.
    D1,
    /// `d2`.
    D2,
    /// `c1_least`.
    C1Least,
    /// `c2_least`.
    C2Least,
    /// `d1_least`.
    D1Least,
    /// `d2_least`.
    D2Least,
    /// `c1_most`.
    C1Most,
    /// `c2_most`.
    C2Most,
    /// `d1_most`.
    D1Most,
    /// `d2_most`.
    D2Most,
    /// `backoff`.
    Backoff,
    /// `scope`.
    Scope,
    /// `widen`.
    Widen,
    /// `tries`.
    Tries,
    /// `steps`.
    Steps,
    /// `nodes`.
    Nodes,
    /// `topology`.
    Topology,
    /// `size`.
    Size,
    /// `delay`.
    Delay,
    /// `back`.
    Back,
    /// `degree`.
    Degree,
    /// `link`.
    Link,
    /// `member`.
    Member,
    /// `draw`.
    Draw,
    /// `session`.
    Session,
    /// `drop`.
    Drop,
    /// `outage`.
    Outage,
    /// `loss`.
    Loss,
    /// `a`.
    A,
    /// `b`.
    B,
    /// `node`.
    Node,
    /// `role`.
    Role,
    /// `stream`.
    Stream,
    /// `join`.
    Join,
    /// `leave`.
    Leave,
    /// `pages`.
    Pages,
    /// `page`.
    Page,
    /// `ink`.
    Ink,
    /// `at`.
    At,
    /// `sender`.
    Sender,
    /// `count`.
    Count,
    /// `rate`.
    Rate,
    /// `from`.
    From,
    /// `to`.
    To,
    /// `burst`.
    Burst,
    /// `parent`.
    Parent,
    /// `delays`.
    Delays,
    /// `backs`.
    Backs,
    /// `times`.
    Times,
    /// `every`.
    Every,
}

impl FileKey {
    /// The key as it stands in a file.
    pub fn name(self) -> &'static str
        ensures { result.now ≡ name_of self }
    {
        match self {
            FileKey::Version => "version",
            FileKey::Until => "until",
            FileKey::C1 => "c1",
            FileKey::C2 => "c2",
            FileKey::D1 => "d1",
            FileKey::D2 => "d2",
            FileKey::C1Least => "c1_least",
            FileKey::C2Least => "c2_least",
            FileKey::D1Least => "d1_least",
            FileKey::D2Least => "d2_least",
            FileKey::C1Most => "c1_most",
            FileKey::C2Most => "c2_most",
            FileKey::D1Most => "d1_most",
            FileKey::D2Most => "d2_most",
            FileKey::Backoff => "backoff",
            FileKey::Scope => "scope",
            FileKey::Widen => "widen",
            FileKey::Tries => "tries",
            FileKey::Steps => "steps",
            FileKey::Nodes => "nodes",
            FileKey::Topology => "topology",
            FileKey::Size => "size",
            FileKey::Delay => "delay",
            FileKey::Back => "back",
            FileKey::Degree => "degree",
            FileKey::Link => "link",
            FileKey::Member => "member",
            FileKey::Draw => "draw",
            FileKey::Session => "session",
            FileKey::Drop => "drop",
            FileKey::Outage => "outage",
            FileKey::Loss => "loss",
            FileKey::A => "a",
            FileKey::B => "b",
            FileKey::Node => "node",
            FileKey::Role => "role",
            FileKey::Stream => "stream",
            FileKey::Join => "join",
            FileKey::Leave => "leave",
            FileKey::Pages => "pages",
            FileKey::Page => "page",
            FileKey::Ink => "ink",
            FileKey::At => "at",
            FileKey::Sender => "sender",
            FileKey::Count => "count",
            FileKey::Rate => "rate",
            FileKey::From => "from",
            FileKey::To => "to",
            FileKey::Burst => "burst",
            FileKey::Parent => "parent",
            FileKey::Delays => "delays",
            FileKey::Backs => "backs",
            FileKey::Times => "times",
            FileKey::Every => "every",
        }
    }
}
