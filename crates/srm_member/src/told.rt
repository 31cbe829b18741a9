//! What a member tells of an event.
ghost use Rattle.std.specs.Prelude.{◌≡◌};
ghost use Rattle.srm_member.specs.Kinds as kinds;

/// What came of an event at a member, and the word that stands for it in a trace.
#[derive(Clone, Copy, Debug, PartialEq, Eq)]
pub enum Told {
    /// It joined: `in`.
    Entered,
    /// It left: `out`.
    Parted,
    /// It took in an operation that it had not heard of: `fresh`.
    Fresh,
    /// It took in an operation that it was missing: `fixed`.
    Fixed,
    /// It has the operation: `again`.
    Again,
    /// The event does not concern it: `skip`.
    Skip,
    /// It answered this request, or heard its repair, a short while ago: `rest`.
    Rest,
    /// It has set a repair timer already: `busy`.
    Busy,
    /// It set a repair timer: `plan`.
    Plan,
    /// It lacks the operation too, and backed off a short while ago: `hold`.
    Hold,
    /// It lacks the operation too, and backed off: `back`.
    Back,
    /// It took in a session message: `told`.
    Heard,
    /// It sent a packet: `sent`.
    Sent,
}

impl Told {
    /// Whether the member sent a packet.
    pub fn is_sent(self) -> bool
        ensures { result ≡ kinds.is_sent self }
    {
        matches!(self, Told::Sent)
    }

    /// Whether the member took in an operation that it was missing.
    pub fn is_fixed(self) -> bool
        ensures { result ≡ kinds.is_fixed self }
    {
        matches!(self, Told::Fixed)
    }
}
