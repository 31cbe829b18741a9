//! The laws of packets: each is handed once to every member to which it has a flight.
ghost use Rattle.srm_model.specs.Handed.{PacketsAreNumbered, PacketsAreHandedOnce, HandedPacketsWereSent, PacketsAreTheirIdentities};

/// A packet's identity is its sender, and how many packets that member sent in earlier rows.
pub fn packets_are_numbered()
    ensures { PacketsAreNumbered }
{}

/// In a complete run each packet that was sent is handed exactly once to every member to which it has a flight, and never to
/// another.
pub fn packets_are_handed_once()
    ensures { PacketsAreHandedOnce }
{}

/// What is handed was sent in an earlier row, and is handed at the time at which it arrives.
pub fn handed_packets_were_sent()
    ensures { HandedPacketsWereSent }
{}

/// Packets of one identity are one packet.
pub fn packets_are_their_identities()
    ensures { PacketsAreTheirIdentities }
{}
