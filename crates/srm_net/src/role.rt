//! What a member of a session does.

/// A member's role in the session.
#[derive(Clone, Copy, Debug, PartialEq, Eq)]
pub enum Role {
    /// Draws, and takes part in loss recovery.
    Sender,
    /// Takes part in loss recovery.
    Receiver,
    /// Takes part in loss recovery, and asks for earlier drawing operations of chosen pages alone (this project's own).
    Late,
    /// Hears, and neither asks nor answers (this project's own).
    Listener,
}
