//! How a thread waits for a message.
use crossbeam_channel::{Receiver, RecvError};
use std::hint::spin_loop;
use std::sync::Wait;

// How often a thread looks for a message before it sleeps.
const LOOKS: u32 = 200;

/// The next message. It looks some times, which costs less than to sleep and to be woken where the message comes at once, and
/// then sleeps.
pub(crate) fn receive<R: Wait, M: Drop>(rt: &R, messages: &Receiver<M>) -> Result<M, RecvError> {
    for _ in 0..LOOKS {
        if let Ok(message) = messages.try_recv(rt) {
            return Ok(message);
        }
        spin_loop();
    }
    messages.recv(rt)
}
