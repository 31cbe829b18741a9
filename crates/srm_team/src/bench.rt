//! Workers: they take orders until there are no more to come.
use crate::answer::Answer;
use crate::naming::Naming;
use crate::order::Order;
use crate::receiving::receive;
use crate::work::Work;
use crossbeam_channel::{Receiver, Sender};
use std::alloc::Global;
use std::marker::{Model, Send, Sync};
use std::sync::Wait;
use std::thread;
use std::thread::Threads;

/// Where workers take orders and leave answers. Clauses see nothing of it.
#[derive(Drop)]
pub struct Bench<W: Work<T, D> + Copy, T: Drop, D: Drop, J: Naming> {
    pub(crate) orders: Receiver<Order<W, T, D, J>>,
    pub(crate) answers: Sender<Answer<W, T, D, J>>,
}

impl<W: Work<T, D> + Copy, T: Drop, D: Drop, J: Naming> Model for Bench<W, T, D, J> {
    ghost use Rattle.std.specs.Prelude.{⊤};

    ghost Value = { ⊤ };

    ghost view = { λ _. tt };
}

impl<W: Work<T, D> + Copy, T: Drop, D: Drop, J: Naming> Bench<W, T, D, J> {
    /// One worker. As it is written, it ends once its team is dropped. It does not allocate.
    pub fn serve<R: Wait>(&self, rt: &R) {
        for _ in rt.forever() {
            let Ok(order) = receive(rt, &self.orders) else {
                return;
            };
            if self.answers.send(rt, order.carry_out()).is_err() {
                return;
            }
        }
    }
}

/// So many workers, each on a thread of its own, until their team is dropped. Where fewer threads can be made, or memory is
/// refused, there are fewer workers, or none.
pub fn serve_all<
    R: Threads + Wait + Sync,
    W: Work<T, D> + Copy + Send + Sync,
    T: Send + Drop,
    D: Send + Drop,
    J: Naming + Send + Sync,
>(rt: &R, alloc: Global, threads: usize, bench: &Bench<W, T, D, J>) {
    let _ = thread::map_indices(rt, alloc, threads, &|_| bench.serve(rt));
}
