//! The leader's ends of the channels, and the history.
ghost use Rattle.std.specs.Prelude.{◌≡◌, ◌<◌, ◌≤◌, ◌+◌, ◌^◌, [], Some, length, slice_get};
ghost use Rattle.std.specs.Prelude.{All, IfOk, IfErr};
ghost use Rattle.std.specs.List.{AllZip};
ghost use Rattle.srm_team.specs.Tells.{IsMidway, Filled};

use crate::answer::Answer;
use crate::batch::Batch;
use crate::bench::Bench;
use crate::book::Book;
use crate::fault::TeamFault;
use crate::front::Front;
use crate::naming::Naming;
use crate::opened::Opened;
use crate::order::Order;
use crate::receiving::receive;
use crate::slots::{collect, empty_slots};
use crate::work::Work;
use crossbeam_channel::{Receiver, Sender};
use std::alloc::{AllocError, Global};
use std::snapshot::Snapshot;
use std::sync::Wait;

/// The leader's ends.
#[derive(Drop)]
pub(crate) struct LeaderEnds<W: Work<T, D> + Copy, T: Drop, D: Drop, J: Naming> {
    pub(crate) book: Book<W, T, J>,
    pub(crate) front: Front<W, T, J>,
    pub(crate) to_workers: Sender<Order<W, T, D, J>>,
    pub(crate) orders: Receiver<Order<W, T, D, J>>,
    pub(crate) answers: Receiver<Answer<W, T, D, J>>,
}

// Keeps an answer at its place, and says whether none stood there. An answer to an earlier list is dropped.
fn keep<W: Work<T, D> + Copy, T: Drop, D: Drop, J: Naming>(
    front: &Front<W, T, J>,
    number: u64,
    slots: &mut Vec<Option<D>>,
    answer: Answer<W, T, D, J>,
    asked: &Snapshot<Batch<W, T>>,
) -> bool
    requires asked { slice_get front.now number ≡ Some asked.now.value }
    requires filled { Filled (λ x d. W.gives asked.now.value.work x d) asked.now.value.items.items slots.old.items }
    ensures filled { Filled (λ x d. W.gives asked.now.value.work x d) asked.now.value.items.items slots.new.items }
{
    let Answer {
        number: other,
        place,
        done,
        front: seen,
    } = answer;
    front.beside(&seen);
    if other != number || place >= slots.len() {
        return false;
    }
    let fresh = slots[place].is_none();
    slots[place] = Some(done);
    fresh
}

impl<W: Work<T, D> + Copy, T: Drop, D: Drop, J: Naming> LeaderEnds<W, T, D, J> {
    /// The leader's ends of channels with room for so many items, and the bench with the workers' ends.
    pub(crate) fn open(
        alloc: Global,
        opened: Opened<W, T>,
        room: usize,
    ) -> Result<(LeaderEnds<W, T, D, J>, Bench<W, T, D, J>), AllocError>
        requires { opened ≡ J.book }
        ensures { IfOk result (λ r. r.0.front ≡ []) }
    {
        let (book, front) = opened.named::<J>();
        let (to_workers, orders) = crossbeam_channel::bounded(alloc, room)?;
        let (from_workers, answers) = crossbeam_channel::bounded(alloc, room)?;
        let bench = Bench {
            orders: orders.clone()?,
            answers: from_workers,
        };
        let ends = LeaderEnds {
            book,
            front,
            to_workers,
            orders,
            answers,
        };
        Ok((ends, bench))
    }

    /// Sends each item of a list, in order.
    pub(crate) fn send_all<R: Wait>(
        &self,
        rt: &R,
        number: u64,
        batch: Batch<W, T>,
        asked: &Snapshot<Batch<W, T>>,
    ) -> Result<(), TeamFault>
        requires asked { slice_get self.now.front number ≡ Some asked.now.value }
        requires batch { batch ≡ asked.now.value }
        requires ready { All (λ x. W.ready batch.work x) batch.items.items }
        ensures { IfErr result IsMidway }
    {
        let Batch { work, items } = batch;
        let mut place = 0;
        for item in items {
            let order = Order::new(number, place, work, item, self.front.again());
            if self.to_workers.send(rt, order).is_err() {
                return Err(TeamFault::Left);
            }
            place += 1;
        }
        Ok(())
    }

    /// The next answer. The leader works on orders that nobody has taken, where no answer is there: what it takes in makes room
    /// for orders, without which workers sleep while it works.
    pub(crate) fn next<R: Wait>(&self, rt: &R) -> Result<Answer<W, T, D, J>, TeamFault>
        ensures { IfErr result (λ e. e ≡ TeamFault.Left) }
    {
        if let Ok(answer) = self.answers.try_recv(rt) {
            return Ok(answer);
        }
        if let Ok(order) = self.orders.try_recv(rt) {
            return Ok(order.carry_out());
        }
        match receive(rt, &self.answers) {
            Ok(answer) => Ok(answer),
            Err(_) => Err(TeamFault::Left),
        }
    }

    // Waits until each slot is full.
    fn fill<R: Wait>(
        &self,
        rt: &R,
        number: u64,
        slots: &mut Vec<Option<D>>,
        asked: &Snapshot<Batch<W, T>>,
    ) -> Result<(), TeamFault>
        requires asked { slice_get self.now.front number ≡ Some asked.now.value }
        requires filled { Filled (λ x d. W.gives asked.now.value.work x d) asked.now.value.items.items slots.old.items }
        ensures filled { Filled (λ x d. W.gives asked.now.value.work x d) asked.now.value.items.items slots.new.items }
        ensures fault { IfErr result IsMidway }
    {
        let mut left = slots.len();
        for _ in rt.forever() {
            if left == 0 {
                return Ok(());
            }
            let answer = match self.next(rt) {
                Ok(answer) => answer,
                Err(fault) => return Err(fault),
            };
            if keep(&self.front, number, slots, answer, asked) {
                left -= 1;
            }
        }
        unreachable!()
    }

    /// What comes of each item, in order of places.
    ///
    /// # Errors
    /// `NoMemory` or `Left`.
    pub(crate) fn map<R: Wait>(
        &mut self,
        rt: &R,
        alloc: Global,
        work: W,
        items: Vec<T>,
    ) -> Result<Vec<D>, TeamFault>
        requires ready { All (λ x. W.ready work x) items.items }
        requires lists { length self.old.front < 2 ^ 62 }
        ensures given { IfOk result (λ v. AllZip (λ x d. W.gives work x d) items.items v.items) }
        ensures fault { IfErr result IsMidway }
        ensures lists { length self.new.front ≤ length self.old.front + 1 }
    {
        let Ok(mut slots) = empty_slots(alloc, items.len()) else {
            return Err(TeamFault::NoMemory);
        };
        let batch = Batch { work, items };
        let asked = Snapshot::of(&batch);
        let Some(number) = self.front.ask(&self.book, &batch) else {
            return Err(TeamFault::Left);
        };
        match self.send_all(rt, number, batch, &asked) {
            Ok(()) => {}
            Err(fault) => return Err(fault),
        }
        match self.fill(rt, number, &mut slots, &asked) {
            Ok(()) => {}
            Err(fault) => return Err(fault),
        }
        collect(alloc, slots)
    }
}
