//! A member's cell.
ghost use Rattle.std.specs.Prelude.{◌≡◌, ◌≢◌, ◌≤◌, ◌<◌, ◌∷◌, ◌++◌, [], Some, None, Ok, Err};
ghost use Rattle.std.specs.Prelude.{OnOk, OnErr, IfOk, IfErr, All, MatchResult};
ghost use Rattle.srm_net.specs.Limits.{end_of_time, most_sent};
ghost use Rattle.srm_net.specs.Orders.{Rises};
ghost use Rattle.srm_scenario.specs.Plain.{mark_cmp};
ghost use Rattle.srm_cell.specs.Flights.{BringsNone};
ghost use Rattle.srm_cell.specs.Cells.{hear_at, first_arrival, first_mark, next_timer, due_in};
ghost use Rattle.srm_cell.specs.Views.{AreArriving, IsNew, Becomes, Steps, Ends, IsNextOf, IsNextTime, TellsMember, known_in};
ghost use Rattle.srm_cell.specs.InnerSteps.{StandsFor, AnswersNext, AnswersEvent, HasAnswer, IsQuiet, Completes};
ghost use Rattle.srm_member.specs.declared.cause.Cause.TheVariants as causes;
ghost use Rattle.srm_cell.specs.declared.pending_event.Source.TheVariants as sources;
ghost use Rattle.srm_cell.specs.PutRows.{PutsRow, PutsStep};
ghost use Rattle.srm_cell.specs.Jobs.{Runs};
ghost use Rattle.srm_cell.specs.Setting.{traffic_of};
ghost use Rattle.srm_cell.specs.Hearing.{IsSent, packets_in, MayHearAll, HearsAll};

use crate::arrival::arrival;
use crate::boxes::{finish, react};
use crate::fault::CellFault;
use crate::inbox::Inbox;
use crate::pending_event::{
    Next, PendingEvent, Source, arrival_time, is_expiry, is_idle, mark_time, timer_time,
};
use crate::rows::{about, cause_at, expiry, packet, word};
use crate::script::Script;
use crate::sent::Sent;
use srm_member::adapted::Adapted;
use srm_member::cause::Cause;
use srm_member::due::Due;
use srm_member::exit::Exit;
use srm_member::fault::MemberFault;
use srm_member::member::Member;
use srm_member::participant::Participant;
use srm_member::rare::Rare;
use srm_member::react::React;
use srm_member::row::{About, Row, Word};
use srm_member::told::Told;
use srm_net::key::Key;
use srm_net::packet::Packet;
use srm_net::sequence::Sequence;
use srm_scenario::mark::Mark;
use srm_scenario::session::Session;
use std::alloc::{AllocError, Global};

/// A member's cell: its box, the packets on their way to it, the rest of its script, its packet count, once it left what it ended
/// with, and which of all that is pending is next.
#[derive(Drop)]
pub struct Cell<M = Box<dyn Member>> {
    number: u16,
    next: Next,
    inbox: Inbox,
    member: Option<M>,
    script: Script,
    sent: u64,
    // in a box: it is not looked at before the end, and would stand between the parts of the next cell and those of this one
    exit: Option<Box<Exit>>,
}

impl<M: Participant> Cell<M> {
    /// A member's cell with this script. The member's next packet has count `sent`. As it is written, it asks for no memory.
    pub fn new(alloc: Global, member: M, script: Vec<Mark>, sent: u64) -> Cell<M>
        requires sent { sent ≤ most_sent }
        requires script { Rises mark_cmp script.items }
        ensures { IsNew M.plain (M.plain member) script.items sent result }
    {
        let number = member.number();
        let mut cell = Cell {
            number,
            member: Some(member),
            inbox: Inbox::new(alloc),
            script: Script::new(script),
            sent,
            exit: None,
            next: Next::of(None),
        };
        cell.next = cell.least();
        cell
    }

    /// The least time of the cell's pending events, in ticks: of packets on their way, of the script and of timers, whenever the
    /// run ends. It does not allocate.
    pub fn next_time(&self) -> Option<u64>
        ensures { IsNextTime M.plain self.now result }
    {
        match self.next.source {
            Source::Nowhere => None,
            Source::Inbox | Source::Script | Source::Timer => Some(self.next.time),
        }
    }

    /// How many packets arrive at the member before tick `till`, or the greatest number of a `usize`. It does not allocate.
    pub fn arriving_before(&self, till: u64) -> usize
        ensures { AreArriving M.plain till self.now result }
    {
        self.inbox.arriving_before(till)
    }

    /// Adds a packet that arrives at tick `arrival`.
    ///
    /// # Errors
    /// `NoMemory`: the cell is then as it was.
    #[inline(always)]
    pub fn accept(&mut self, packet: &Packet, arrival: u64) -> Result<(), CellFault>
        requires { BringsNone packet.now.id self.old.inbox }
        ensures ok { OnOk result (Becomes M.plain (λ p. hear_at packet.now (Some arrival) p) self.old self.new) }
        ensures memory { IfErr result (λ e. e ≡ CellFault.NoMemory) }
        ensures err { OnErr result (Becomes M.plain (λ p. p) self.old self.new) }
    {
        if self.inbox.accept(packet, arrival).is_err() {
            return Err(CellFault::NoMemory);
        }
        if arrival < self.next.time {
            self.next = Next {
                time: arrival,
                source: Source::Inbox,
            };
        } else if arrival == self.next.time && !self.next.is_arrival() {
            // At one tick keys decide which is next, but of two packets either comes then.
            self.next = self.by_keys();
        }
        Ok(())
    }

    /// Hears what was sent, one packet after the other: each that has a flight to the cell's member is added.
    ///
    /// # Errors
    /// [`AllocError`]. Nothing is known of the cell then.
    pub fn hear(&mut self, session: Session, sent: &[Sent]) -> Result<(), AllocError>
        requires sent { All (λ x. IsSent session.scenario.now session.net.now x) sent.now }
        requires new { MayHearAll M.plain (traffic_of session.scenario.now session.net.now) (packets_in sent.now)
            self.old }
        ensures { IfOk result (λ _. HearsAll M.plain (traffic_of session.entry.scenario.now session.entry.net.now)
            (packets_in sent.now) self.old self.new) }
    {
        for one in sent {
            if let Some(at) = arrival(session, &one.packet, &one.spread, self.number) {
                let Ok(()) = self.accept(&one.packet, at) else {
                    return Err(AllocError);
                };
            }
        }
        Ok(())
    }

    /// Takes the cell's least pending event, if it is before tick `till`, and gives its row. At a leave the member is
    /// finished and its box is dropped.
    ///
    /// # Errors
    /// `Spent` only where there is an event and its member is gone; `CountFull` only where the member is to send a packet with
    /// its packet count used up; `NoMemory` only where there is an event, and a member to answer it. Nothing is known of the cell
    /// then, and it is of no more use.
    pub fn step(&mut self, alloc: Global, till: u64) -> Result<Option<Row>, CellFault>
        requires { till ≤ end_of_time }
        ensures { Steps M.plain till self.old result self.new }
    {
        let mut rows = Vec::new(alloc);
        match self.step_onto(alloc, till, &mut rows) {
            Ok(true) => Ok(rows.pop()),
            Ok(false) => Ok(None),
            Err(fault) => Err(fault),
        }
    }

    /// As [`Cell::step`], where the row is put behind others: a row is large, and is made where it is to stand. Tells whether
    /// there was an event.
    ///
    /// # Errors
    /// As of [`Cell::step`]. Nothing is known of the rows then.
    pub fn step_onto(
        &mut self,
        alloc: Global,
        till: u64,
        rows: &mut Vec<Row>,
    ) -> Result<bool, CellFault>
        requires { till ≤ end_of_time }
        ensures { PutsStep (λ r. Steps M.plain till self.old r self.new) rows.old.items result rows.new.items }
    {
        let next = self.next;
        if next.time >= till {
            return Ok(false);
        }
        match self.answer(alloc, next, rows) {
            Ok(true) => {
                // By its fields: as a whole, what fills it up in memory would be copied too.
                let Next { time, source } = self.least();
                self.next.time = time;
                self.next.source = source;
                Ok(true)
            }
            Ok(false) => Ok(false),
            Err(fault) => Err(fault),
        }
    }

    /// The cell's own events before tick `till`, one after the other, and a row for each. Where there is none it does not
    /// allocate.
    ///
    /// # Errors
    /// That of the first [`Cell::step`] that is refused: `Spent`, `CountFull`, or `NoMemory`, only where there is a first event
    /// and a member to answer it. Nothing is known of the cell then, and it is of no more use.
    pub fn run(&mut self, alloc: Global, till: u64) -> Result<Sequence<Row>, CellFault>
        requires { till ≤ end_of_time }
        ensures { Runs M.plain till self.old result self.new }
    {
        let mut rows = Vec::new(alloc);
        self.run_into(alloc, till, &mut rows)?;
        Ok(Sequence::from_vec(rows))
    }

    /// As [`Cell::run`], where the rows take the place of what is there: many runs, one after the other, need but one vector.
    ///
    /// # Errors
    /// As of [`Cell::run`]. Nothing is known of the rows then.
    pub fn run_into(
        &mut self,
        alloc: Global,
        till: u64,
        rows: &mut Vec<Row>,
    ) -> Result<(), CellFault>
        requires { till ≤ end_of_time }
        ensures { MatchResult result (λ _. Runs M.plain till self.old (Ok rows.new.items) self.new)
            (λ e. Runs M.plain till self.old (Err e) self.new) }
    {
        rows.clear();
        loop {
            match self.step_onto(alloc, till, rows) {
                Ok(true) => {}
                Ok(false) => return Ok(()),
                Err(fault) => return Err(fault),
            }
        }
    }

    /// What the member ends with: as it left, or else as it ends now. Its box is dropped.
    ///
    /// # Errors
    /// `Spent` only where the member is gone and left no exit; `NoMemory` only where it is there and left no exit. The cell and
    /// its box are gone.
    pub fn finish(self, alloc: Global) -> Result<Exit, CellFault>
        ensures { Ends M.plain self result }
    {
        let Cell { member, exit, .. } = self;
        if let Some(exit) = exit {
            return Ok(Box::into_inner(exit));
        }
        ended(alloc, member)
    }

    // The next event is taken, and the member answers it. Tells whether there was one.
    #[inline]
    fn answer(&mut self, alloc: Global, next: Next, rows: &mut Vec<Row>) -> Result<bool, CellFault>
        requires { next.time < end_of_time }
        ensures { PutsStep (λ r. AnswersNext M.plain next self.old r self.new) rows.old.items result rows.new.items }
    {
        let Source::Inbox = next.source else {
            return self.answer_own(alloc, next, rows);
        };
        let Some(flight) = self.inbox.pop_first() else {
            return Ok(false);
        };
        let key = PendingEvent::arriving(self.number, next.time, flight.packet.id).key;
        self.say_packet(alloc, key, flight.packet, rows)?;
        Ok(true)
    }

    // The same of a mark or a timer: apart from packets, as most events are, since what makes room for its values costs each of
    // them.
    #[inline(never)]
    fn answer_own(
        &mut self,
        alloc: Global,
        next: Next,
        rows: &mut Vec<Row>,
    ) -> Result<bool, CellFault>
        requires time { next.time < end_of_time }
        requires own { next.source ≢ sources.Inbox }
        ensures { PutsStep (λ r. AnswersNext M.plain next self.old r self.new) rows.old.items result rows.new.items }
    {
        match next.source {
            Source::Script => {
                let Some(mark) = self.script.pop_first() else {
                    return Ok(false);
                };
                let key = PendingEvent::marked(self.number, next.time, mark).key;
                match cause_at(mark) {
                    Some(cause) => self.say(alloc, key, cause, rows)?,
                    None => self.leave(alloc, key, rows)?,
                }
                Ok(true)
            }
            Source::Timer => {
                let Some(due) = self.due() else {
                    return Ok(false);
                };
                let key = PendingEvent::expiring(self.number, next.time, due).key;
                self.say(alloc, key, expiry(due), rows)?;
                Ok(true)
            }
            Source::Nowhere => Ok(false),
            Source::Inbox => unreachable!(),
        }
    }

    // The member reacts to a cause, and a row is put behind others.
    #[inline(never)]
    fn say(
        &mut self,
        alloc: Global,
        key: Key,
        cause: Cause,
        rows: &mut Vec<Row>,
    ) -> Result<(), CellFault>
        requires { key.time < end_of_time }
        ensures { PutsRow (λ r. AnswersEvent M.plain key (Some cause) self.old r self.new) rows.old.items result rows.new.items }
    {
        let cause_word = word(&cause);
        let reaction = self.ask(alloc, key, &cause)?;
        let subject = about(cause, reaction.body());
        let row = quiet_row(alloc, key, cause_word, subject, reaction.told());
        self.put_answer(rows, row, reaction)
    }

    // The same of a packet that arrives, as most events are: from where the member reads it, it goes to its row by one way alone.
    #[inline]
    fn say_packet(
        &mut self,
        alloc: Global,
        key: Key,
        packet: Packet,
        rows: &mut Vec<Row>,
    ) -> Result<(), CellFault>
        requires { key.time < end_of_time }
        ensures { PutsRow (λ r. AnswersEvent M.plain key (Some (causes.Arrival packet)) self.old r self.new)
            rows.old.items result rows.new.items }
    {
        let cause = Cause::Arrival { packet };
        let cause_word = word(&cause);
        let reaction = self.ask(alloc, key, &cause)?;
        let Cause::Arrival { packet } = cause else {
            unreachable!()
        };
        let row = quiet_row(
            alloc,
            key,
            cause_word,
            About::Of { packet },
            reaction.told(),
        );
        self.put_answer(rows, row, reaction)
    }

    // What the member answers to a cause.
    #[inline(always)]
    fn ask(&mut self, alloc: Global, key: Key, cause: &Cause) -> Result<React, CellFault>
        requires { key.time < end_of_time }
        ensures { HasAnswer M.plain key cause.now self.old result self.new }
    {
        let Some(member) = &mut self.member else {
            return Err(CellFault::Spent);
        };
        match react(alloc, member, key.time, cause) {
            Ok(reaction) => Ok(reaction),
            Err(MemberFault::NoMemory) => Err(CellFault::NoMemory),
            Err(MemberFault::Spent) => Err(CellFault::Spent),
        }
    }

    // The row of an answer is put behind others, with what the answer tells beside its word.
    #[inline(always)]
    fn put_answer(
        &mut self,
        rows: &mut Vec<Row>,
        row: Row,
        reaction: React,
    ) -> Result<(), CellFault>
        requires { IsQuiet reaction.told row }
        ensures { PutsRow (λ r. Completes row reaction self.old r self.new) rows.old.items result rows.new.items }
    {
        let (_, rare) = reaction.into_parts();
        let Some(rare) = rare else {
            return put(rows, row);
        };
        let Rare {
            lost,
            body,
            adapted,
        } = Box::into_inner(rare);
        let Row {
            key,
            cause,
            about,
            told,
            ..
        } = row;
        let sent = packet(&mut self.sent, key, body)?;
        let row = Row {
            key,
            cause,
            about,
            told,
            lost,
            sent,
            adapted,
        };
        put(rows, row)
    }

    // The member leaves: it ends, and its box is dropped.
    fn leave(&mut self, alloc: Global, key: Key, rows: &mut Vec<Row>) -> Result<(), CellFault>
        ensures { PutsRow (λ r. AnswersEvent M.plain key None self.old r self.new) rows.old.items result rows.new.items }
    {
        let Some(mut member) = self.member.take() else {
            return Err(CellFault::Spent);
        };
        match finish(alloc, &mut member) {
            Err(MemberFault::NoMemory) => Err(CellFault::NoMemory),
            Err(MemberFault::Spent) => Err(CellFault::Spent),
            Ok(exit) => {
                let Ok(exit) = Box::new(alloc, exit) else {
                    return Err(CellFault::NoMemory);
                };
                self.exit = Some(exit);
                let row = quiet_row(alloc, key, Word::Leave, About::Nothing, Told::Parted);
                put(rows, row)
            }
        }
    }

    // The least event of the cell, looked for among all that it has. No key is made where one is sooner than both others, where a
    // packet arrives as a timer expires, and where there is none, as mostly between two sendings.
    #[inline(always)]
    fn least(&self) -> Next
        ensures { IsNextOf M.plain self.now result }
    {
        let arrival = arrival_time(&self.inbox);
        let mark = mark_time(&self.script);
        let due = self.due();
        let timer = timer_time(due);
        if arrival < mark && arrival < timer {
            return Next {
                time: arrival,
                source: Source::Inbox,
            };
        }
        if arrival < mark && arrival == timer && is_expiry(due) {
            return Next {
                time: arrival,
                source: Source::Inbox,
            };
        }
        if timer < arrival && timer < mark {
            return Next {
                time: timer,
                source: Source::Timer,
            };
        }
        if mark < arrival && mark < timer {
            return Next {
                time: mark,
                source: Source::Script,
            };
        }
        if is_idle(&self.inbox, &self.script, due) {
            return Next::of(None);
        }
        self.by_keys()
    }

    // The least event by keys.
    #[inline(never)]
    fn by_keys(&self) -> Next
        ensures { IsNextOf M.plain self.now result }
    {
        let mut next = self.timer();
        PendingEvent::take_place_if_any(self.mark(), &mut next);
        PendingEvent::take_place_if_any(self.arrival(), &mut next);
        Next::of(next)
    }

    fn arrival(&self) -> Option<PendingEvent>
        ensures { StandsFor M.plain (λ m p. first_arrival m p p.inbox) self.now result }
    {
        let (time, id) = self.inbox.first()?;
        Some(PendingEvent::arriving(self.number, time, id))
    }

    fn mark(&self) -> Option<PendingEvent>
        ensures { StandsFor M.plain (λ m p. first_mark m p p.script) self.now result }
    {
        let mark = self.script.first()?;
        Some(PendingEvent::marked(self.number, mark.at, mark))
    }

    fn timer(&self) -> Option<PendingEvent>
        ensures { StandsFor M.plain (λ m p. next_timer m p (due_in p.holds)) self.now result }
    {
        let due = self.due()?;
        Some(PendingEvent::expiring(self.number, due.time, due))
    }

    fn due(&self) -> Option<Due>
        ensures { result ≡ due_in (known_in M.plain self.now.member) }
    {
        match &self.member {
            None => None,
            Some(member) => member.due(),
        }
    }
}

// What a member ends with, if it is there.
fn ended<M: Participant>(alloc: Global, member: Option<M>) -> Result<Exit, CellFault>
    ensures { TellsMember (known_in M.plain member) result }
{
    let Some(mut member) = member else {
        return Err(CellFault::Spent);
    };
    match finish(alloc, &mut member) {
        Ok(exit) => Ok(exit),
        Err(MemberFault::NoMemory) => Err(CellFault::NoMemory),
        Err(MemberFault::Spent) => Err(CellFault::Spent),
    }
}

// The row of an event of which no more is told than what came of it.
#[inline(always)]
fn quiet_row(alloc: Global, key: Key, cause: Word, about: About, told: Told) -> Row
    ensures { result ≡ record { key = key; cause = cause; about = about; told = told; lost = []; sent = None; adapted = None } }
{
    Row {
        key,
        cause,
        about,
        told,
        lost: Sequence::new(alloc),
        sent: None,
        adapted: Adapted::nothing(),
    }
}

// Puts a row behind others.
#[inline(always)]
fn put(rows: &mut Vec<Row>, row: Row) -> Result<(), CellFault>
    ensures row { OnOk result (rows.new.items ≡ rows.old.items ++ row ∷ []) }
    ensures memory { IfErr result (λ e. e ≡ CellFault.NoMemory) }
{
    if rows.push(row).is_err() {
        return Err(CellFault::NoMemory);
    }
    Ok(())
}
