//! What the program does, over its devices.
ghost use Rattle.std.specs.Prelude.{◌≡◌, ◌<◌, ◌-◌, ◌^◌, ℕ, List, [], IfOk, string_bytes};
ghost use Rattle.srm_program.specs.Explained.{KeepsText};
ghost use Rattle.srm_program.specs.RefusalLines.{line_of_fault};
ghost use Rattle.srm_program.specs.Program.{device, exit_status, full_line, status_of_fault, AnswersRequest, MayBeAsked, RefusesRequest, RemarksSo, RunsNothing, TakesEither, TakesFaultLine, TakesLine, TellsErrors, WritesHelp, WritesRules};
ghost use Rattle.srm_program.specs.Sessions.{reading_failures, session_failures};

use crate::explained::{asks_explanation, asks_remarks, following, remarked};
use crate::fault::{Fault, LabFault, LineFault};
use crate::line::{NoMemory, line_of};
use crate::request::Request;
use crate::session::{Simulated, simulate};
use srm_explain::rule_document::rule_document;
use srm_report::outlet::Outlet;
use srm_report::writing::{WriteFault, write_out};
use srm_scenario::feed::Feed;
use std::alloc::{AllocError, Global};
use std::marker::Sync;
use std::sync::Wait;
use std::thread::Threads;

// The exit status where the command line is refused.
const REFUSED_WORDS: u8 = 2;

/// Does what is asked for: it reads a scenario from the feed and writes the report of its run to the outlet, or writes help
/// there. For help and a refused command line nothing is read.
///
/// A refusal is told as one line on the outlet for errors, and explained after it where that is asked for and memory suffices.
/// The answer is the exit status: 0 where all was written, 1 after a refusal, and 2 where the command line is refused. An outlet
/// for errors that fails changes no status.
pub fn program<R: Threads + Wait + Sync, F: Feed, O: Outlet, E: Outlet>(
    rt: &R,
    alloc: Global,
    request: Request,
    feed: &mut F,
    outlet: &mut O,
    errors: &mut E,
) -> u8
    requires asked { IfOk request.asked MayBeAsked }
    requires feed { F.failures feed.old < 2 ^ 64 - 1 }
    requires outlet { O.failures outlet.old < 2 ^ 64 - 1 }
    requires errors { E.failures errors.old < 2 ^ 64 - 1 }
    ensures report { AnswersRequest request
        (device (F.remaining feed.old) (F.remaining feed.new) (F.failures feed.old) (F.failures feed.new))
        (device (O.taken outlet.old) (O.taken outlet.new) (O.failures outlet.old) (O.failures outlet.new))
        (device (E.taken errors.old) (E.taken errors.new) (E.failures errors.old) (E.failures errors.new))
        result }
    ensures refusals { RefusesRequest request
        (device (F.remaining feed.old) (F.remaining feed.new) (F.failures feed.old) (F.failures feed.new))
        (device (O.taken outlet.old) (O.taken outlet.new) (O.failures outlet.old) (O.failures outlet.new))
        (device (E.taken errors.old) (E.taken errors.new) (E.failures errors.old) (E.failures errors.new))
        result }
{
    let Request { asked, message } = request;
    let explains = asks_explanation(&asked);
    let remarks = asks_remarks(&asked);
    let wish = Wish {
        explains,
        remarks,
        message,
    };
    match asked {
        Ok((seed, options)) => {
            let simulated = simulate(rt, alloc, feed, seed, options, outlet);
            conclude(alloc, wish, simulated, errors)
        }
        Err(fault) => {
            let unread = run_nothing(alloc, fault, outlet);
            conclude(alloc, wish, unread, errors)
        }
    }
}

/// What is asked for to be told beside lines of refusals.
#[derive(Drop)]
struct Wish {
    /// Whether refusals are explained.
    explains: bool,
    /// Whether remarks are made on a scenario that is accepted.
    remarks: bool,
    /// What follows the line of refused words; and of any other refusal, where none is explained.
    message: String,
}

// Writes the help or the rules that are asked for, or refuses the command line.
fn run_nothing<O: Outlet>(alloc: Global, fault: LineFault, outlet: &mut O) -> Simulated
    requires { O.failures outlet.old < 2 ^ 64 - 1 }
    ensures read { (n : ℕ) → n ≡ reading_failures result.done n }
    ensures failures { O.failures outlet.new ≡ session_failures result.done (O.failures outlet.old) }
    ensures taken { RunsNothing fault (O.taken outlet.old) (O.taken outlet.new) result.done }
    ensures text { KeepsText result.done [] result.text.items }
{
    match fault {
        LineFault::Help { text } => Simulated::unread(alloc, write_help(text.as_str(), outlet)),
        LineFault::Rules => Simulated::unread(alloc, write_rules(alloc, outlet)),
        fault => Simulated::unread(alloc, Err(Fault::Line(fault))),
    }
}

// Writes help.
fn write_help<O: Outlet>(help: &str, outlet: &mut O) -> Result<(), Fault>
    requires { O.failures outlet.old < 2 ^ 64 - 1 }
    ensures read { (n : ℕ) → n ≡ reading_failures result n }
    ensures failures { O.failures outlet.new ≡ session_failures result (O.failures outlet.old) }
    ensures taken { WritesHelp help.now (O.taken outlet.old) (O.taken outlet.new) result }
{
    match write_out(outlet, help.as_bytes()) {
        Ok(()) => Ok(()),
        Err(WriteFault { written }) => Err(Fault::Lab(LabFault::WriteFault { written })),
    }
}

// Writes the rules of scenarios.
fn write_rules<O: Outlet>(alloc: Global, outlet: &mut O) -> Result<(), Fault>
    requires { O.failures outlet.old < 2 ^ 64 - 1 }
    ensures read { (n : ℕ) → n ≡ reading_failures result n }
    ensures failures { O.failures outlet.new ≡ session_failures result (O.failures outlet.old) }
    ensures taken { WritesRules (O.taken outlet.old) (O.taken outlet.new) result }
{
    match rule_document(alloc) {
        Ok(text) => write_help(text.as_str(), outlet),
        Err(AllocError) => Err(Fault::NoMemory),
    }
}

// Tells a refusal, and what follows it, or what is remarked, on the outlet for errors. Gives the exit status.
fn conclude<E: Outlet>(alloc: Global, wish: Wish, simulated: Simulated, errors: &mut E) -> u8
    requires { E.failures errors.old < 2 ^ 64 - 1 }
    ensures status { result ≡ exit_status simulated.done }
    ensures told { (given : List ℕ) → KeepsText simulated.done given simulated.text.items
        → TellsErrors (device (E.taken errors.old) (E.taken errors.new) (E.failures errors.old) (E.failures errors.new))
        wish.explains wish.remarks (string_bytes wish.message) given simulated.done }
{
    let Simulated { done, text } = simulated;
    match done {
        Ok(()) => {
            remark(alloc, wish.remarks, &text, errors);
            0
        }
        Err(fault) => {
            let Wish {
                explains,
                message,
                ..
            } = wish;
            let told = following(alloc, explains, message, &fault, &text);
            tell(alloc, &fault, told.as_str(), errors);
            status_of(&fault)
        }
    }
}

// Tells what is remarked of a text that is accepted, if remarks are asked for and there are some.
fn remark<E: Outlet>(alloc: Global, asks: bool, text: &[u8], errors: &mut E)
    requires { E.failures errors.old < 2 ^ 64 - 1 }
    ensures { RemarksSo (device (E.taken errors.old) (E.taken errors.new) (E.failures errors.old) (E.failures errors.new))
        asks text.now }
{
    let told = remarked(alloc, asks, text);
    if !told.is_empty() {
        put_line(told.as_bytes(), errors);
    }
}

// Tells the line of a refusal and what follows it. Where nothing follows, the line of a refused command line does not allocate.
fn tell<E: Outlet>(alloc: Global, fault: &Fault, told: &str, errors: &mut E)
    requires { E.failures errors.old < 2 ^ 64 - 1 }
    ensures { TakesFaultLine
        (device (E.taken errors.old) (E.taken errors.new) (E.failures errors.old) (E.failures errors.new))
        fault.now told.now }
{
    if status_of(fault) == REFUSED_WORDS {
        return put_both(alloc, "command line refused\n", told, errors);
    }
    match full_line_of(alloc, fault) {
        Ok(line) => put_both(alloc, line.as_str(), told, errors),
        Err(NoMemory) => put_line(b"refused: no-memory\n", errors),
    }
}

// Puts a line and what follows it, or the line alone where there is no memory for both.
fn put_both<E: Outlet>(alloc: Global, line: &str, told: &str, errors: &mut E)
    requires { E.failures errors.old < 2 ^ 64 - 1 }
    ensures { TakesEither
        (device (E.taken errors.old) (E.taken errors.new) (E.failures errors.old) (E.failures errors.new))
        line.now told.now }
{
    if told.is_empty() {
        return put_line(line.as_bytes(), errors);
    }
    match format!(in alloc; "{line}{told}") {
        Ok(both) => put_line(both.as_bytes(), errors),
        Err(_) => put_line(line.as_bytes(), errors),
    }
}

// The line of a refusal, with its line feed.
fn full_line_of(alloc: Global, fault: &Fault) -> Result<String, NoMemory>
    ensures { IfOk result (λ line. string_bytes line ≡ full_line (line_of_fault fault.now)) }
{
    let mut line = line_of(alloc, fault)?;
    line.push('\n')?;
    Ok(line)
}

// Puts a line to an outlet, as far as that takes it.
fn put_line<E: Outlet>(line: &[u8], errors: &mut E)
    requires { E.failures errors.old < 2 ^ 64 - 1 }
    ensures { TakesLine
        (device (E.taken errors.old) (E.taken errors.new) (E.failures errors.old) (E.failures errors.new))
        line.now }
{
    match write_out(errors, line) {
        Ok(()) => {}
        Err(WriteFault { .. }) => {}
    }
}

// The exit status after a refusal.
fn status_of(fault: &Fault) -> u8
    ensures { result ≡ status_of_fault fault.now }
{
    match fault {
        Fault::Line(LineFault::Line | LineFault::BadWord) => REFUSED_WORDS,
        Fault::Line(LineFault::Help { .. } | LineFault::Rules) => 0,
        _ => 1,
    }
}
