//! A session of members, as a scenario describes it.
ghost use Rattle.std.specs.Prelude.{◌≡◌, ◌<◌, ◌≤◌, ◌+◌, ◌-◌, ◌^◌, ℕ, List, [], length, IfSome};
ghost use Rattle.std.specs.Io.KnownBytes.{Consumes};
ghost use Rattle.srm_scenario.specs.declared.bytes.TheConstants.{LONGEST_TEXT};
ghost use Rattle.srm_program.specs.Explained.{KeepsText};
ghost use Rattle.srm_options.specs.Asked.{MayBeReplicated};
ghost use Rattle.srm_program.specs.Runs.{MayShareBag};
ghost use Rattle.srm_program.specs.Sessions.{reading_failures, session_failures, ReadsSessionToEnd, TellsFeed, TellsText, TellsTextRefusals};

use crate::fault::Fault;
use crate::members::run_members;
use crate::options::Options;
use crate::replications::{Seeds, replicate};
use crate::run::ByEngine;
use srm_report::outlet::Outlet;
use srm_scenario::bytes::{TextFault, read_text};
use srm_scenario::fault::ScenarioFault;
use srm_scenario::feed::Feed;
use srm_scenario::reading::scenario_of_text;
use srm_scenario::session::Session;
use std::alloc::Global;
use std::marker::Sync;
use std::sync::Wait;
use std::thread::Threads;

/// What came of a simulation.
#[derive(Debug, Drop)]
pub struct Simulated {
    /// Whether it was refused, and why.
    pub done: Result<(), Fault>,
    /// The text that was read, so that a refusal can be explained: all that was given, or nothing. It is nothing where the feed
    /// failed or words were refused; where the text was too long, or memory ran out, it is one or the other. As it is written,
    /// nothing is kept of a text that was too long.
    pub text: Vec<u8>,
}

impl Simulated {
    // One that read no text.
    pub(crate) fn unread(alloc: Global, done: Result<(), Fault>) -> Simulated
        ensures done { result.done ≡ done }
        ensures text { result.text.items ≡ [] }
    {
        Simulated {
            done,
            text: Vec::new(alloc),
        }
    }
}

/// Reads a text from a feed, and simulates it as [`simulate_text`] does. Where the feed failed, or gives more than
/// [`LONGEST_TEXT`](srm_scenario::bytes::LONGEST_TEXT) bytes, the session is refused and nothing is written. Else it is what
/// [`simulate_text`] answers.
pub fn simulate<R: Threads + Wait + Sync, F: Feed, O: Outlet>(
    rt: &R,
    alloc: Global,
    feed: &mut F,
    seed: u64,
    options: Options,
    outlet: &mut O,
) -> Simulated
    requires workers { MayShareBag options.workers }
    requires replications { MayBeReplicated seed options.engine options.replications }
    requires feed { F.failures feed.old < 2 ^ 64 - 1 }
    requires outlet { O.failures outlet.old < 2 ^ 64 - 1 }
    ensures read { F.failures feed.new ≡ reading_failures result.done (F.failures feed.old) }
    ensures failures { O.failures outlet.new ≡ session_failures result.done (O.failures outlet.old) }
    // A text that was read whole leaves nothing to come.
    ensures end { ReadsSessionToEnd result.done (F.remaining feed.new) }
    // There is a text that decides the answer and what the outlet took: what the feed gave, where its bytes are known.
    ensures taken { (given : List ℕ) × Consumes (F.remaining feed.old) (F.remaining feed.new) given
        × (length given ≤ LONGEST_TEXT + 1)
        × TellsFeed seed options given (O.taken outlet.old) (O.taken outlet.new) result.done
        × KeepsText result.done given result.text.items }
    // From what is known to be still to come of the feed to the outlet's.
    ensures report { IfSome (F.remaining feed.old) (λ text.
        TellsFeed seed options text (O.taken outlet.old) (O.taken outlet.new) result.done) }
    ensures refusals { TellsTextRefusals seed options result.text.items (O.taken outlet.old) (O.taken outlet.new) result.done }
{
    let text = match read_text(alloc, feed) {
        Ok(text) => text,
        Err(TextFault::ReadFault) => {
            let done = Err(Fault::Scenario(ScenarioFault::ReadFault));
            let text = Vec::new(alloc);
            return Simulated { done, text };
        }
        Err(TextFault::TooLong) => {
            let done = Err(Fault::Scenario(ScenarioFault::TooLong));
            let text = Vec::new(alloc);
            return Simulated { done, text };
        }
        Err(TextFault::NoMemory) => return Simulated::unread(alloc, Err(Fault::NoMemory)),
    };
    let done = simulate_text(rt, alloc, &text, seed, options, outlet);
    Simulated { done, text }
}

/// Makes the members of the scenario that a text describes, with random words and losses of this seed, runs them, and writes the
/// report of the run to an outlet; or makes replications, from this seed on, and writes their table. Where the scenario is only
/// to be checked, it is read and nothing more is done.
///
/// # Errors
/// 1. `Scenario`: the first fault of the text, as of [`scenario_of_text`](srm_scenario::reading::scenario_of_text).
/// 2. `Lab`: that of [`run`](crate::run::run) or [`replicate`](crate::replications::replicate), and then the outlet is as said
///    there.
///
/// `NoMemory` may come at any place. After each refusal but those of `run` and `replicate` the outlet has taken nothing.
pub fn simulate_text<R: Threads + Wait + Sync, O: Outlet>(
    rt: &R,
    alloc: Global,
    text: &[u8],
    seed: u64,
    options: Options,
    outlet: &mut O,
) -> Result<(), Fault>
    requires workers { MayShareBag options.workers }
    requires replications { MayBeReplicated seed options.engine options.replications }
    requires count { O.failures outlet.old < 2 ^ 64 - 1 }
    // The count rises exactly where the answer is `WriteFault`, and then by one.
    ensures failures { O.failures outlet.new ≡ session_failures result (O.failures outlet.old) }
    ensures report { TellsText seed options text.now (O.taken outlet.old) (O.taken outlet.new) result }
    ensures refusals { TellsTextRefusals seed options text.now (O.taken outlet.old) (O.taken outlet.new) result }
{
    let scenario = match scenario_of_text(alloc, text) {
        Ok(scenario) => scenario,
        Err(fault) => return Err(Fault::Scenario(fault)),
    };
    if options.check {
        return Ok(());
    }
    let scenario = scenario.with_seed(seed);
    let Ok(net) = scenario.net(alloc) else {
        return Err(Fault::NoMemory);
    };
    let session = Session {
        scenario: &scenario,
        net: &net,
    };
    match options.replications {
        None => run_members(ByEngine { rt }, alloc, session, seed, options, outlet),
        Some(count) => {
            let seeds = Seeds { first: seed, count };
            match replicate(rt, alloc, session, seeds, options, outlet) {
                Ok(()) => Ok(()),
                Err(fault) => Err(Fault::Lab(fault)),
            }
        }
    }
}
