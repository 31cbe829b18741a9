//! What the words of a command line ask for.
ghost use Rattle.std.specs.Prelude.{◌≡◌, IfOk, string_bytes};
ghost use Rattle.srm_command_line.specs.CommandLine.{hint_for, AsksForRuns, HintsAlone, HintsUnasked};
ghost use Rattle.srm_options.specs.Asked.{MayBeAsked};

use crate::command_line::{message_of, options_here};
use crate::line_fault::LineFault;
use srm_options::options::Options;
use std::alloc::{AllocError, Global};
use std::env::Args;
use std::io;
use std::thread::Threads;

/// What the words of a command line ask for.
#[derive(Debug, Drop)]
pub struct Request {
    /// The seed and the options, or why nothing is run.
    pub asked: Result<(u64, Options), LineFault>,
    /// What is told after the line of a refusal: of refused words what to mend, where an explanation is asked for; and of any,
    /// where none is, the hint that there is one, or nothing.
    pub message: String,
}

// What is told where no explanation is asked for: to a terminal that there is one.
fn hint_for(at_terminal: bool) -> &'static str
    ensures { result.now ≡ hint_for at_terminal }
{
    if at_terminal {
        "  add --explain to be told what to mend\n"
    } else {
        ""
    }
}

/// What the words of a command line ask for on this machine, whose refusals a terminal takes or not. The first word is the
/// program's name. A word that is no text is refused. Where they do not say how many workers a team has, or make replications,
/// there is one for each processor, up to 64.
pub fn request_of(
    rt: &impl Threads,
    alloc: Global,
    words: io::Result<Args>,
    at_terminal: bool,
) -> Request
    ensures asked { IfOk result.asked MayBeAsked }
    ensures replications { IfOk result.asked AsksForRuns }
    ensures hint { IfOk result.asked (HintsUnasked (hint_for at_terminal) (string_bytes result.message)) }
{
    let fault = match words {
        Ok(words) => match words.collect(alloc) {
            Ok(words) => return understood(rt, alloc, &words, at_terminal),
            Err(_) => LineFault::NoMemory,
        },
        Err(error) if error.kind() == io::ErrorKind::OutOfMemory => LineFault::NoMemory,
        Err(_) => LineFault::Line,
    };
    Request {
        asked: Err(fault),
        message: String::new(alloc),
    }
}

// What words of text ask for.
fn understood(rt: &impl Threads, alloc: Global, words: &Vec<String>, at_terminal: bool) -> Request
    ensures asked { IfOk result.asked MayBeAsked }
    ensures replications { IfOk result.asked AsksForRuns }
    ensures hint { IfOk result.asked (HintsUnasked (hint_for at_terminal) (string_bytes result.message)) }
    ensures silent { HintsAlone string_bytes words.now.items (hint_for at_terminal) (string_bytes result.message) }
{
    let hint = hint_for(at_terminal);
    let asked = options_here(rt, alloc, words.as_slice());
    let message = message_for(alloc, &asked, words.as_slice(), hint);
    Request { asked, message }
}

// What is told of words after the line of a refusal. Where there is no memory for it nothing is.
fn message_for(
    alloc: Global,
    asked: &Result<(u64, Options), LineFault>,
    words: &[String],
    hint: &str,
) -> String
    ensures hint { IfOk asked.now (HintsUnasked hint.now (string_bytes result)) }
    ensures silent { HintsAlone string_bytes words.now hint.now (string_bytes result) }
{
    match asked {
        Ok((_, options)) if !options.explain => match String::from_str(alloc, hint) {
            Ok(message) => message,
            Err(AllocError) => String::new(alloc),
        },
        Err(LineFault::Line | LineFault::BadWord) => match message_of(alloc, words, hint) {
            Ok(message) => message,
            Err(AllocError) => String::new(alloc),
        },
        _ => String::new(alloc),
    }
}
