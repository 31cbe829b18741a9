//! What is told of a fault after its line.
ghost use Rattle.std.specs.Prelude.{◌≡◌, IfOk, string_bytes};
ghost use Rattle.srm_program.specs.Explained.{asks_explanation, asks_remarks, lab_sentence, unexplained, width_sentence, ExplainsFault, ExplainsWidth, FollowsLine, MayFollow, MayRemark};
ghost use Rattle.srm_options.specs.declared.options.Options.{Options};

use crate::fault::{Fault, LabFault, LineFault};
use crate::options::Options;
use srm_explain::explanation::explain;
use srm_explain::remarks::remarks;
use srm_scenario::reading::scenario_of_text;
use std::alloc::{AllocError, Global};

/// Whether a refusal is to be explained, as the words of a command line ask for.
pub(crate) fn asks_explanation(asked: &Result<(u64, Options), LineFault>) -> bool
    ensures { result ≡ asks_explanation asked.now }
{
    match asked {
        Ok((_, options)) => options.explain,
        Err(_) => false,
    }
}

/// Whether remarks are to be made on a scenario that is accepted, as the words of a command line ask for.
pub(crate) fn asks_remarks(asked: &Result<(u64, Options), LineFault>) -> bool
    ensures { result ≡ asks_remarks asked.now }
{
    match asked {
        Ok((_, options)) => options.check && options.explain,
        Err(_) => false,
    }
}

/// What is remarked of an accepted text, which is nothing where no remarks are asked for, or where there was no memory for them.
pub(crate) fn remarked(alloc: Global, asks: bool, text: &[u8]) -> String
    ensures { MayRemark asks text.now (string_bytes result) }
{
    if !asks {
        return String::new(alloc);
    }
    match remarks(alloc, text) {
        Ok(told) => told,
        Err(AllocError) => String::new(alloc),
    }
}

/// What is told after the line of a fault, where a session read this text: of refused words their message.
pub(crate) fn following(
    alloc: Global,
    asks: bool,
    message: String,
    fault: &Fault,
    text: &[u8],
) -> String
    ensures { FollowsLine asks (string_bytes message) text.now fault.now (string_bytes result) }
{
    match fault {
        Fault::Line(_) => message,
        _ => told_of(alloc, asks, message, fault, text),
    }
}

// What is told of the fault of a session that read this text: this message where no explanation is asked for, and else nothing
// where there was no memory for one.
fn told_of(alloc: Global, asks: bool, message: String, fault: &Fault, text: &[u8]) -> String
    ensures { MayFollow asks (string_bytes message) text.now fault.now (string_bytes result) }
{
    if !asks {
        return unexplained(alloc, message, fault);
    }
    match explained(alloc, fault, text) {
        Ok(told) => told,
        Err(AllocError) => String::new(alloc),
    }
}

// What is told of a fault where no explanation is asked for: this message, and nothing where standard output failed.
fn unexplained(alloc: Global, message: String, fault: &Fault) -> String
    ensures { string_bytes result ≡ unexplained (string_bytes message) fault.now }
{
    match fault {
        Fault::Lab(LabFault::WriteFault { .. }) => String::new(alloc),
        _ => message,
    }
}

// The explanation of the fault of a session that read this text.
fn explained(alloc: Global, fault: &Fault, text: &[u8]) -> Result<String, AllocError>
    ensures { IfOk result (λ told. ExplainsFault text.now fault.now (string_bytes told)) }
{
    match fault {
        Fault::Line(_) => Ok(String::new(alloc)),
        Fault::Scenario(fault) => explain(alloc, *fault, text),
        Fault::Lab(LabFault::WriteFault { .. }) => Ok(String::new(alloc)),
        Fault::Lab(LabFault::BadWidth) => explained_width(alloc, text),
        Fault::Lab(fault) => {
            let sentence = lab_sentence(*fault);
            format!(in alloc; "  {sentence}\n")
        }
        Fault::NoMemory => String::from_str(alloc, "  there was no memory left\n"),
    }
}

// The explanation of a width that the network of this text's scenario does not allow.
fn explained_width(alloc: Global, text: &[u8]) -> Result<String, AllocError>
    ensures { IfOk result (λ told. ExplainsWidth text.now (string_bytes told)) }
{
    let Ok(scenario) = scenario_of_text(alloc, text) else {
        return Err(AllocError);
    };
    let Ok(net) = scenario.net(alloc) else {
        return Err(AllocError);
    };
    let sentence = width_sentence(alloc, net.least_delay())?;
    let told = format!(in alloc; "  {sentence}\n")?;
    Ok(told)
}

// What is said of a width, where this is the least delay of a link, if there is a link.
fn width_sentence(alloc: Global, least: Option<u64>) -> Result<String, AllocError>
    ensures { IfOk result (λ s. string_bytes s ≡ width_sentence least) }
{
    match least {
        Some(delay) => {
            format!(in alloc;
                "--width is 1 to {delay} in this network: no link takes less in either direction"
            )
        }
        None => String::from_str(alloc, "--width is at least 1"),
    }
}

// What is said of the fault of a run, where that needs no text.
fn lab_sentence(fault: LabFault) -> &'static str
    ensures { result.now ≡ lab_sentence fault }
{
    match fault {
        LabFault::BadCut => "--cut is 1 to 1024 where --engine is window",
        LabFault::ShareFull =>
            "more than 140737488355328 packets of a kind crossed a link, or were dropped at it",
        LabFault::NoMemory => "there was no memory left",
        LabFault::CountFull =>
            "a member sent 281474976710656 packets, which are as many as are counted",
        LabFault::BadWidth | LabFault::WriteFault { .. } => "",
    }
}
