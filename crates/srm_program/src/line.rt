//! The line of a refusal.
ghost use Rattle.std.specs.Prelude.{◌≡◌, IfOk, string_bytes};
ghost use Rattle.srm_program.specs.RefusalLines.{command_line, lab_line, line_of_fault, part_word, scenario_line};

use crate::fault::{Fault, LabFault, LineFault};
use srm_scenario::fault::{Part, ScenarioFault};
use std::alloc::{AllocError, Global};

/// Memory ran out.
#[derive(Clone, Copy, Debug, PartialEq, Eq)]
pub struct NoMemory;

impl From<AllocError> for NoMemory {
    fn from(_fault: AllocError) -> Self {
        NoMemory
    }
}

/// The line that tells why the program refuses, without its line feed.
///
/// # Errors
/// `NoMemory`.
pub fn line_of(alloc: Global, fault: &Fault) -> Result<String, NoMemory>
    ensures { IfOk result (λ line. string_bytes line ≡ line_of_fault fault.now) }
{
    match fault {
        Fault::Line(fault) => line_of_line_fault(alloc, fault),
        Fault::Scenario(fault) => line_of_scenario_fault(alloc, *fault),
        Fault::Lab(fault) => line_of_lab_fault(alloc, *fault),
        Fault::NoMemory => Ok(String::from_str(alloc, "refused: no-memory")?),
    }
}

fn line_of_line_fault(alloc: Global, fault: &LineFault) -> Result<String, NoMemory>
    ensures { IfOk result (λ line. string_bytes line ≡ command_line fault.now) }
{
    let line = match fault {
        LineFault::Line => "command line refused",
        LineFault::BadWord => "command line refused",
        LineFault::Help { .. } | LineFault::Rules => "",
        LineFault::NoMemory => "refused: no-memory",
    };
    Ok(String::from_str(alloc, line)?)
}

fn line_of_scenario_fault(alloc: Global, fault: ScenarioFault) -> Result<String, NoMemory>
    ensures { IfOk result (λ line. string_bytes line ≡ scenario_line fault) }
{
    let line = match fault {
        ScenarioFault::ReadFault => String::from_str(alloc, "refused: read-fault")?,
        ScenarioFault::TooLong => String::from_str(alloc, "refused: too-long")?,
        ScenarioFault::NotToml => String::from_str(alloc, "refused: not-toml")?,
        ScenarioFault::BadKey { part, place } => {
            let part = word_of_part(part);
            format!(in alloc; "refused: bad-key {part} {place}")?
        }
        ScenarioFault::NotTree => String::from_str(alloc, "refused: not-tree")?,
        ScenarioFault::BadMember { place } => format!(in alloc; "refused: bad-member {place}")?,
        ScenarioFault::BadDraw { place } => format!(in alloc; "refused: bad-draw {place}")?,
        ScenarioFault::BadSession { place } => format!(in alloc; "refused: bad-session {place}")?,
        ScenarioFault::BadDrop { place } => format!(in alloc; "refused: bad-drop {place}")?,
        ScenarioFault::BadOutage { place } => format!(in alloc; "refused: bad-outage {place}")?,
        ScenarioFault::BadLoss { place } => format!(in alloc; "refused: bad-loss {place}")?,
        ScenarioFault::NoMemory => String::from_str(alloc, "refused: no-memory")?,
    };
    Ok(line)
}

fn line_of_lab_fault(alloc: Global, fault: LabFault) -> Result<String, NoMemory>
    ensures { IfOk result (λ line. string_bytes line ≡ lab_line fault) }
{
    let line = match fault {
        LabFault::BadCut => String::from_str(alloc, "refused: bad-cut")?,
        LabFault::BadWidth => String::from_str(alloc, "refused: bad-width")?,
        LabFault::ShareFull => String::from_str(alloc, "refused: share-full")?,
        LabFault::NoMemory => String::from_str(alloc, "refused: no-memory")?,
        LabFault::CountFull => String::from_str(alloc, "refused: count-full")?,
        LabFault::WriteFault { written } => format!(in alloc; "refused: write-fault {written}")?,
    };
    Ok(line)
}

fn word_of_part(part: Part) -> &'static str
    ensures { result.now ≡ part_word part }
{
    match part {
        Part::Top => "top",
        Part::Link => "link",
        Part::Member => "member",
        Part::Draw => "draw",
        Part::Session => "session",
        Part::Drop => "drop",
        Part::Outage => "outage",
        Part::Loss => "loss",
    }
}
