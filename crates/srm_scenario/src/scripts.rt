//! The scripts of all members.
ghost use Rattle.std.specs.Prelude.{◌≡◌, ◌<◌, ◌≤◌, IfOk, All, length, map};
ghost use Rattle.srm_net.specs.Limits.{most_listed};
ghost use Rattle.srm_scenario.specs.Plain.{draw_marks, report_marks};
ghost use Rattle.srm_scenario.specs.ScriptLists.{joins_of, with_each, closed};

use crate::mark::Mark;
use crate::parts::{DrawSpec, MemberSpec, SessionSpec};
use crate::script::{close, draw_mark, joined, report_mark};
use std::alloc::{AllocError, Global};

/// The scripts of these members, in order of their numbers. Draws and sessions are each gone over once.
pub(crate) fn scripts_of(
    alloc: Global,
    members: &[MemberSpec],
    draws: &[DrawSpec],
    sessions: &[SessionSpec],
) -> Result<Vec<Vec<Mark>>, AllocError>
    requires few_draws { length draws.now ≤ most_listed }
    requires draws { All (λ d. d.member < length members.now) draws.now }
    requires few_sessions { length sessions.now ≤ most_listed }
    requires sessions { All (λ r. r.member < length members.now) sessions.now }
    ensures { IfOk result (λ scripts. map (λ marks. marks.items) scripts.items ≡ closed members.now
        (with_each (λ m. report_marks m 0 sessions.now) 0 (with_each (λ m. draw_marks m 0 draws.now) 0 (joins_of members.now)))) }
{
    let mut scripts = joins_of(alloc, members)?;
    add_draws(&mut scripts, draws)?;
    add_reports(&mut scripts, sessions)?;
    close_each(&mut scripts, members)?;
    Ok(scripts)
}

// A list for each member, with its join.
fn joins_of(alloc: Global, members: &[MemberSpec]) -> Result<Vec<Vec<Mark>>, AllocError>
    ensures { IfOk result (λ scripts. map (λ marks. marks.items) scripts.items ≡ joins_of members.now) }
{
    let mut scripts = Vec::with_capacity(alloc, members.len())?;
    for member in members {
        scripts.push(joined(alloc, member.join)?)?;
    }
    Ok(scripts)
}

// Adds the mark of each draw to the list of the member that draws.
fn add_draws(scripts: &mut [Vec<Mark>], draws: &[DrawSpec]) -> Result<(), AllocError>
    requires few { length draws.now ≤ most_listed }
    requires members { All (λ d. d.member < length scripts.old) draws.now }
    ensures { IfOk result (λ _. map (λ marks. marks.items) scripts.new
        ≡ with_each (λ m. draw_marks m 0 draws.now) 0 (map (λ marks. marks.items) scripts.old)) }
{
    for (i, draw) in draws.iter().enumerate() {
        scripts[usize::from(draw.member)].push(draw_mark(i as u16, draw))?;
    }
    Ok(())
}

// Adds the mark of each session message to the list of the member that sends it.
fn add_reports(scripts: &mut [Vec<Mark>], sessions: &[SessionSpec]) -> Result<(), AllocError>
    requires few { length sessions.now ≤ most_listed }
    requires members { All (λ r. r.member < length scripts.old) sessions.now }
    ensures { IfOk result (λ _. map (λ marks. marks.items) scripts.new
        ≡ with_each (λ m. report_marks m 0 sessions.now) 0 (map (λ marks. marks.items) scripts.old)) }
{
    for (i, session) in sessions.iter().enumerate() {
        scripts[usize::from(session.member)].push(report_mark(i as u16, session))?;
    }
    Ok(())
}

// Adds each member's leave to its list, and puts the list in the order of its keys.
fn close_each(scripts: &mut [Vec<Mark>], members: &[MemberSpec]) -> Result<(), AllocError>
    requires { length scripts.old ≡ length members.now }
    ensures { IfOk result (λ _. map (λ marks. marks.items) scripts.new
        ≡ closed members.now (map (λ marks. marks.items) scripts.old)) }
{
    for (m, member) in members.iter().enumerate() {
        close(&mut scripts[m], member.leave)?;
    }
    Ok(())
}
