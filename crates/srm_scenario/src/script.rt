//! The script of a member.
ghost use Rattle.std.specs.Prelude.{◌≡◌, ◌++◌, ◌∷◌, [], length, ◌≤◌, ◌<◌, IfOk};
ghost use Rattle.srm_net.specs.Limits.{most_listed};
ghost use Rattle.srm_net.specs.Orders.{ordered};
ghost use Rattle.srm_net.specs.declared.rank.Rank.TheVariants.{Join, Draw, Report};
ghost use Rattle.srm_scenario.specs.Plain.{mark_cmp, plain_mark, draw_marks, report_marks, leave_marks};

use crate::mark::Mark;
use crate::parts::{DrawSpec, SessionSpec};
use srm_net::rank::Rank;
use std::alloc::{AllocError, Global};

/// A mark that draws nothing.
fn plain_mark(at: u64, rank: Rank, place: u16) -> Mark
    ensures { result ≡ plain_mark at rank place }
{
    Mark {
        at,
        rank,
        place,
        page: 0,
        ink: 0,
    }
}

/// The mark of a draw, the scenario's draw `place`.
pub(crate) fn draw_mark(place: u16, draw: &DrawSpec) -> Mark
    ensures { result ≡ record { at = draw.now.at; rank = Draw; place = place; page = draw.now.page; ink = draw.now.ink } }
{
    Mark {
        at: draw.at,
        rank: Rank::Draw,
        place,
        page: draw.page,
        ink: draw.ink,
    }
}

/// The mark of a session message, the scenario's session `place`.
pub(crate) fn report_mark(place: u16, session: &SessionSpec) -> Mark
    ensures { result ≡ plain_mark session.now.at Report place }
{
    plain_mark(session.at, Rank::Report, place)
}

/// Appends the marks of a member's draws.
pub(crate) fn push_draws(
    marks: &mut Vec<Mark>,
    m: u16,
    draws: &[DrawSpec],
) -> Result<(), AllocError>
    requires { length draws.now ≤ most_listed }
    ensures { IfOk result (λ _. marks.new.items ≡ marks.old.items ++ draw_marks m 0 draws.now) }
{
    for (i, draw) in draws.iter().enumerate() {
        if draw.member == m {
            marks.push(draw_mark(i as u16, draw))?;
        }
    }
    Ok(())
}

/// Appends the marks of a member's session messages.
pub(crate) fn push_reports(
    marks: &mut Vec<Mark>,
    m: u16,
    sessions: &[SessionSpec],
) -> Result<(), AllocError>
    requires { length sessions.now ≤ most_listed }
    ensures { IfOk result (λ _. marks.new.items ≡ marks.old.items ++ report_marks m 0 sessions.now) }
{
    for (i, session) in sessions.iter().enumerate() {
        if session.member == m {
            marks.push(report_mark(i as u16, session))?;
        }
    }
    Ok(())
}

/// Puts marks in the order of their keys.
pub(crate) fn sort_marks(marks: &mut Vec<Mark>) -> Result<(), AllocError>
    ensures { IfOk result (λ _. marks.new.items ≡ ordered mark_cmp marks.old.items) }
{
    marks.sort_by_key(|mark| (mark.at, mark.rank, mark.place))
}

/// The marks of a member of which only its join is known yet.
pub(crate) fn joined(alloc: Global, at: u64) -> Result<Vec<Mark>, AllocError>
    ensures { IfOk result (λ marks. marks.items ≡ plain_mark at Join 0 ∷ []) }
{
    // most members have no other: a vector that grows has room for four
    let mut marks = Vec::with_capacity(alloc, 1)?;
    marks.push(plain_mark(at, Rank::Join, 0))?;
    Ok(marks)
}

/// Adds the leave of a member to its marks, if there is one, and puts them in the order of their keys.
pub(crate) fn close(marks: &mut Vec<Mark>, leave: Option<u64>) -> Result<(), AllocError>
    ensures { IfOk result (λ _. marks.new.items ≡ ordered mark_cmp (marks.old.items ++ leave_marks leave)) }
{
    if let Some(at) = leave {
        marks.push(plain_mark(at, Rank::Leave, 0))?;
    }
    sort_marks(marks)
}

/// The script of member m, which joins and leaves at these times.
pub(crate) fn script_of(
    alloc: Global,
    m: u16,
    join: u64,
    leave: Option<u64>,
    draws: &[DrawSpec],
    sessions: &[SessionSpec],
) -> Result<Vec<Mark>, AllocError>
    requires draws { length draws.now ≤ most_listed }
    requires sessions { length sessions.now ≤ most_listed }
    ensures { IfOk result (λ marks. marks.items ≡ ordered mark_cmp
        (plain_mark join Join 0 ∷ draw_marks m 0 draws.now ++ report_marks m 0 sessions.now ++ leave_marks leave)) }
{
    let mut marks = joined(alloc, join)?;
    push_draws(&mut marks, m, draws)?;
    push_reports(&mut marks, m, sessions)?;
    close(&mut marks, leave)?;
    Ok(marks)
}
