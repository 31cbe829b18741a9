//! Where windows end.
ghost use Rattle.std.specs.Prelude.{◌≡◌, ◌<◌, ◌+◌, ◌↔◌, ℕ, IsTrue, min, length};
ghost use Rattle.srm_model.specs.Windows.{IsWidth, way_of};
ghost use Rattle.srm_model.specs.WindowChains.{least_width};
ghost use Rattle.srm_engine.specs.Starts.{setting_on};
ghost use Rattle.srm_engine.specs.Ends.{end_from, TellsRule};

use crate::soonest::{Soonest, least_promise};
use crate::width::Width;
use srm_net::role::Role;
use srm_scenario::session::Session;

/// Where the windows of a run end.
#[derive(Drop)]
pub(crate) enum Ends {
    /// So many ticks after they begin, or with the run.
    After(u64),
    /// At the least promise of a member, or with the run.
    Promised,
}

impl Ends {
    /// Where windows of this width end, if they may be so wide.
    pub(crate) fn of(session: Session, width: Width) -> Option<Ends>
        ensures { TellsRule session.entry.scenario.now width result }
    {
        match width {
            Width::Least => Some(Ends::After(widest(session))),
            Width::Ticks(ticks) => {
                if may_be_wide(session, ticks) {
                    Some(Ends::After(ticks))
                } else {
                    None
                }
            }
            Width::Promise => Some(Ends::Promised),
        }
    }

    /// When the window ends that begins at tick `begin`, where something is due in the groups so soon.
    pub(crate) fn end(&self, soon: &[Soonest], begin: u64, until: u64) -> u64
        requires early { begin < until }
        ensures { result ≡ end_from self.now soon.now begin until }
    {
        match self {
            Ends::After(width) => after(begin, *width, until),
            Ends::Promised => least_promise(soon, until),
        }
    }
}

// When a window of this width ends.
fn after(begin: u64, width: u64, until: u64) -> u64
    requires { begin < until }
    ensures { result ≡ min (begin + width) until }
{
    if until - begin <= width {
        until
    } else {
        begin + width
    }
}

// The widest width: the least delay of a link, or, where there is no link, that of the run.
fn widest(session: Session) -> u64
    ensures some { 0 < result }
    ensures width { IsWidth session.entry.scenario.now result }
    ensures least { result ≡ least_width session.entry.scenario.now }
{
    match session.net.least_delay() {
        Some(delay) => delay,
        None => session.scenario.until(),
    }
}

// Whether windows may be so many ticks wide.
fn may_be_wide(session: Session, ticks: u64) -> bool
    ensures { IsTrue result ↔ ((0 < ticks) × IsWidth session.entry.scenario.now ticks) }
{
    match session.net.least_delay() {
        Some(delay) => 0 < ticks && ticks <= delay,
        None => 0 < ticks,
    }
}

/// The least way that a member's packets have before them, in ticks: that to the nearest other member. A listener sends none.
pub(crate) fn way(session: Session, member: u16) -> Option<u64>
    requires member { member < length session.scenario.now.members }
    ensures { (seed : ℕ) → result ≡ way_of (setting_on session.entry seed) member }
{
    let nearest = session.net.out(member);
    match session.scenario.role(member) {
        Role::Listener => None,
        _ => nearest,
    }
}
