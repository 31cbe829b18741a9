//! The lists of a scenario.
use crate::parts::{DrawSpec, MemberSpec, SessionSpec};
use srm_net::link::LinkSpec;

/// What a scenario lists: links, and members with what they draw and report.
#[derive(Drop)]
pub(crate) struct Lists {
    pub(crate) links: Vec<LinkSpec>,
    pub(crate) members: Vec<MemberSpec>,
    pub(crate) draws: Vec<DrawSpec>,
    pub(crate) sessions: Vec<SessionSpec>,
}
