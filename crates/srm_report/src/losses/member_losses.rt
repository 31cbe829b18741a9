//! What became of the losses of one member.
use crate::losses::by_loss::ByLoss;
use crate::losses::course::Course;

/// What became of each loss of one member. Its room grows with the losses, and not with the rows.
#[derive(Drop)]
pub struct MemberLosses {
    pub(crate) losses: ByLoss<Course>,
}
