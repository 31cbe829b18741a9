//! Laws of the rule that a ledger's words keep at every moment.
ghost use Rattle.srm_ledger.specs.Laws.{WordsNeverWrap, WholeSeatsHaveTheWords, ReadsAreNotAbove};

/// No word is ever above 2^63, so none wraps: at most [`WHOLE`](crate::seat::WHOLE) seats hold at most
/// [`SHARE_MOST`](crate::seat::SHARE_MOST) of it each.
pub fn words_never_wrap()
    ensures { WordsNeverWrap }
{}

/// Where a seat has the whole weight, its shares are the words.
pub fn whole_seats_have_the_words()
    ensures { WholeSeatsHaveTheWords }
{}

/// What a seat read of a word is never above it.
pub fn reads_are_not_above()
    ensures { ReadsAreNotAbove }
{}
