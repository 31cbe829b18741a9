//! The laws of scopes: where no member has one, nothing is local.
ghost use Rattle.srm_model.specs.WithoutScopes.{AllIsWide, WideningDecidesNoRun};

/// Where no member has a scope, in every world of the run no record has a mark, no repair timer a width, no second step is
/// pending, and each packet that was sent, or is on the way, goes to all.
pub fn without_scopes_all_is_wide()
    ensures { AllIsWide }
{}

/// Where no member has a scope, a complete run has the same rows, exits and crossings whatever widen, tries and steps are, and a
/// run that meets a full packet count meets one whatever they are.
pub fn widening_decides_no_run()
    ensures { WideningDecidesNoRun }
{}
