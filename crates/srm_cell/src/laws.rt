//! What holds of every cell.
ghost use Rattle.srm_cell.specs.Laws.{OwnRunsAreOne, SettingsAreFit, SettingsOfTextsAreFit, CrossingsAdd, NextEventsAreLeast};

/// An own run has one result.
pub fn own_runs_are_one()
    ensures { OwnRunsAreOne }
{}

/// The setting of an accepted scenario is fit: scripts ascend and end at the leave, and no two members are at one place.
pub fn settings_are_fit()
    ensures { SettingsAreFit }
{}

/// The setting of a text's scenario is fit with every seed, so that the laws of fit settings hold of each text that is not
/// refused.
pub fn settings_of_texts_are_fit()
    ensures { SettingsOfTextsAreFit }
{}

/// The crossings of two lists of rows together are those of each, added.
pub fn crossings_add()
    ensures { CrossingsAdd }
{}

/// A cell has nothing pending before its next event.
pub fn next_events_are_least()
    ensures { NextEventsAreLeast }
{}
