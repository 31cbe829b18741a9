//! Laws of scenarios, over the definitions alone.
ghost use Rattle.srm_scenario.specs.Acceptance.{TablesGiveAccepted, TextsGiveAccepted};
ghost use Rattle.srm_scenario.specs.Scripts.{ScriptsFit};
ghost use Rattle.srm_scenario.specs.Topologies.{TopologiesAreTrees};
ghost use Rattle.srm_scenario.specs.Trees.{TestTellsTrees};

/// The scenario of a text, or of a table, is accepted, so that the laws of accepted scenarios hold of it.
pub fn scenarios_are_accepted()
    ensures texts { TextsGiveAccepted }
    ensures tables { TablesGiveAccepted }
{}

/// The script of each member of an accepted scenario rises by time, rank and place, and its marks fit the member's role and
/// times.
pub fn scripts_fit()
    ensures { ScriptsFit }
{}

/// Each topology is a tree, so that a file that names one is never refused because its links make none.
pub fn topologies_are_trees()
    ensures { TopologiesAreTrees }
{}

/// A scenario's links are taken for a tree exactly where there is exactly one path between any two nodes.
pub fn tree_test_is_exact()
    ensures { TestTellsTrees }
{}
