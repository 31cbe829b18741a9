//! What can be said of a fault without its text.
ghost use Rattle.std.specs.Prelude.{◌≡◌};
ghost use Rattle.srm_explain.specs.Explanations.{general_sentence};

use srm_scenario::fault::ScenarioFault;

/// What a fault is, without its text.
pub(crate) fn general_sentence(fault: ScenarioFault) -> &'static str
    ensures { result.now ≡ general_sentence fault }
{
    match fault {
        ScenarioFault::ReadFault => "standard input could not be read to its end",
        ScenarioFault::TooLong => "a scenario has at most 1048576 bytes",
        ScenarioFault::NotToml => "a scenario is a TOML document in UTF-8",
        ScenarioFault::BadKey { .. } =>
            "a key there is unknown, missing or not allowed, or its value is out of its range",
        ScenarioFault::NotTree => "the links have to make a tree of the nodes",
        ScenarioFault::BadMember { .. } =>
            "this member does not fit the network, the run or the members before it",
        ScenarioFault::BadDraw { .. } => "a draw is by a sender that is present",
        ScenarioFault::BadSession { .. } =>
            "a session message is by a member that is present and no listener",
        ScenarioFault::BadDrop { .. } => "a drop is of a link and a member that there are",
        ScenarioFault::BadOutage { .. } =>
            "an outage is of a link that there is, and ends after it begins",
        ScenarioFault::BadLoss { .. } =>
            "a loss is of a link that there is, and ends after it begins",
        ScenarioFault::NoMemory => "there was no memory left",
    }
}
