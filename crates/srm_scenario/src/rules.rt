//! The table of the format: each key of each part, what it may hold and whether it must be there, in each version.
ghost use Rattle.std.specs.Prelude.{◌≡◌};
ghost use Rattle.srm_net.specs.Limits.{end_of_time};
ghost use Rattle.srm_scenario.specs.declared.file_key.FileKey.TheVariants.{Times, Every};
ghost use Rattle.srm_scenario.specs.declared.rule.ValueKind.TheVariants.{Whole};
ghost use Rattle.srm_scenario.specs.KeyLimits.{most_times};
ghost use Rattle.srm_scenario.specs.Rules.{index_rule, back_rule, constant_rule, rule_if, rule_where, elements_in, topologies_in, allows_repetition, scope_rule, top_rules, link_rules, member_rules, draw_rules, session_rules, drop_rules, outage_rules, loss_rules};

use crate::file_key::FileKey;
use crate::form::Form;
use crate::limits::{
    GREATEST_DELAY, GREATEST_LIMIT, GREATEST_RATE, GREATEST_SCOPE, LAST_COUNT, LAST_INK, LAST_PAGE,
    LAST_STREAM, LAST_TICK, LAST_VERSION, MOST_PAGES, MOST_TIMES, MOST_TRIES,
};
use crate::parts::Constants;
use crate::rule::{Need, Rule, ValueKind, Words};
use crate::version::Version;

/// The number of a node, a link or a member.
fn index_rule(key: FileKey, version: Version) -> Rule
    ensures { result ≡ index_rule key version }
{
    let last = u64::from(version.last_number());
    Rule::new(key, ValueKind::Whole(0, last), Need::Required)
}

/// The first value of a constant of timers.
fn constant_rule(key: FileKey, version: Version) -> Rule
    ensures { result ≡ constant_rule key version }
{
    Rule::new(
        key,
        ValueKind::Whole(0, version.greatest_constant()),
        Need::Required,
    )
}

/// A key that a version has or has not.
fn rule_if(allowed: bool, key: FileKey, kind: ValueKind) -> Rule
    ensures { result ≡ rule_if allowed key kind }
{
    Rule::new(key, kind, Need::optional_if(allowed))
}

/// The second delay of a link, or of each link of a topology.
fn back_rule(allowed: bool) -> Rule
    ensures { result ≡ back_rule allowed }
{
    rule_if(allowed, FileKey::Back, ValueKind::Whole(1, GREATEST_DELAY))
}

/// A key that must be there in one case, and must not in the other.
fn rule_where(here: bool, key: FileKey, kind: ValueKind) -> Rule
    ensures { result ≡ rule_where here key kind }
{
    Rule::new(key, kind, Need::required_if(here))
}

/// At most so many elements, each of which may stand for several in some versions.
fn elements_in(version: Version, most: u64) -> ValueKind
    ensures { result ≡ elements_in version most }
{
    if version.allows_repetition() {
        ValueKind::Repeated(most)
    } else {
        ValueKind::Elements(most)
    }
}

/// The topologies that a version has.
fn topologies_in(version: Version) -> Words
    ensures { result ≡ topologies_in version }
{
    if version.allows_parents() {
        Words::TopologiesAndParents
    } else {
        Words::Topologies
    }
}

/// The top table, of this form and with these first values of the constants of timers.
pub fn top_rules(version: Version, first: Constants, form: Form) -> [Rule; 35]
    ensures { result ≡ top_rules version first form }
{
    let most = u64::from(version.most_nodes());
    let last = u64::from(version.last_number());
    let limits = version.allows_limits();
    let scopes = version.allows_scopes();
    let delay = ValueKind::Whole(1, GREATEST_DELAY);
    let delays = ValueKind::Each(form.listed, 1, GREATEST_DELAY);
    let listed = elements_in(version, version.most_listed());
    let has_delay = form.sized || (form.parents && !form.delays);
    let has_back = form.sized || (form.parents && !form.backs);
    [
        Rule::new(
            FileKey::Version,
            ValueKind::Whole(1, LAST_VERSION),
            Need::Required,
        ),
        Rule::new(
            FileKey::Until,
            ValueKind::Whole(1, LAST_TICK),
            Need::Required,
        ),
        constant_rule(FileKey::C1, version),
        constant_rule(FileKey::C2, version),
        constant_rule(FileKey::D1, version),
        constant_rule(FileKey::D2, version),
        rule_if(limits, FileKey::C1Least, ValueKind::Whole(0, first.c1)),
        rule_if(limits, FileKey::C2Least, ValueKind::Whole(0, first.c2)),
        rule_if(limits, FileKey::D1Least, ValueKind::Whole(0, first.d1)),
        rule_if(limits, FileKey::D2Least, ValueKind::Whole(0, first.d2)),
        rule_if(
            limits,
            FileKey::C1Most,
            ValueKind::Whole(first.c1, GREATEST_LIMIT),
        ),
        rule_if(
            limits,
            FileKey::C2Most,
            ValueKind::Whole(first.c2, GREATEST_LIMIT),
        ),
        rule_if(
            limits,
            FileKey::D1Most,
            ValueKind::Whole(first.d1, GREATEST_LIMIT),
        ),
        rule_if(
            limits,
            FileKey::D2Most,
            ValueKind::Whole(first.d2, GREATEST_LIMIT),
        ),
        rule_if(limits, FileKey::Backoff, ValueKind::Whole(2, 3)),
        scope_rule(version),
        rule_if(scopes, FileKey::Widen, ValueKind::Whole(0, GREATEST_SCOPE)),
        rule_if(scopes, FileKey::Tries, ValueKind::Whole(1, MOST_TRIES)),
        rule_if(scopes, FileKey::Steps, ValueKind::Whole(1, 2)),
        rule_where(!form.shaped, FileKey::Nodes, ValueKind::Whole(1, most)),
        Rule::new(
            FileKey::Topology,
            ValueKind::Word(topologies_in(version)),
            Need::Optional,
        ),
        rule_where(form.sized, FileKey::Size, ValueKind::Whole(1, most)),
        rule_where(has_delay, FileKey::Delay, delay),
        back_rule(has_back && version.allows_back()),
        rule_where(form.tree, FileKey::Degree, ValueKind::Whole(2, last)),
        rule_if(!form.shaped, FileKey::Link, ValueKind::Elements(last)),
        Rule::new(FileKey::Member, elements_in(version, most), Need::Optional),
        Rule::new(FileKey::Draw, listed, Need::Optional),
        Rule::new(FileKey::Session, listed, Need::Optional),
        Rule::new(FileKey::Drop, listed, Need::Optional),
        rule_if(version.allows_outages(), FileKey::Outage, listed),
        rule_if(version.allows_losses(), FileKey::Loss, listed),
        rule_where(
            form.parents,
            FileKey::Parent,
            ValueKind::Numbers(last, last),
        ),
        rule_if(form.parents, FileKey::Delays, delays),
        rule_if(form.parents, FileKey::Backs, delays),
    ]
}

/// The scope of requests, of all members or of one.
fn scope_rule(version: Version) -> Rule
    ensures { result ≡ scope_rule version }
{
    rule_if(
        version.allows_scopes(),
        FileKey::Scope,
        ValueKind::Whole(0, GREATEST_SCOPE),
    )
}

/// For how many elements one stands.
fn times_rule(version: Version) -> Rule
    ensures { result ≡ rule_if (allows_repetition version) Times (Whole 1 most_times) }
{
    rule_if(
        version.allows_repetition(),
        FileKey::Times,
        ValueKind::Whole(1, MOST_TIMES),
    )
}

/// How far apart those are.
fn every_rule(version: Version) -> Rule
    ensures { result ≡ rule_if (allows_repetition version) Every (Whole 0 end_of_time) }
{
    rule_if(
        version.allows_repetition(),
        FileKey::Every,
        ValueKind::Whole(0, LAST_TICK),
    )
}

/// A link.
pub fn link_rules(version: Version) -> [Rule; 4]
    ensures { result ≡ link_rules version }
{
    [
        index_rule(FileKey::A, version),
        index_rule(FileKey::B, version),
        Rule::new(
            FileKey::Delay,
            ValueKind::Whole(1, GREATEST_DELAY),
            Need::Required,
        ),
        back_rule(version.allows_back()),
    ]
}

/// A member.
pub fn member_rules(version: Version) -> [Rule; 9]
    ensures { result ≡ member_rules version }
{
    let pages = ValueKind::Numbers(MOST_PAGES, LAST_PAGE);
    [
        index_rule(FileKey::Node, version),
        Rule::new(FileKey::Role, ValueKind::Word(Words::Roles), Need::Required),
        Rule::new(
            FileKey::Stream,
            ValueKind::Whole(0, LAST_STREAM),
            Need::Required,
        ),
        Rule::new(
            FileKey::Join,
            ValueKind::Whole(0, LAST_TICK),
            Need::Optional,
        ),
        Rule::new(
            FileKey::Leave,
            ValueKind::Whole(1, LAST_TICK),
            Need::Optional,
        ),
        Rule::new(FileKey::Pages, pages, Need::Optional),
        scope_rule(version),
        times_rule(version),
        every_rule(version),
    ]
}

/// A draw.
pub fn draw_rules(version: Version) -> [Rule; 6]
    ensures { result ≡ draw_rules version }
{
    [
        index_rule(FileKey::Member, version),
        Rule::new(
            FileKey::Page,
            ValueKind::Whole(0, LAST_PAGE),
            Need::Required,
        ),
        Rule::new(FileKey::Ink, ValueKind::Whole(0, LAST_INK), Need::Required),
        Rule::new(FileKey::At, ValueKind::Whole(0, LAST_TICK), Need::Required),
        times_rule(version),
        every_rule(version),
    ]
}

/// A session message.
pub fn session_rules(version: Version) -> [Rule; 4]
    ensures { result ≡ session_rules version }
{
    [
        index_rule(FileKey::Member, version),
        Rule::new(FileKey::At, ValueKind::Whole(0, LAST_TICK), Need::Required),
        times_rule(version),
        every_rule(version),
    ]
}

/// A drop.
pub fn drop_rules(version: Version) -> [Rule; 5]
    ensures { result ≡ drop_rules version }
{
    [
        index_rule(FileKey::Link, version),
        index_rule(FileKey::Sender, version),
        Rule::new(
            FileKey::Count,
            ValueKind::Whole(0, LAST_COUNT),
            Need::Required,
        ),
        times_rule(version),
        every_rule(version),
    ]
}

/// An outage.
pub fn outage_rules(version: Version) -> [Rule; 5]
    ensures { result ≡ outage_rules version }
{
    [
        index_rule(FileKey::Link, version),
        Rule::new(
            FileKey::From,
            ValueKind::Whole(0, LAST_TICK),
            Need::Required,
        ),
        Rule::new(FileKey::To, ValueKind::Whole(1, LAST_TICK), Need::Required),
        times_rule(version),
        every_rule(version),
    ]
}

/// A loss.
pub fn loss_rules(version: Version) -> [Rule; 8]
    ensures { result ≡ loss_rules version }
{
    let burst = ValueKind::Whole(1, LAST_TICK);
    [
        index_rule(FileKey::Link, version),
        Rule::new(
            FileKey::Rate,
            ValueKind::Whole(1, GREATEST_RATE),
            Need::Required,
        ),
        Rule::new(
            FileKey::Stream,
            ValueKind::Whole(0, LAST_STREAM),
            Need::Optional,
        ),
        Rule::new(
            FileKey::From,
            ValueKind::Whole(0, LAST_TICK),
            Need::Optional,
        ),
        Rule::new(FileKey::To, ValueKind::Whole(1, LAST_TICK), Need::Optional),
        rule_if(version.allows_bursts(), FileKey::Burst, burst),
        times_rule(version),
        every_rule(version),
    ]
}
