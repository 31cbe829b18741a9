//! Which of the copies of an element passes a range.
ghost use Rattle.std.specs.Prelude.{◌≡◌, ◌+◌, ◌*◌, ◌≤◌, ◌^◌, ◌-◌, true, IfSome, nat_lt};
ghost use Rattle.toml.specs.View.{table_view};
ghost use Rattle.srm_explain.specs.Findings.{rise_in, IsBroken, IsFinding};

use crate::finding::Finding;
use srm_scenario::file_key::FileKey;
use srm_scenario::rule::{Rule, ValueKind};
use srm_scenario::table::{every_in, has_key, number, times_in};
use toml::Table;

/// The first of these rules whose range the number at its key passes in one of the copies for which a table stands, if one is,
/// and the first such copy.
pub(crate) fn passed_in(table: &Table, rules: &[Rule]) -> Option<Finding>
    ensures { IfSome result (IsFinding rules.now (table_view table.now)) }
{
    for rule in rules {
        let found = passed_at(table, *rule);
        if found.is_some() {
            return found;
        }
    }
    None
}

// That the number at a rule's key passes the rule's range in a copy, if it does.
fn passed_at(table: &Table, rule: Rule) -> Option<Finding>
    ensures { IfSome result (IsBroken rule (table_view table.now)) }
{
    let rise = rise_in(table, rule.key)?;
    let ValueKind::Whole(_, last) = rule.kind else {
        return None;
    };
    let first = number(table, rule.key);
    let copy = copy_past(first, rise, last, times_in(table))?;
    let number = higher_by(first, step_of(copy, rise));
    Some(Finding::Passed { rule, copy, number })
}

// By how much the number at a key of a table rises from copy to copy, if it rises. Of a loss, which alone has a rate,
// the link does.
fn rise_in(table: &Table, key: FileKey) -> Option<u64>
    ensures { result ≡ rise_in (table_view table.now) key }
{
    let every = every_in(table);
    if has_key(table, FileKey::Rate) {
        return matches!(key, FileKey::Link).then_some(every);
    }
    match key {
        FileKey::Node | FileKey::At | FileKey::Count | FileKey::From | FileKey::To => Some(every),
        FileKey::Stream => Some(1),
        _ => None,
    }
}

// The first of so many copies whose number passes the last one, if there is one.
fn copy_past(first: u64, rise: u64, last: u64, times: u64) -> Option<u64>
    ensures { IfSome result (λ k. (nat_lt k times ≡ true) × (nat_lt last (first + k * rise) ≡ true)) }
{
    for k in 0..times {
        if higher_by(first, step_of(k, rise)) > u128::from(last) {
            return Some(k);
        }
    }
    None
}

// By how much the copy of a number is higher.
fn step_of(k: u64, rise: u64) -> u128
    ensures step { result ≡ k * rise }
    ensures few { result ≤ (2 ^ 64 - 1) * (2 ^ 64 - 1) }
{
    u128::from(k) * u128::from(rise)
}

// A number that is higher by a step.
fn higher_by(first: u64, step: u128) -> u128
    requires { step ≤ (2 ^ 64 - 1) * (2 ^ 64 - 1) }
    ensures { result ≡ first + step }
{
    u128::from(first) + step
}
