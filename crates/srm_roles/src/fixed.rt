//! The part of a member's record that never changes.
ghost use Rattle.std.specs.Prelude.{◌≡◌, ◌<◌, length, IfOk, ◌==◌, if◌then◌else◌};
ghost use Rattle.srm_member.specs.declared.backoff.BackoffFactor.TheVariants.{Two, Three};
ghost use Rattle.srm_member.specs.declared.steps.Steps.TheVariants.{One as InOne, Two as InTwo};
ghost use Rattle.srm_scenario.specs.Plain.{network_of};
ghost use Rattle.srm_member.specs.Fit.{IsBounded};
ghost use Rattle.srm_scenario.specs.Accepted.{HasRoom};
ghost use Rattle.srm_roles.specs.Opening.{fixed_of};

use srm_member::backoff::BackoffFactor;
use srm_member::distances::Distances;
use srm_member::fixed::Fixed;
use srm_member::hops::Hops;
use srm_member::limits::Limits;
use srm_member::steps::Steps;
use srm_net::net::Net;
use srm_scenario::parts::Room;
use srm_scenario::scenario::Scenario;
use std::alloc::{AllocError, Global};

/// The part of member m's record that never changes, of a scenario and a seed.
///
/// # Errors
///
/// [`AllocError`] alone.
pub fn fixed_of(
    alloc: Global,
    scenario: &Scenario,
    net: &Net,
    seed: u64,
    m: u16,
) -> Result<Fixed, AllocError>
    requires member { m < length scenario.now.members }
    requires network { net.now ≡ network_of scenario.now }
    ensures value { IfOk result (λ f. f ≡ fixed_of scenario.now seed m) }
    ensures fit { IfOk result IsBounded }
{
    let dist = Distances::from(net.half_rounds(m)?);
    let hops = Hops::from(net.hops_from(m)?);
    let member = scenario.member(m);
    let pages = member.pages.clone()?;
    let first = scenario.constants();
    let Room {
        least,
        most,
        backoff,
    } = scenario.room();
    Ok(Fixed {
        member: m,
        role: member.role,
        backoff: factor_of(backoff),
        c1: limits_of(first.c1, least.c1, most.c1),
        c2: limits_of(first.c2, least.c2, most.c2),
        d1: limits_of(first.d1, least.d1, most.d1),
        d2: limits_of(first.d2, least.d2, most.d2),
        dist,
        hops,
        scope: member.scope,
        widen: scenario.widen(),
        tries: scenario.tries(),
        steps: steps_of(scenario.steps()),
        pages,
        seed,
        stream: member.stream,
    })
}

// The factor of backoffs that a scenario's number names.
fn factor_of(backoff: u64) -> BackoffFactor
    ensures { result ≡ (if backoff == 3 then Three else Two) }
{
    if backoff == 3 {
        BackoffFactor::Three
    } else {
        BackoffFactor::Two
    }
}

// In how many steps repairs go, by a scenario's number.
fn steps_of(steps: u16) -> Steps
    ensures { result ≡ (if steps == 1 then InOne else InTwo) }
{
    if steps == 1 { Steps::One } else { Steps::Two }
}

// A constant of timers, with the least and the most that it is adapted to.
fn limits_of(first: u64, least: u64, most: u64) -> Limits
    requires { HasRoom least first most }
    ensures { result ≡ record { first = first; least = least; most = most } }
{
    Limits::new(first as u32, least as u32, most as u32)
}
