//! Arrays of small numbers.
ghost use Rattle.std.specs.Prelude.{◌≡◌, true, IfOk, map, unwrap_or};
ghost use Rattle.toml.specs.View.{view, items_view};
ghost use Rattle.srm_scenario.specs.KeyLimits.{last_page};
ghost use Rattle.srm_scenario.specs.Rules.{all_whole, whole_number_of};

use crate::table::whole_number_of;
use srm_net::sequence::Sequence;
use std::alloc::{AllocError, Global};
use toml::Value;

/// The numbers that values are, which are pages or nodes.
pub(crate) fn numbers_of(alloc: Global, values: &[Value]) -> Result<Sequence<u16>, AllocError>
    requires { all_whole 0 last_page (items_view values.now) ≡ true }
    ensures { IfOk result (λ numbers. numbers ≡ map (λ v. unwrap_or (whole_number_of (view v)) 0) values.now) }
{
    let mut numbers = Sequence::new(alloc);
    for value in values {
        let number = whole_number_of(value).unwrap_or(0);
        numbers.push(number as u16)?;
    }
    Ok(numbers)
}
