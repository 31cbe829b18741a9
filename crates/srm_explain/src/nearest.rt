//! The key that was probably meant.
ghost use Rattle.std.specs.Prelude.{IfOk, IfSome};
ghost use Rattle.srm_explain.specs.Findings.{HasKey};

use srm_scenario::file_key::FileKey;
use srm_scenario::rule::{Need, Rule};
use std::alloc::{AllocError, Global};
use strsim::osa_distance;

/// The key that differs the least from this text, of those that these rules allow: in letters, and in letters that are exchanged
/// with their neighbours. There is none where it differs by more than a third of its letters and by more than one.
///
/// # Errors
/// Memory ran out.
pub(crate) fn nearest(
    alloc: Global,
    text: &str,
    rules: &[Rule],
) -> Result<Option<FileKey>, AllocError>
    ensures { IfOk result (λ near. IfSome near (HasKey rules.now)) }
{
    let mut least = text.len().max(3) / 3 + 1;
    let mut near = None;
    for rule in rules {
        let edits = osa_distance(alloc, text, rule.key.name())?;
        if edits < least && rule.need != Need::Refused {
            least = edits;
            near = Some(rule.key);
        }
    }
    Ok(near)
}
