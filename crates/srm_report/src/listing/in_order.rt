//! Lines, put in order of their ticks.
ghost use Rattle.std.specs.Prelude.{◌≡◌, ◌++◌, ℕ, List, IfOk, OnOk};
ghost use Rattle.std.specs.List.{flat_map};
ghost use Rattle.srm_member.specs.declared.row.Row.{Row as R};
ghost use Rattle.srm_cell.specs.Crossings.{joined};
ghost use Rattle.srm_report.specs.Listings.{Form, lines_in};
ghost use Rattle.srm_report.specs.KeptLines.{AreLinesOf, parts_seen, text_at, parts_text};

use crate::listing::lines::Lines;
use crate::listing::tick_part::TickPart;
use std::alloc::{AllocError, Global};

/// The parts of a text, and of the lines of all members behind it, in order of their rows' keys: whatever the rows are, of which
/// these lines were kept and closed. A key is compared by its time and then its member, so the text of each tick is that of one
/// member after the other.
///
/// # Errors
/// [`AllocError`].
pub(crate) fn put_in_order<'a>(
    alloc: Global,
    lead: &'a [u8],
    groups: &'a [Vec<Lines>],
) -> Result<Vec<TickPart<'a>>, AllocError>
    ensures { (f : Form) (rows : List R) → AreLinesOf f rows groups.now
        → IfOk result (λ parts. parts_text parts.items ≡ lead.now ++ lines_in f rows) }
{
    let mut parts = Vec::with_capacity(alloc, parts_in(groups).saturating_add(1))?;
    for group in groups {
        add_parts(&mut parts, group.as_slice())?;
    }
    parts.sort_by_key(|part| part.time)?;
    parts.insert(
        0,
        TickPart {
            time: 0,
            text: lead,
        },
    )?;
    Ok(parts)
}

// How many parts the lines of all members have, to make room for them at once.
fn parts_in(groups: &[Vec<Lines>]) -> usize {
    let mut parts: usize = 0;
    for group in groups {
        for own in group.as_slice() {
            parts = parts.saturating_add(own.len());
        }
    }
    parts
}

/// The lines of some members together, in order of ticks.
///
/// # Errors
/// [`AllocError`].
pub(crate) fn together(alloc: Global, all: &[Lines]) -> Result<Lines, AllocError>
    ensures { IfOk result (λ lines. (t : ℕ) → text_at t lines ≡ flat_map (text_at t) all.now) }
{
    let mut parts = Vec::new(alloc);
    add_parts(&mut parts, all)?;
    parts.sort_by_key(|part| part.time)?;
    lines_of(alloc, parts.as_slice())
}

// Adds the parts of these lines.
fn add_parts<'a>(parts: &mut Vec<TickPart<'a>>, all: &'a [Lines]) -> Result<(), AllocError>
    ensures { OnOk result (parts_seen parts.new.items ≡ parts_seen parts.old.items ++ joined all.now) }
{
    for own in all {
        // most members have none in a window
        if own.len() > 0 {
            own.put_parts(parts)?;
        }
    }
    Ok(())
}

// These parts, those of one tick that stand beside each other together.
fn lines_of(alloc: Global, parts: &[TickPart]) -> Result<Lines, AllocError>
    ensures { IfOk result (λ lines. (t : ℕ) → text_at t lines ≡ text_at t (parts_seen parts.now)) }
{
    let mut lines = Lines::new(alloc);
    lines.reserve(parts.len())?;
    for part in parts {
        lines.put_part(part)?;
    }
    Ok(lines)
}
