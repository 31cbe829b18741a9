//! Where in a text that stands of which something is told.
use crate::finding::Finding;
use crate::flaw::Flaw;
use crate::keys::array_key;
use crate::locate::{Found, Target, locate};
use crate::picture::picture_of;
use crate::span::Span;
use crate::token::tokens_of;
use srm_scenario::fault::Part;
use srm_scenario::file_key::FileKey;
use std::alloc::{AllocError, Global};

/// The line in which stands why links make no tree: the end of a link or the parent that is no node, the parent of a node in a
/// circle, the link that closes one, or else the number of nodes.
///
/// # Errors
/// Memory ran out.
pub(crate) fn picture_of_flaw(
    alloc: Global,
    text: &[u8],
    flaw: &Flaw,
) -> Result<String, AllocError> {
    match flaw {
        Flaw::NoEnd { link, key, .. } => picture_of_value(alloc, text, Part::Link, *link, *key),
        Flaw::NoParent { node, .. } => picture_of_parent(alloc, text, *node),
        Flaw::Circle { nodes } => {
            let node = match nodes.first() {
                Some(node) => usize::from(*node),
                None => 0,
            };
            picture_of_parent(alloc, text, node)
        }
        Flaw::Closing { link, .. } => picture_of_element(
            alloc,
            text,
            FileKey::Link,
            usize::from(*link),
        ),
        Flaw::LinkCount { .. } | Flaw::Unreached { .. } => {
            picture_of_value(alloc, text, Part::Top, 0, FileKey::Nodes)
        }
    }
}

// The line in which the parent of a node stands.
fn picture_of_parent(alloc: Global, text: &[u8], node: usize) -> Result<String, AllocError> {
    picture_of_element(alloc, text, FileKey::Parent, node.saturating_sub(1))
}

// The line in which the element at a place of an array stands.
fn picture_of_element(
    alloc: Global,
    text: &[u8],
    array: FileKey,
    place: usize,
) -> Result<String, AllocError> {
    let found = find(
        alloc,
        text,
        Target {
            array: Some(array.name()),
            place,
            key: "",
        },
    )?;
    picture_if(alloc, text, found.element)
}

/// The line in which the value at a key of an element stands, or the element itself, and nothing where neither is found.
///
/// # Errors
/// Memory ran out.
pub(crate) fn picture_of_value(
    alloc: Global,
    text: &[u8],
    part: Part,
    place: usize,
    key: FileKey,
) -> Result<String, AllocError> {
    let key = key.name();
    let array = array_name(part);
    let found = find(alloc, text, Target { array, place, key })?;
    picture_if(alloc, text, found.value.or(found.element))
}

/// The line in which a finding stands, and nothing where it stands in none.
///
/// # Errors
/// Memory ran out.
pub(crate) fn picture_of_finding(
    alloc: Global,
    text: &[u8],
    part: Part,
    place: usize,
    finding: &Finding,
) -> Result<String, AllocError> {
    let array = array_name(part);
    let key = key_of(finding);
    let found = find(alloc, text, Target { array, place, key })?;
    let item = item_of(alloc, text, part, finding)?;
    let span = match finding {
        Finding::Below { rule, part, place } => {
            let array = array_name(*part);
            let key = rule.key.name();
            let place = *place;
            find(alloc, text, Target { array, place, key })?.key
        }
        Finding::NoTable | Finding::Missing(_) => found.element,
        Finding::Unknown { .. } | Finding::Refused(_) => found.key,
        _ => item.or(found.value),
    };
    picture_if(alloc, text, span)
}

// The key of a finding; none where the element is no table.
fn key_of(finding: &Finding) -> &str {
    match finding {
        Finding::NoTable => "",
        Finding::Unknown { key, .. } => key.as_str(),
        Finding::Missing(rule) | Finding::Wrong(rule) | Finding::Refused(rule) => rule.key.name(),
        Finding::BadItem { rule, .. } | Finding::Below { rule, .. } => rule.key.name(),
        Finding::BadLength { rule, .. } => rule.key.name(),
        Finding::Passed { rule, .. } => rule.key.name(),
    }
}

// Where the element of an array of the top table stands that is none, if a finding is of one.
fn item_of(
    alloc: Global,
    text: &[u8],
    part: Part,
    finding: &Finding,
) -> Result<Option<Span>, AllocError> {
    match finding {
        Finding::BadItem { rule, item } if matches!(part, Part::Top) => {
            let found = find(
                alloc,
                text,
                Target {
                    array: Some(rule.key.name()),
                    place: *item,
                    key: "",
                },
            )?;
            Ok(found.element)
        }
        _ => Ok(None),
    }
}

// The name of the array whose elements a part is.
fn array_name(part: Part) -> Option<&'static str> {
    match array_key(part) {
        Some(array) => Some(array.name()),
        None => None,
    }
}

// Where a target stands in a text.
fn find(alloc: Global, text: &[u8], target: Target) -> Result<Found, AllocError> {
    let tokens = tokens_of(alloc, text)?;
    Ok(locate(text, &tokens, target))
}

// The line in which a part of a text begins, if there is such a part.
fn picture_if(alloc: Global, text: &[u8], span: Option<Span>) -> Result<String, AllocError> {
    match span {
        Some(span) => picture_of(alloc, text, span),
        None => Ok(String::new(alloc)),
    }
}
