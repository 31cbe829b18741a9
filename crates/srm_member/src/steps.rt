//! In how many steps repairs with a scope go.

/// In how many steps a repair that answers a request with a scope reaches all that the request reached (Floyd et al. 1997).
#[derive(Clone, Copy, Debug, PartialEq, Eq)]
pub enum Steps {
    /// In one: its scope is the width plus the hops to the requester.
    One,
    /// In two: it goes as far as the width, and the requester sends it on.
    Two,
}
