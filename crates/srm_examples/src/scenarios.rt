//! Worked scenarios for tests of other crates. More stand in tests/scenarios/ and examples/, each with its tables.

/// A chain of five nodes; the second link drops the first packet.
pub const CHAIN_OF_FIVE_ONE_LOSS: &str = r#"version = 1
until = 100
c1 = 1000
c2 = 0
d1 = 1000
d2 = 0
topology = "chain"
size = 5
delay = 1
member = [
  { node = 0, role = "sender", stream = 1 },
  { node = 1, role = "receiver", stream = 2 },
  { node = 2, role = "receiver", stream = 3 },
  { node = 3, role = "receiver", stream = 4 },
  { node = 4, role = "receiver", stream = 5 },
]
draw = [
  { member = 0, page = 0, ink = 7, at = 0 },
  { member = 0, page = 0, ink = 8, at = 10 },
]
drop = [{ link = 1, sender = 0, count = 0 }]
"#;

/// A star; the source's own link drops the first packet.
pub const STAR_LOSS_AT_THE_SOURCE: &str = r#"version = 1
until = 1000
c1 = 1000
c2 = 0
d1 = 1000
d2 = 0
topology = "star"
size = 5
delay = 5
member = [
  { node = 1, role = "sender", stream = 1 },
  { node = 2, role = "receiver", stream = 2 },
  { node = 3, role = "receiver", stream = 3 },
  { node = 4, role = "receiver", stream = 4 },
]
draw = [
  { member = 0, page = 0, ink = 7, at = 0 },
  { member = 0, page = 0, ink = 8, at = 100 },
]
drop = [{ link = 0, sender = 0, count = 0 }]
"#;

/// A sender and a listener.
pub const TWO_NODES: &str = r#"version = 1
until = 20
c1 = 1000
c2 = 0
d1 = 1000
d2 = 0
nodes = 2
link = [
  { a = 0, b = 1, delay = 3 },
]
member = [
  { node = 0, role = "sender", stream = 1 },
  { node = 1, role = "listener", stream = 2 },
]
draw = [
  { member = 0, page = 0, ink = 7, at = 0 },
  { member = 0, page = 0, ink = 8, at = 5 },
]
"#;

/// A chain of three nodes, a tick between neighbours: a sender and two listeners; the second link drops the first
/// packet.
pub const A_SENDER_AND_TWO_LISTENERS: &str = r#"version = 1
until = 1000
c1 = 1000
c2 = 0
d1 = 1000
d2 = 0
topology = "chain"
size = 3
delay = 1
member = [
  { node = 0, role = "sender", stream = 1 },
  { node = 1, role = "listener", stream = 2 },
  { node = 2, role = "listener", stream = 3 },
]
draw = [
  { member = 0, page = 0, ink = 7, at = 0 },
  { member = 0, page = 0, ink = 8, at = 10 },
]
drop = [{ link = 1, sender = 0, count = 0 }]
"#;
