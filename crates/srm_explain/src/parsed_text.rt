//! A scenario's text, and what was read of it.
use srm_scenario::draft::Draft;
use toml::Table;

/// A scenario's text, the table of TOML that it parses to, and the draft that was read from that table.
#[derive(Clone, Copy)]
pub(crate) struct ParsedText<'a> {
    pub(crate) text: &'a [u8],
    pub(crate) top: &'a Table,
    pub(crate) draft: &'a Draft,
}
