//! What is wrong with the keys of a table.
use srm_scenario::fault::Part;
use srm_scenario::file_key::FileKey;
use srm_scenario::rule::Rule;

/// What is wrong with the keys of a table, or that an element is none.
#[derive(Drop)]
pub enum Finding {
    /// The element is no table.
    NoTable,
    /// A key of the table is none of its part.
    Unknown {
        /// The key.
        key: String,
        /// The key of the part that differs from it the least, if one differs by little.
        near: Option<FileKey>,
    },
    /// The table lacks the key of this rule.
    Missing(Rule),
    /// The table lacks the key of this rule, and an element of one of its arrays has it.
    Below {
        /// The rule.
        rule: Rule,
        /// The array.
        part: Part,
        /// The place of the element.
        place: usize,
    },
    /// What stands at the key of this rule is not what the rule asks for.
    Wrong(Rule),
    /// An element of the array at the key of this rule is not what the rule asks for.
    BadItem {
        /// The rule.
        rule: Rule,
        /// The place of the element.
        item: usize,
    },
    /// The array at the key of this rule has too many elements or too few, or its elements stand for too many.
    BadLength {
        /// The rule.
        rule: Rule,
        /// How many there are, or for how many they stand.
        length: u64,
    },
    /// The key of this rule is not allowed there.
    Refused(Rule),
    /// The element stands for several, and the number at a key passes its range in one of them.
    Passed {
        /// The rule of the key.
        rule: Rule,
        /// The number of that copy, counted from 0.
        copy: u64,
        /// What stands at the key in that copy.
        number: u128,
    },
}
