// What a set leaves of one rule's record: the options that are not defeated, counted and written; the whole record, measured and
// written as a plain rule's. Whether the rule is removed, and whether an option is defeated, `check_clauses` asks too.

#![tactic(auto)]

pub mod options;
pub mod remainder;
