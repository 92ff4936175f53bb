// One record of a file: what stands before its literals, a rule's literals, the end.

#![tactic(auto)]

// How a record starts, as far as rules go.
#[derive(Clone, Copy)]
pub enum Opening {
    // S: or D:, the latter of a defeasible rule.
    Rule(bool),
    End,
    // A sheet record's mark, or none of the form's.
    Other,
}

// What stands before a record's literals, but for a refusal.
#[derive(Clone, Copy)]
pub enum Front {
    // The end record, all of it.
    End,
    // A rule's header that is right, of a defeasible rule or of a strict one: its literals are to be read.
    Literals(bool),
    // A sheet record's mark, or none of the form's.
    Other,
}

pub mod step;
