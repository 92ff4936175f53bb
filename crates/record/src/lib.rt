// Records and programs: what reading finds in a slice, and what an operation refuses.

#![tactic(auto)]

// Why an operation refuses. Document 01's number of each reason is `reason_number` of specs/Refusal.antt.
#[derive(Clone, Copy)]
pub enum Reason {
    // The slice is longer than the form's programs.
    TooLong,
    // Fewer than two bytes are left where a record must begin.
    MarkCut,
    // The mark is none of the form's.
    MarkWrong,
    // The record ends before its header does.
    HeaderCut,
    // One rule too many.
    TooManyRules,
    // The tag is out of its range.
    TagWrong,
    // A count of literals is over its limit.
    TooManyLiterals,
    // The record ends before its literals do.
    LiteralsCut,
    // A literal is none of the form's.
    LiteralWrong,
    // A defeasible rule has no head, or a defeat mark in it.
    HeadWrong,
    // The end record has a wrong number, or bytes behind it.
    EndWrong,
    // The output slice is shorter than the result.
    OutputShort,
    // The set's mark is wrong, or its slice is not as long as counted.
    SetWrong,
    // The set has too many literals.
    SetTooLarge,
    // A literal of a set is none of the form's, or not above the one before.
    MemberWrong,
    // The program has no rule of this number.
    NoSuchRule,
    // One override, or one opposition, too many.
    TooManySheets,
    // A sheet record is cut.
    SheetCut,
    // A sheet record names one tag, or one option, twice.
    SheetSame,
    // A call of an assembly that its state does not take: none is open, or no rule is held to be dropped.
    OutOfTurn,
}

// Why and where an operation refuses: the error of what it answers.
#[derive(Clone, Copy)]
pub struct Refusal {
    pub reason: Reason,
    // An offset in the slice that is refused.
    pub place: usize,
}

// How many items of each kind a part of a file holds.
#[derive(Clone, Copy)]
pub struct Held {
    pub rules: usize,
    pub overrides: usize,
    pub oppositions: usize,
}

// What reading one record finds, but for a refusal.
#[derive(Clone, Copy)]
pub enum Step {
    // A rule's record of so many bytes.
    Rule(usize),
    // An override's, and an opposition's.
    Override(usize),
    Opposition(usize),
    End,
}

pub mod number;
pub mod refuse;
