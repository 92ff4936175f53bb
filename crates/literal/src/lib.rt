// Literals of defeasible programs, and the limits of the two forms.
// A literal is five bytes: kind (1), tag (2), atom or rule number (2), the highest byte first. `literal_fields` puts them,
// `literal_decode` reads them; what they are is defined here.

#![tactic(auto)]

// A tag of defeasible rules, 1 to 200. Rules share tags, so a tag is no rule number.
#[derive(Clone, Copy)]
pub struct Tag(pub u16);

// A rule's number, its position from 1. In a rule-defeated mark it runs from 1 to 256.
#[derive(Clone, Copy)]
pub struct RuleNo(pub u16);

// An atom's number, 1 to 500.
#[derive(Clone, Copy)]
pub struct Atom(pub u16);

// An atom, or its explicit negation.
#[derive(Clone, Copy)]
pub enum SignedAtom {
    Positive(Atom),
    Negative(Atom),
}

#[derive(Clone, Copy)]
pub enum Literal {
    // Kinds 0 and 1: what a program is about.
    Signed(SignedAtom),
    // Kinds 2 and 3, the defeat mark: rules with this tag may not choose this option.
    Defeated(Tag, SignedAtom),
    // Kinds 4 and 5, the derivation mark of a translation: the option holds and is not defeated.
    Derived(Tag, SignedAtom),
    // Kind 6, the mark of a translation that every option of one rule is defeated.
    RuleDefeated(RuleNo),
}

// The three fields that five bytes spell. What the third is, an atom or a rule's number, the kind says.
#[derive(Clone, Copy)]
pub struct Fields {
    pub kind: u8,
    // 0 where no tag is due.
    pub tag: Tag,
    pub number: u16,
}

// The kinds of literals that a form has.
#[derive(Clone, Copy)]
pub enum Kinds {
    // 0 to 3: what a program is about, and defeat marks.
    SourceKinds,
    // 0 to 6: the marks of a translation too.
    PlainKinds,
}

// What may stand behind a kind byte: tags from a lowest to a highest one, and atoms or rule numbers from 1 to a largest one. The
// three bounds are one number, two bytes each, so that the kind picks them at once. Where no number may stand, nothing may.
#[derive(Clone, Copy)]
pub struct Ranges(pub u64);

// A form's row of limits: the largest values that it takes.
#[derive(Clone, Copy)]
pub struct Limits {
    // Bytes and rules of a program.
    pub length: usize,
    pub rules: usize,
    // Overrides, and oppositions, of a preference sheet: none where the form has no sheets.
    pub sheets: usize,
    // Literals in a rule's head, in its positive body and under naf.
    pub heads: usize,
    pub positives: usize,
    pub nafs: usize,
    // Whether the form has defeasible rules.
    pub defeasible: bool,
    // The kinds of its literals.
    pub kinds: Kinds,
    // The largest atom, tag, and rule number in a rule-defeated mark.
    pub atoms: u16,
    pub tags: u16,
    pub numbers: u16,
    // Literals in a set, and in a set that is checked.
    pub literals: usize,
    pub checked: usize,
}

pub mod form;
