// The two forms of programs. Each owns its row of limits: document 01 names the constants as the form's own. One trait for both would not
// do, since no function but the entry points knows the form by its type: they pass the row on.

ghost use Rattle.std.specs.Prelude.{◌≡◌};
ghost use Rattle.literal.specs.Limits.{plain, source};

use crate::{Kinds, Limits};

// Programs with defeasible rules.
#[derive(Clone, Copy)]
pub struct Source {}

impl Source {
    pub const LENGTH: usize = 64388;

    pub const RULES: usize = 256;

    pub const SHEETS: usize = 64;

    pub const HEADS: usize = 16;

    pub const POSITIVES: usize = 16;

    pub const NAFS: usize = 16;

    pub const DEFEASIBLE: bool = true;

    pub const KINDS: Kinds = Kinds::SourceKinds;

    pub const ATOMS: u16 = 500;

    pub const TAGS: u16 = 200;

    pub const NUMBERS: u16 = 256;

    pub const LITERALS: usize = 1000;

    pub const CHECKED: usize = 64;

    pub fn limits() -> Limits
        ensures { result ≡ source }
    {
        Limits {
            length: Self::LENGTH,
            rules: Self::RULES,
            sheets: Self::SHEETS,
            heads: Self::HEADS,
            positives: Self::POSITIVES,
            nafs: Self::NAFS,
            defeasible: Self::DEFEASIBLE,
            kinds: Self::KINDS,
            atoms: Self::ATOMS,
            tags: Self::TAGS,
            numbers: Self::NUMBERS,
            literals: Self::LITERALS,
            checked: Self::CHECKED,
        }
    }
}

// Programs of strict rules alone: translations and quotients.
#[derive(Clone, Copy)]
pub struct Plain {}

impl Plain {
    pub const LENGTH: usize = 456708;

    pub const RULES: usize = 20992;

    pub const SHEETS: usize = 0;

    pub const HEADS: usize = 16;

    pub const POSITIVES: usize = 16;

    pub const NAFS: usize = 17;

    pub const DEFEASIBLE: bool = false;

    pub const KINDS: Kinds = Kinds::PlainKinds;

    pub const ATOMS: u16 = 500;

    pub const TAGS: u16 = 200;

    pub const NUMBERS: u16 = 256;

    pub const LITERALS: usize = 5352;

    pub const CHECKED: usize = 64;

    pub fn limits() -> Limits
        ensures { result ≡ plain }
    {
        Limits {
            length: Self::LENGTH,
            rules: Self::RULES,
            sheets: Self::SHEETS,
            heads: Self::HEADS,
            positives: Self::POSITIVES,
            nafs: Self::NAFS,
            defeasible: Self::DEFEASIBLE,
            kinds: Self::KINDS,
            atoms: Self::ATOMS,
            tags: Self::TAGS,
            numbers: Self::NUMBERS,
            literals: Self::LITERALS,
            checked: Self::CHECKED,
        }
    }
}
