// Marks and counts by which literals are numbered.

ghost use Rattle.std.specs.Prelude.{◌*◌, ◌<◌, ◌≡◌};
ghost use Rattle.aspif_place.specs.Code.{words, marked, number_at_place};

use aspif_number::numbers::{is_marked, number_at};
use std::marker::Model;

// A word of marks for each place, and for each word the count of the marks below it. Clauses see the marks.
#[derive(Drop)]
pub struct Numbering<'a> {
    pub bits: &'a [u64],
    pub counts: &'a [u32],
}

impl<'a> Model for Numbering<'a> {
    ghost use Rattle.std.specs.Prelude.{List, ℕ};
    ghost use Rattle.aspif_rule.specs.Code.{Ready};

    ghost Value = { List ℕ };

    ghost view = { λ n. n.bits.now };

    ghost invariant = { λ n. Ready n.bits.now n.counts.now };
}

impl Numbering<'_> {
    // Whether a place is marked.
    pub fn is_marked(&self, i: usize) -> bool
        requires { i < 64 * words }
        ensures { result ≡ marked self.now i }
    {
        is_marked(self.bits, i)
    }

    // The number that belongs to a place.
    pub fn number_at(&self, i: usize) -> u32
        requires { i < 64 * words }
        ensures { result ≡ number_at_place self.now i }
    {
        number_at(self.bits, self.counts, i)
    }
}
