// A place marked, and each word's marks counted; how many literals a record has.

ghost use Rattle.std.specs.Prelude.{◌+◌, ◌*◌, ◌≤◌, ◌<◌, ◌≡◌, [], ◌∷◌, length};
ghost use Rattle.aspif_number.specs.Code.{Gained, Tallied};

use crate::place::WORD;
use mask::{is_in, single_at};

// A place marked. It is counted where it was not marked before.
pub fn mark_place(bits: &mut [u64], counts: &mut [u32], i: usize)
    requires i_bound { i < 64 * length bits.old }
    requires tallied { Tallied bits.old counts.old }
    ensures gained { Gained bits.old bits.new (i ∷ []) }
    ensures tallied_2 { Tallied bits.new counts.new }
{
    let w = i / WORD;
    let at = (i % WORD) as u32;
    let word = bits[w];
    counts[w] += !is_in(word, at) as u32;
    bits[w] = word | single_at(at);
}

// How many literals a rule's record has.
pub fn count_literals(heads: u8, positives: u8, nafs: u8) -> usize
    ensures value { result ≡ heads + positives + nafs }
    ensures upper_bound { result ≤ 765 }
{
    heads as usize + positives as usize + nafs as usize
}
