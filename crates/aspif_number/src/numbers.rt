// Numbers by the marks: the counts of words summed, a literal's number looked up.

ghost use Rattle.std.specs.Prelude.{◌+◌, ◌*◌, ◌≤◌, ◌<◌, ◌≡◌, length};
ghost use Rattle.aspif_place.specs.Code.{words, marked, number_at_place};
ghost use Rattle.aspif_number.specs.Code.{Few, Tallied, Sums, Summed};

use crate::place::WORD;
use mask::{is_in, single_at};

// Each count replaced by the sum of those before it.
fn sum_counts(counts: &mut [u32])
    requires { Few counts.old }
    ensures { Sums counts.old counts.new }
{
    let mut sum: u32 = 0;
    for count in counts.iter_mut() {
        let tally = *count;
        *count = sum;
        sum += tally;
    }
}

// Counts of each word's marks made into those of the marks below it.
pub fn sum_below(bits: &[u64], counts: &mut [u32])
    requires bits_len_bound { length bits.now ≤ words }
    requires tallied { Tallied bits.now counts.old }
    ensures { Summed bits.now counts.new }
{
    sum_counts(counts);
}

// Whether a place is marked.
pub fn is_marked(bits: &[u64], i: usize) -> bool
    requires { i < 64 * length bits.now }
    ensures { result ≡ marked bits.now i }
{
    is_in(bits[i / WORD], (i % WORD) as u32)
}

// The number that belongs to a place: one more than the marked places below.
pub fn number_at(bits: &[u64], counts: &[u32], i: usize) -> u32
    requires i_bound { i < 64 * length bits.now }
    requires bits_len_bound { length bits.now ≤ words }
    requires summed { Summed bits.now counts.now }
    ensures value { result ≡ number_at_place bits.now i }
    ensures upper_bound { result ≤ 64 * words }
{
    let w = i / WORD;
    let below = single_at((i % WORD) as u32) - 1;
    counts[w] + u64::count_ones(bits[w] & below) + 1
}
