// The numbers of several rules' literals looked up at once: first what each is made of, then all of them finished.

ghost use Rattle.std.specs.Prelude.{◌+◌, ◌*◌, ◌≤◌, ◌≡◌, map, length};
ghost use Rattle.aspif_place.specs.Code.{words, number_at_place};
ghost use Rattle.aspif_number.specs.Code.{Summed, places_at, Room, records_size, Records, Rooms, numbers_of, Front, Gathers, Low, Finished};

use crate::marks::count_literals;
use crate::place::{WORD, place_at};
use mask::single_at;
use record_walk::size::record_size;

// What numbers are made of, for `count` literals that stand one behind the other from `from` on: the marks below each in its own word,
// and the marks below that word.
fn gather_run(
    s: &[u8],
    from: usize,
    count: usize,
    bits: &[u64],
    counts: &[u32],
    masks: &mut [u64],
    numbers: &mut [u32],
    to: usize,
)
    requires count_in_bounds { from + 5 * count ≤ length s.now }
    requires room { Room (length bits.now) (places_at s.now from count) }
    requires bits_len_bound { length bits.now ≤ words }
    requires summed { Summed bits.now counts.now }
    requires count_in_bounds_2 { to + count ≤ length masks.old }
    requires count_in_bounds_3 { to + count ≤ length numbers.old }
    ensures { Gathers masks.old numbers.old masks.new numbers.new to (map (number_at_place bits.now) (places_at s.now from count)) }
{
    for j in 0..count {
        let i = place_at(s, from + 5 * j);
        let w = i / WORD;
        masks[to + j] = bits[w] & (single_at((i % WORD) as u32) - 1);
        numbers[to + j] = counts[w];
    }
}

// The first `count` numbers, finished. By itself, so that a compiler may count the marks of several words at once.
fn finish_numbers(masks: &[u64], numbers: &mut [u32], count: usize)
    requires count_in_bounds { count ≤ length masks.now }
    requires count_in_bounds_2 { count ≤ length numbers.old }
    requires low { Low masks.now numbers.old count }
    ensures { Finished masks.now numbers.old numbers.new count }
{
    for k in 0..count {
        numbers[k] += masks[k].count_ones() + 1;
    }
}

// The numbers of the literals of `rules` rules whose records start the part; how many bytes these have. Marks and counts come as two slices,
// as in `number_at`: `Numbering` of aspif_rule has a word for each place, and that is more than is asked here.
pub fn number_rules(
    part: &[u8],
    rules: usize,
    bits: &[u64],
    counts: &[u32],
    masks: &mut [u64],
    numbers: &mut [u32],
) -> usize
    requires records { Records part.now rules }
    requires rooms { Rooms (length bits.now) part.now rules }
    requires bits_len_bound { length bits.now ≤ words }
    requires summed { Summed bits.now counts.now }
    requires rules_in_bounds { 64 * rules ≤ length masks.old }
    requires rules_in_bounds_2 { 64 * rules ≤ length numbers.old }
    ensures value { result ≡ records_size part.now rules }
    ensures front { Front numbers.new (numbers_of bits.now part.now rules) }
{
    let mut at: usize = 0;
    let mut k: usize = 0;
    for _ in 0..rules {
        let here = &part[at..];
        let count = count_literals(here[4], here[5], here[6]);
        gather_run(here, 7, count, bits, counts, masks, numbers, k);
        k += count;
        at += record_size(here);
    }
    finish_numbers(masks, numbers, k);
    at
}
