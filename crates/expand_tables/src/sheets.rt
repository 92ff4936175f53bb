// Overrides and oppositions, put into tables one by one; and whether a candidate is new.

ghost use Rattle.std.specs.Prelude.{◌≤◌, ◌<◌, ◌≡◌, length};
ghost use Rattle.expand_tables.specs.Code.{place_of, pair_from, is_new, Overridden, Opposed};

use crate::place::place_of;
use literal::{SignedAtom, Tag};
use mask::{is_in, single_at};

// One override more, behind n.
pub fn add_override(
    upper: Tag,
    lower: Tag,
    up: &mut [u64],
    low: &mut [u64],
    lowers: &mut [u16],
    n: usize,
)
    requires upper_in_bounds { upper.0 < length up.old }
    requires lower_in_bounds { lower.0 < length low.old }
    requires n_in_bounds { n < length lowers.old }
    requires n_bound { n < 64 }
    ensures { Overridden upper lower n up.old low.old lowers.old up.new low.new lowers.new }
{
    let bit = single_at(n as u32);
    let u = upper.0 as usize;
    let l = lower.0 as usize;
    up[u] = up[u] | bit;
    low[l] = low[l] | bit;
    lowers[n] = lower.0;
}

// Whether two places are one of the first m pairs, either way round.
fn has_pair(ones: &[u16], others: &[u16], m: usize, k: u16, l: u16) -> bool
    requires m_in_bounds { m ≤ length ones.now }
    requires m_in_bounds_2 { m ≤ length others.now }
    ensures { result ≡ pair_from ones.now others.now k l 0 m }
{
    let mut i: usize = 0;
    let mut left = m;
    while 0 < left {
        let x = ones[i];
        let y = others[i];
        if (k == x) & (l == y) | (k == y) & (l == x) {
            return true;
        }
        i += 1;
        left -= 1;
    }
    false
}

// One opposition more, behind m pairs; how many pairs there are then. Its places are put down, and only counted where its pair is new.
pub fn add_opposition(
    a: SignedAtom,
    b: SignedAtom,
    ones: &mut [u16],
    others: &mut [u16],
    m: usize,
) -> usize
    requires a_bound { place_of a < 65536 }
    requires b_bound { place_of b < 65536 }
    requires m_in_bounds { m < length ones.old }
    requires m_in_bounds_2 { m < length others.old }
    ensures { Opposed a b m result ones.old others.old ones.new others.new }
{
    let k = place_of(a) as u16;
    let l = place_of(b) as u16;
    let known = has_pair(ones, others, m, k, l);
    ones[m] = k;
    others[m] = l;
    m + !known as usize
}

// Whether override i is the first with its lower tag of which a rule with the upper tag heads the winner, and a rule with the lower
// tag heads the loser: `w` has the overrides that head the winner, `v` those that head the loser, `same` those up to i with i's
// lower tag.
pub fn is_new(w: u64, v: u64, same: u64, i: u32) -> bool
    requires { i < 64 }
    ensures { result ≡ is_new w v same i }
{
    (w & same == single_at(i)) & is_in(v, i)
}
