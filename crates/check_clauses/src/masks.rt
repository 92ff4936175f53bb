// The positions of literals in a set of at most 64: a mask for each literal, and the union of several.

ghost use Rattle.std.specs.Prelude.{◌+◌, ◌*◌, ◌≤◌, ◌≡◌, length};
ghost use Rattle.literal.specs.Order.{key};
ghost use Rattle.check_clauses.specs.Code.{key_mask, keys_at, union, positions_of};

use literal::Literal;
use literal_fields::order::{key_at, key_of};
use mask::single_at;
use set::members::Members;

// A set with no more literals than a mask has positions.
#[derive(Clone, Copy)]
pub struct Positions<'a> {
    pub set: Members<'a>,
    pub ghost few: { set.count ≤ 64 },
}

impl Positions<'_> {
    // The position of the literal with this key, as a mask; empty where it is not in the set.
    fn mask_of(self, wanted: u64) -> u64
        ensures { result ≡ key_mask self.entry.set.bytes.now self.entry.set.count wanted }
    {
        match self.set.place_of(wanted) {
            Some(place) => single_at((self.set.count - 1 - place) as u32),
            None => 0,
        }
    }

    // The position of a literal that is at hand.
    pub fn mask_literal(self, l: Literal) -> u64
        ensures { result ≡ key_mask self.entry.set.bytes.now self.entry.set.count (key l) }
    {
        self.mask_of(key_of(l))
    }

    // The positions of `n` literals of a slice, from a place on.
    pub fn mask_heads(self, n: usize, t: &[u8], from: usize) -> u64
        requires { from + 5 * n ≤ length t.now }
        ensures { result ≡ union (key_mask self.entry.set.bytes.now self.entry.set.count) (keys_at t.now from n) }
    {
        let mut mask: u64 = 0;
        for i in 0..n {
            mask |= self.mask_of(key_at(&t[from + 5 * i..]));
        }
        mask
    }

    // The same, where each of the literals is in the set.
    pub fn mask_positives(self, n: usize, t: &[u8], from: usize) -> Option<u64>
        requires { from + 5 * n ≤ length t.now }
        ensures { result ≡ positions_of self.entry.set.bytes.now self.entry.set.count (keys_at t.now from n) }
    {
        let mut mask: u64 = 0;
        for i in 0..n {
            let one = self.mask_of(key_at(&t[from + 5 * i..]));
            if one == 0 {
                return None;
            }
            mask |= one;
        }
        Some(mask)
    }
}
