// The options that a set leaves of a defeasible rule, whose record stands at the start of a slice.

ghost use Rattle.std.specs.Prelude.{◌+◌, ◌*◌, ◌≤◌, ◌<◌, ◌≡◌, length};
ghost use Rattle.buffer.specs.Write.{write};
ghost use Rattle.literal.specs.declared.Literal.TheVariants.{Defeated};
ghost use Rattle.record.specs.Layout.{encoded_literals};
ghost use Rattle.record_walk.specs.Code.{tag_at, option_at};
ghost use Rattle.set.specs.Code.{key_set};
ghost use Rattle.quotient_rule.specs.Code.{left_at};

use literal::Literal;
use literal_fields::encode::encode;
use literal_fields::order::key_of;
use record_walk::options::{option_at, tag_at};
use set::members::Members;

// Whether the defeat mark of the option at a place is in the set. Asks by the mark's key: with `has` the compiler keeps the search out of
// the loops below, and they take longer.
pub fn is_defeated(t: &[u8], at: usize, set: Members) -> bool
    requires { at + 5 ≤ length t.now }
    ensures { result ≡ key_set set.entry.bytes.now set.entry.count (Defeated (tag_at t.now) (option_at t.now at)) }
{
    let tag = tag_at(t);
    let option = option_at(t, at);
    let mark = Literal::Defeated(tag, option);
    set.has_key(key_of(mark))
}

// How many of a record's options are left.
pub fn count_left(t: &[u8], heads: usize, set: Members) -> usize
    requires { 7 + 5 * heads ≤ length t.now }
    ensures { result ≡ length (left_at t.now set.entry.bytes.now set.entry.count 7 heads) }
{
    let mut left: usize = 0;
    for i in 0..heads {
        if !is_defeated(t, 7 + 5 * i, set) {
            left += 1;
        }
    }
    left
}

// Those options, written one behind the other: how many they are.
pub fn write_left(t: &[u8], heads: usize, set: Members, out: &mut [u8], to: usize) -> usize
    requires heads_in_bounds { 7 + 5 * heads ≤ length t.now }
    requires to_in_bounds { to ≤ length out.old }
    requires heads_in_bounds_2 { 0 < length (left_at t.now set.bytes.now set.count 7 heads) → to + 5 * length (left_at t.now set.bytes.now set.count 7 heads) ≤ length out.old }
    ensures value { result ≡ length (left_at t.now set.entry.bytes.now set.entry.count 7 heads) }
    ensures out_after { out.new ≡ write out.old to (encoded_literals (left_at t.now set.entry.bytes.now set.entry.count 7 heads)) }
{
    let mut found: usize = 0;
    for i in 0..heads {
        let at = 7 + 5 * i;
        if !is_defeated(t, at, set) {
            let option = option_at(t, at);
            encode(Literal::Signed(option), out, to + 5 * found);
            found += 1;
        }
    }
    found
}
