// What a set leaves of one rule, whose record stands at the start of a slice.

ghost use Rattle.std.specs.Prelude.{◌+◌, ◌*◌, ◌≤◌, ◌≡◌, length};
ghost use Rattle.buffer.specs.Write.{write};
ghost use Rattle.record.specs.Header.{head_count, positive_count, naf_count};
ghost use Rattle.record_walk.specs.Code.{record_size};
ghost use Rattle.set.specs.Code.{any_key};
ghost use Rattle.quotient_rule.specs.Code.{left_at, strict_bytes, option_bytes, remainder_at};

use crate::options::{count_left, write_left};
use record_write::copy::copy;
use record_write::records::write_header;
use set::members::Members;

// Whether one of the rule's naf literals is in the set: then nothing is left of it.
pub fn is_removed(t: &[u8], set: Members) -> bool
    requires { record_size t.now ≤ length t.now }
    ensures { result ≡ any_key set.entry.bytes.now set.entry.count (naf_count t.now) t.now (7 + 5 * (head_count t.now + positive_count t.now)) }
{
    let heads = t[4] as usize;
    let positives = t[5] as usize;
    let nafs = t[6] as usize;
    set.has_any(nafs, t, 7 + 5 * (heads + positives))
}

// The length of what is left of the rule; 0 where nothing is.
pub fn measure_remainder(t: &[u8], set: Members) -> usize
    requires { record_size t.now ≤ length t.now }
    ensures { result ≡ length (remainder_at t.now set.entry.bytes.now set.entry.count) }
{
    if is_removed(t, set) {
        return 0;
    }
    let heads = t[4] as usize;
    let positives = t[5] as usize;
    if t[0] != b'D' {
        return 7 + 5 * (heads + positives);
    }
    let left = count_left(t, heads, set);
    if left == 0 {
        return 0;
    }
    7 + 5 * (left + positives)
}

// A strict rule's record without its naf literals, written: its length.
fn write_strict(t: &[u8], out: &mut [u8], to: usize) -> usize
    requires t_in_bounds { record_size t.now ≤ length t.now }
    requires t_in_bounds_2 { to + length (strict_bytes t.now) ≤ length out.old }
    ensures value { result ≡ length (strict_bytes t.now) }
    ensures out_after { out.new ≡ write out.old to (strict_bytes t.now) }
{
    let heads = t[4];
    let positives = t[5];
    let literals = 5 * (heads as usize + positives as usize);
    write_header(heads, positives, 0, out, to);
    copy(t, 7, literals, out, to + 7);
    7 + literals
}

// A defeasible rule's options that are left and its positive literals, written: how many bytes. The header comes last, for it
// counts the options; where there is no room for it, no option is left.
fn write_options(t: &[u8], set: Members, out: &mut [u8], to: usize) -> usize
    requires t_in_bounds { record_size t.now ≤ length t.now }
    requires t_in_bounds_2 { to + length (option_bytes t.now (left_at t.now set.bytes.now set.count 7 (head_count t.now))) ≤ length out.old }
    ensures value { result ≡ length (option_bytes t.now (left_at t.now set.entry.bytes.now set.entry.count 7 (head_count t.now))) }
    ensures out_after { out.new ≡ write out.old to (option_bytes t.now (left_at t.now set.entry.bytes.now set.entry.count 7 (head_count t.now))) }
{
    if out.len() - to < 7 {
        return 0;
    }
    let heads = t[4] as usize;
    let positives = t[5];
    let kept = write_left(t, heads, set, out, to + 7);
    if kept == 0 {
        return 0;
    }
    let body = 5 * positives as usize;
    copy(t, 7 + 5 * heads, body, out, to + 7 + 5 * kept);
    write_header(kept as u8, positives, 0, out, to);
    7 + 5 * kept + body
}

// What is left of the rule, written: how many bytes.
pub fn write_remainder(t: &[u8], set: Members, out: &mut [u8], to: usize) -> usize
    requires t_in_bounds { record_size t.now ≤ length t.now }
    requires t_in_bounds_2 { to + length (remainder_at t.now set.bytes.now set.count) ≤ length out.old }
    ensures value { result ≡ length (remainder_at t.now set.entry.bytes.now set.entry.count) }
    ensures out_after { out.new ≡ write out.old to (remainder_at t.now set.entry.bytes.now set.entry.count) }
{
    if is_removed(t, set) {
        return 0;
    }
    if t[0] == b'D' {
        return write_options(t, set, out, to);
    }
    write_strict(t, out, to)
}
