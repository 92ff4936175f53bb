// The part of a set that a mask of positions picks, as an A: record.

ghost use Rattle.std.specs.Prelude.{◌+◌, ◌*◌, ◌≤◌, ◌<◌, ◌≡◌, length, take, drop};
ghost use Rattle.buffer.specs.Write.{write};
ghost use Rattle.check_witness.specs.Code.{picked_one, picked_record};

use mask::is_in;
use record_write::copy::copy;
use set::header::write_set_header;

// The literal at a place of the set's slice, copied where its position is in the mask. Answers how many bytes that is.
fn copy_picked(set: &[u8], at: usize, model: u64, i: u32, out: &mut [u8], to: usize) -> usize
    requires at_in_bounds { at + 5 ≤ length set.now }
    requires to_in_bounds { to + 5 ≤ length out.old }
    requires i_bound { i < 64 }
    ensures size { result ≡ length (picked_one model i (take 5 (drop at set.now))) }
    ensures bytes { out.new ≡ write out.old to (picked_one model i (take 5 (drop at set.now))) }
{
    if !is_in(model, i) {
        return 0;
    }
    copy(set, at, 5, out, to);
    5
}

// The record of those of the set's `n` literals whose positions are in the mask, at the start of `out`; answers its length. The number of
// literals is known last and written last. The set need not ascend here, so it comes as a slice and a count.
pub fn write_picked(set: &[u8], n: usize, model: u64, out: &mut [u8]) -> usize
    requires set_in_bounds { 4 + 5 * n ≤ length set.now }
    requires out_in_bounds { 4 + 5 * n ≤ length out.old }
    requires few { n ≤ 64 }
    ensures size { result ≡ length (picked_record model set.now n) }
    ensures bytes { out.new ≡ write out.old 0 (picked_record model set.now n) }
{
    let mut to: usize = 4;
    for i in 0..n {
        let position = (n - 1 - i) as u32;
        to += copy_picked(set, 4 + 5 * i, model, position, out, to);
    }
    let count = (to - 4) / 5;
    write_set_header(count as u16, out);
    to
}
