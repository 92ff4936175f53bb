// The quotient of a program that was read by a set that was read: measured, and then written, in one pass each.

ghost use Rattle.std.specs.Prelude.{◌≡◌, cond, leb, eqb, length};
ghost use Rattle.buffer.specs.Write.{write};
ghost use Rattle.record_walk.specs.Code.{Holds};
ghost use Rattle.set.specs.Code.{key_set};
ghost use Rattle.quotient.specs.Code.{quotient_of, Countable, Fitting};

use quotient_rule::remainder::{measure_remainder, write_remainder};
use record_walk::records::Records;
use record_write::records::write_end;
use set::members::Members;

// The length of the quotient.
fn measure_quotient(s: &[u8], set: Members) -> usize
    requires { Holds Countable s.now }
    ensures { (w : Holds Countable s.now) → result ≡ length (quotient_of w.program (key_set set.entry.bytes.now set.entry.count)) }
{
    let mut total: usize = 4;
    for part in Records::new(s) {
        total += measure_remainder(part, set);
    }
    total
}

// 1 for a record that has bytes, and 0 for none.
fn count_record(size: usize) -> usize
    ensures { result ≡ cond (eqb size 0) 0 1 }
{
    if size == 0 { 0 } else { 1 }
}

// Whether the quotient is no longer than `room`. It is never longer than the program, so that where there is room for that
// nothing is measured.
pub fn is_room(s: &[u8], set: Members, room: usize) -> bool
    requires { Holds Countable s.now }
    ensures { (w : Holds Countable s.now) → result ≡ leb (length (quotient_of w.program (key_set set.entry.bytes.now set.entry.count))) room }
{
    if s.len() <= room {
        return true;
    }
    measure_quotient(s, set) <= room
}

// The quotient, written to the start of `out`: its length. Each byte is written once.
pub fn write_quotient(s: &[u8], set: Members, out: &mut [u8]) -> usize
    requires { Holds (Fitting (key_set set.bytes.now set.count) (length out.old)) s.now }
    ensures value { (w : Holds (Fitting (key_set set.entry.bytes.now set.entry.count) (length out.old)) s.now) → result ≡ length (quotient_of w.program (key_set set.entry.bytes.now set.entry.count)) }
    ensures out_after { (w : Holds (Fitting (key_set set.entry.bytes.now set.entry.count) (length out.old)) s.now) → out.new ≡ write out.old 0 (quotient_of w.program (key_set set.entry.bytes.now set.entry.count)) }
{
    let mut made: usize = 0;
    let mut to: usize = 0;
    for part in Records::new(s) {
        let size = write_remainder(part, set, out, to);
        to += size;
        made += count_record(size);
    }
    write_end(made as u16, out, to);
    to + 4
}
