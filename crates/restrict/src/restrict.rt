// Restricting: the set is read, its literals of source kinds are counted, and they are copied behind a new count.

ghost use Rattle.std.specs.Prelude.{◌+◌, ◌*◌, ◌≤◌, ◌≡◌, length};
ghost use Rattle.literal.specs.Limits.{plain};
ghost use Rattle.record.specs.Meets.{Meets};
ghost use Rattle.restrict.specs.Code.{source_front};
ghost use Rattle.restrict.specs.Restrict.{restricted};

use literal::Limits;
use literal::form::Plain;
use record::refuse::refuse;
use record::{Reason, Refusal};
use record_write::copy::copy;
use set::header::write_set_header;
use set::read::read_set;

// How many of `count` literals stand before the first of kinds 4 to 6.
fn count_front(k: &[u8], count: usize) -> usize
    requires { 4 + 5 * count ≤ length k.now }
    ensures { result ≡ source_front k.now 4 count }
{
    for held in 0..count {
        if 3 < k[4 + 5 * held] {
            return held;
        }
    }
    count
}

// The restriction of the set that `k` holds in a form, written to the start of `out`. A set's literals ascend, so that
// those of kinds 0 to 3 are its first ones, and one run of bytes.
fn restrict(lim: Limits, k: &[u8], out: &mut [u8]) -> Result<usize, Refusal>
    ensures { Meets (restricted lim k.now out.old) result out.new }
{
    let n = read_set(lim, lim.literals, k)?;
    let held = count_front(k, n);
    let bytes = 5 * held;
    let size = 4 + bytes;
    if out.len() < size {
        return refuse(Reason::OutputShort);
    }
    write_set_header(held as u16, out);
    copy(k, 4, bytes, out, 4);
    Ok(size)
}

// The restriction of a plain set.
pub fn restrict_plain(k: &[u8], out: &mut [u8]) -> Result<usize, Refusal>
    ensures { Meets (restricted plain k.now out.old) result out.new }
{
    restrict(Plain::limits(), k, out)
}
