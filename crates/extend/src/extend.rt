// The extension of a source set: the program and the set are read, the marks gathered and sorted, and the record written.

ghost use Rattle.std.specs.Prelude.{◌+◌, ◌*◌, ◌≤◌, ◌<◌, ◌≡◌, map, length};
ghost use Rattle.buffer.specs.Write.{write};
ghost use Rattle.literal.specs.Order.{key};
ghost use Rattle.literal.specs.Limits.{source};
ghost use Rattle.semantics.specs.Item.{rules};
ghost use Rattle.record.specs.Meets.{Meets};
ghost use Rattle.record_walk.specs.Code.{HoldsFile};
ghost use Rattle.set.specs.Code.{key_set};
ghost use Rattle.keys.specs.Keys.{sorted_keys};
ghost use Rattle.keys.specs.Code.{Fitting};
ghost use Rattle.keys_sort.specs.Code.{Sorted};
ghost use Rattle.extend_marks.specs.Marks.{marks_from};
ghost use Rattle.extend_marks.specs.Code.{MarkableFile};
ghost use Rattle.extend.specs.Extend.{extended};
ghost use Rattle.extend.specs.Code.{most, Extendable, Extending, extension_of, joined};

use extend_marks::marks::collect_marks;
use inputs::read::read_inputs;
use keys::write::write_keys;
use keys_sort::sort::sort_keys;
use literal::Limits;
use literal::form::Source;
use record::refuse::refuse;
use record::{Reason, Refusal};
use record_write::copy::copy;
use set::header::write_set_header;
use set::members::Members;

// The marks that a source's rules may add: no more than a rule has options.
const MOST: usize = 4096;

// The marks of a file's rules, ascending and each once, at the front of `keys`; how many there are.
fn gather_marks(s: &[u8], set: Members, keys: &mut [u64]) -> usize
    requires holds_file { HoldsFile (MarkableFile (length keys.old)) s.now }
    requires keys_len_bound { length keys.old ≤ most }
    ensures { (w : HoldsFile (MarkableFile (length keys.old)) s.now) → Sorted keys.old keys.new result (sorted_keys (map key (marks_from 1 (rules w.items) (key_set set.entry.bytes.now set.entry.count)))) }
{
    let mut spare = [0u64; MOST];
    let n = collect_marks(s, set, keys);
    sort_keys(&mut keys[..n], &mut spare)
}

// The record of a set's literals with marks behind them, written to the start of `out`.
fn write_joined(set: Members, marks: &[u64], out: &mut [u8])
    requires count_bound { set.count + length marks.now < 65536 }
    requires in_bounds { 4 + 5 * (set.count + length marks.now) ≤ length out.old }
    requires fitting { Fitting marks.now }
    ensures { out.new ≡ write out.old 0 (joined set.entry.bytes.now set.entry.count marks.now (length marks.now)) }
{
    let total = set.count + marks.len();
    let size = 5 * set.count;
    write_set_header(total as u16, out);
    copy(set.bytes, 4, size, out, 4);
    write_keys(marks, out, 4 + size);
}

// The extension of the set that `k` holds, for the rules in the file that `s` holds: sheets append strict rules, which add no mark.
fn write_extension(s: &[u8], k: &[u8], count: usize, out: &mut [u8]) -> Result<usize, Refusal>
    requires { Extending s.now k.now count }
    ensures { (w : Extending s.now k.now count) → Meets (extension_of (rules w.file.items) w.literals out.old) result out.new }
{
    let set = Members { bytes: k, count };
    let mut keys = [0u64; MOST];
    let n = gather_marks(s, set, &mut keys);
    let size = 4 + 5 * (count + n);
    if out.len() < size {
        return refuse(Reason::OutputShort);
    }
    write_joined(set, &keys[..n], out);
    Ok(size)
}

// The extension of the set in `k`, for the program that the file in `s` means, both in a form.
fn extend(lim: Limits, s: &[u8], k: &[u8], out: &mut [u8]) -> Result<usize, Refusal>
    requires { Extendable lim }
    ensures { Meets (extended lim s.now k.now out.old) result out.new }
{
    let (_, count) = read_inputs(lim, lim.literals, s, k)?;
    write_extension(s, k, count, out)
}

// The extension of a source set.
pub fn extend_source(s: &[u8], k: &[u8], out: &mut [u8]) -> Result<usize, Refusal>
    ensures { Meets (extended source s.now k.now out.old) result out.new }
{
    extend(Source::limits(), s, k, out)
}
