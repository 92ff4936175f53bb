// The quotient: the program is read, then the set, then what the set leaves of the program is written.

ghost use Rattle.std.specs.Prelude.{◌≡◌, true};
ghost use Rattle.expand.specs.Code.{Normalizable};
ghost use Rattle.literal.specs.Limits.{source, plain};
ghost use Rattle.record.specs.Meets.{Meets};
ghost use Rattle.quotient.specs.Quotient.{quotiented};
ghost use Rattle.quotient.specs.Code.{Sized, Dividing, delivered_quotient};

use crate::pass::{is_room, write_quotient};
use expand::with::with_normal;
use inputs::read::read_inputs;
use literal::Limits;
use literal::form::{Plain, Source};
use record::refuse::refuse;
use record::{Reason, Refusal};
use record_read::read::has_sheets;
use set::members::Members;

// The quotient of the program that `s` holds by the set of `count` literals that `k` holds, written to the start of `out`.
fn divide_program(s: &[u8], k: &[u8], count: usize, out: &mut [u8]) -> Result<usize, Refusal>
    requires { Dividing s.now k.now count }
    ensures { (w : Dividing s.now k.now count) → Meets (delivered_quotient w.program.program w.literals out.old) result out.new }
{
    let set = Members { bytes: k, count };
    if !is_room(s, set, out.len()) {
        return refuse(Reason::OutputShort);
    }
    Ok(write_quotient(s, set, out))
}

// The quotient of the program in `s` by the set in `k`, both in a form without sheets. No flag of `divide_file`: a plain program may be longer
// than what a normal form's array holds.
fn divide(lim: Limits, s: &[u8], k: &[u8], out: &mut [u8]) -> Result<usize, Refusal>
    requires sized { Sized lim }
    requires sheets_value { lim.sheets ≡ 0 }
    ensures { Meets (quotiented lim s.now k.now out.old) result out.new }
{
    let (_, count) = read_inputs(lim, lim.literals, s, k)?;
    divide_program(s, k, count, out)
}

// The quotient of the program that the file in `s` means by the set in `k`, both in a form: a file without sheets has the program's
// records itself.
fn divide_file(lim: Limits, s: &[u8], k: &[u8], out: &mut [u8]) -> Result<usize, Refusal>
    requires sized { Sized lim }
    requires normalizable { Normalizable lim }
    ensures { Meets (quotiented lim s.now k.now out.old) result out.new }
{
    let (held, count) = read_inputs(lim, lim.literals, s, k)?;
    if has_sheets(held) {
        return with_normal(
            s,
            out,
            |normal, out|
                requires { Dividing normal.now k.now count }
                ensures { (w : Dividing normal.now k.entry.now count) → Meets (delivered_quotient w.program.program w.literals out.old) result out.new }
            { divide_program(normal, k, count, out) },
        );
    }
    divide_program(s, k, count, out)
}

// The entry points of the two forms, which README names and C calls: each is its form's row of limits.
pub fn quotient_source(s: &[u8], k: &[u8], out: &mut [u8]) -> Result<usize, Refusal>
    ensures { Meets (quotiented source s.now k.now out.old) result out.new }
{
    divide_file(Source::limits(), s, k, out)
}

// The plain form.
pub fn quotient_plain(s: &[u8], k: &[u8], out: &mut [u8]) -> Result<usize, Refusal>
    ensures { Meets (quotiented plain s.now k.now out.old) result out.new }
{
    divide(Plain::limits(), s, k, out)
}
