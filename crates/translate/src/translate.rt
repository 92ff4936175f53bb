// Translating: the source is read, and the translation of its program measured, and then written.

ghost use Rattle.std.specs.Prelude.{true};
ghost use Rattle.literal.specs.Limits.{source};
ghost use Rattle.record.specs.Meets.{Meets};
ghost use Rattle.record_walk.specs.Code.{Holds};
ghost use Rattle.expand.specs.Code.{Normalizable};
ghost use Rattle.translate.specs.Code.{Translatable, Writable, translation_of};
ghost use Rattle.translate.specs.Translate.{translated};

use crate::pass::{measure_rules, write_rules};
use expand::with::with_normal;
use literal::Limits;
use literal::form::Source;
use record::refuse::refuse;
use record::{Reason, Refusal};
use record_read::read::{has_sheets, read_items};

// The translation of the program that `s` holds, written to the start of `out`.
fn write_translation(s: &[u8], out: &mut [u8]) -> Result<usize, Refusal>
    requires { Holds Translatable s.now }
    ensures { (w : Holds Translatable s.now) → Meets (translation_of w.program out.old) result out.new }
{
    let n = measure_rules(s);
    if out.len() < n {
        return refuse(Reason::OutputShort);
    }
    write_rules(s, out);
    Ok(n)
}

// The translation of the program that the file in `s` means in a form: a file without sheets has the program's records itself.
fn translate(lim: Limits, s: &[u8], out: &mut [u8]) -> Result<usize, Refusal>
    requires writable { Writable lim }
    requires normalizable { Normalizable lim }
    ensures { Meets (translated lim s.now out.old) result out.new }
{
    let held = read_items(lim, s)?;
    if has_sheets(held) {
        return with_normal(s, out, write_translation);
    }
    write_translation(s, out)
}

// The translation of a source.
pub fn translate_source(s: &[u8], out: &mut [u8]) -> Result<usize, Refusal>
    ensures { Meets (translated source s.now out.old) result out.new }
{
    translate(Source::limits(), s, out)
}
