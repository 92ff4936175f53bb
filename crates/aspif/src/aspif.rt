// Exporting: the program is read and its literals marked in one pass, and its text is written where there is room.

ghost use Rattle.std.specs.Prelude.{◌<◌, ◌≡◌};
ghost use Rattle.literal.specs.Limits.{plain};
ghost use Rattle.record.specs.Meets.{Meets};
ghost use Rattle.record_walk.specs.Code.{Holds};
ghost use Rattle.aspif_place.specs.Code.{Marks};
ghost use Rattle.aspif_number.specs.Code.{Tallied};
ghost use Rattle.aspif.specs.Aspif.{exported};
ghost use Rattle.aspif.specs.Code.{Exportable, Counted, Within, enough, outcome_in, outcome_of};

use crate::text::{measure_text, write_text};
use aspif_number::numbers::sum_below;
use aspif_number::place::WORDS;
use aspif_read::read::read_marking;
use aspif_rule::numbering::Numbering;
use literal::Limits;
use literal::form::Plain;
use record::refuse::refuse;
use record::{Reason, Refusal};

// How much room is enough for the text of any program with so many bytes.
fn room_for(lim: Limits, length: usize) -> usize
    requires { length < 500000 }
    ensures { result ≡ enough lim length }
{
    2 * length + 58 * lim.atoms as usize + 12
}

// The text, measured first: 9 where there is no room.
fn write_measured(
    s: &[u8],
    rules: usize,
    numbering: &Numbering,
    out: &mut [u8],
) -> Result<usize, Refusal>
    requires { Holds (Counted rules) s.now }
    ensures { (w : Holds (Counted rules) s.now) → Meets (outcome_in numbering.now w.program out.old) result out.new }
{
    let n = measure_text(s, numbering);
    if out.len() < n {
        return refuse(Reason::OutputShort);
    }
    Ok(write_text(s, rules, numbering, out))
}

// The text, where there is room. It is measured only where `out` is shorter than the longest text could be.
fn write_fitting(
    lim: Limits,
    s: &[u8],
    rules: usize,
    numbering: &Numbering,
    out: &mut [u8],
) -> Result<usize, Refusal>
    requires exportable { Exportable lim }
    requires holds { Holds (Within lim rules) s.now }
    requires marks { (w : Holds (Within lim rules) s.now) → Marks w.program numbering.now }
    ensures { (w : Holds (Within lim rules) s.now) → Meets (outcome_in numbering.now w.program out.old) result out.new }
{
    if out.len() < room_for(lim, s.len()) {
        return write_measured(s, rules, numbering, out);
    }
    Ok(write_text(s, rules, numbering, out))
}

// The text of a program that was read, its literals marked and each word's marks counted.
fn export_marked(
    lim: Limits,
    s: &[u8],
    rules: usize,
    bits: &[u64],
    counts: &mut [u32],
    out: &mut [u8],
) -> Result<usize, Refusal>
    requires exportable { Exportable lim }
    requires holds { Holds (Within lim rules) s.now }
    requires tallied { Tallied bits.now counts.old }
    requires marks { (w : Holds (Within lim rules) s.now) → Marks w.program bits.now }
    ensures { (w : Holds (Within lim rules) s.now) → Meets (outcome_of w.program out.old) result out.new }
{
    sum_below(bits, counts);
    write_fitting(lim, s, rules, &Numbering { bits, counts }, out)
}

// The text of the program that `s` holds in a form, written to the start of `out`.
fn export(lim: Limits, s: &[u8], out: &mut [u8]) -> Result<usize, Refusal>
    requires { Exportable lim }
    ensures { Meets (exported lim s.now out.old) result out.new }
{
    let mut bits = [0u64; WORDS];
    let mut counts = [0u32; WORDS];
    let n = read_marking(lim, s, &mut bits, &mut counts)?;
    export_marked(lim, s, n, &bits, &mut counts, out)
}

// The text of a plain program.
pub fn export_plain(s: &[u8], out: &mut [u8]) -> Result<usize, Refusal>
    ensures { Meets (exported plain s.now out.old) result out.new }
{
    export(Plain::limits(), s, out)
}
