// The text of a program that was read and whose literals are numbered: measured, and written.

ghost use Rattle.std.specs.Prelude.{◌+◌, ◌≤◌, ◌≡◌, length};
ghost use Rattle.buffer.specs.Write.{write, Wrote};
ghost use Rattle.record_walk.specs.Code.{Holds};
ghost use Rattle.aspif_text.specs.Text.{first_line, last_line};
ghost use Rattle.aspif.specs.Code.{Numberable, TextFits, behind_rules, text_in};

use crate::pass::{measure_rules, write_rules};
use aspif_names::names::{measure_names, write_names};
use aspif_names::pairs::{measure_pairs, write_pairs};
use aspif_rule::numbering::Numbering;

// The first line: `asp 1 0 0`.
fn write_first(out: &mut [u8])
    requires { 10 ≤ length out.old }
    ensures { out.new ≡ write out.old 0 first_line }
{
    out[..10].copy_from_slice(b"asp 1 0 0\n");
}

// The last line: `0`; where it ends.
fn write_last(out: &mut [u8], to: usize) -> usize
    requires { to + 2 ≤ length out.old }
    ensures { Wrote out.old out.new to last_line result }
{
    out[to..to + 2].copy_from_slice(b"0\n");
    to + 2
}

// The lines of the constraints and of the names; where they end.
fn write_behind(numbering: &Numbering, out: &mut [u8], to: usize) -> usize
    requires { to + length (behind_rules numbering.now) ≤ length out.old }
    ensures { Wrote out.old out.new to (behind_rules numbering.now) result }
{
    let named = write_pairs(numbering, out, to);
    let negated = write_names(numbering, false, out, named);
    write_names(numbering, true, out, negated)
}

// The text's length.
pub fn measure_text(s: &[u8], numbering: &Numbering) -> usize
    requires { Holds Numberable s.now }
    ensures { (w : Holds Numberable s.now) → result ≡ length (text_in numbering.now w.program) }
{
    let rules = measure_rules(s, numbering);
    let names = measure_names(numbering, false) + measure_names(numbering, true);
    12 + rules + measure_pairs(numbering) + names
}

// The text, to the start of `out`; where it ends.
pub fn write_text(s: &[u8], rules: usize, numbering: &Numbering, out: &mut [u8]) -> usize
    requires { Holds (TextFits rules numbering.now (length out.old)) s.now }
    ensures { (w : Holds (TextFits rules numbering.now (length out.old)) s.now) → Wrote out.old out.new 0 (text_in numbering.now w.program) result }
{
    write_first(out);
    let behind = write_rules(s, rules, numbering, out, 10);
    let end = write_behind(numbering, out, behind);
    write_last(out, end)
}
