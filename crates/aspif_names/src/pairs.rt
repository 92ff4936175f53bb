// The lines of constraints: for each atom that is marked both ways, that it is never both.

ghost use Rattle.std.specs.Prelude.{◌+◌, ◌*◌, ◌≤◌, ◌<◌, ◌≡◌, length};
ghost use Rattle.buffer.specs.Write.{write, Wrote};
ghost use Rattle.aspif_meaning.specs.Program.{never_both};
ghost use Rattle.aspif_text.specs.Text.{rule_line};
ghost use Rattle.aspif_place.specs.Code.{row_places};
ghost use Rattle.aspif_rule.specs.Code.{Long};
ghost use Rattle.aspif_names.specs.Code.{both_ways, pair_start, pair_at, pair_lines};

use aspif_number::place::ROW_PLACES;
use aspif_rule::fields::{measure_field, write_field};
use aspif_rule::numbering::Numbering;
use aspif_rule::word::put_end;

// The length of the line of a constraint: beside its two numbers it has the same ten bytes in every line.
fn measure_pair(n: u32, m: u32) -> usize
    ensures { Long result (rule_line (never_both n m)) 32 }
{
    10 + measure_field(n) + measure_field(m)
}

// `1 0 0 0 2`: a rule with no head and two numbers in its body.
fn write_start(out: &mut [u8], to: usize)
    requires { to + 9 ≤ length out.old }
    ensures { out.new ≡ write out.old to pair_start }
{
    out[to..to + 9].copy_from_slice(b"1 0 0 0 2");
}

// The line of a constraint: its start and the two numbers; where it ends.
fn write_pair(n: u32, m: u32, out: &mut [u8], to: usize) -> usize
    requires { to + length (rule_line (never_both n m)) ≤ length out.old }
    ensures { Wrote out.old out.new to (rule_line (never_both n m)) result }
{
    write_start(out, to);
    let first = write_field(false, n, out, to + 9);
    let second = write_field(false, m, out, first);
    put_end(out, second)
}

// Whether an atom is marked both ways.
fn is_pair(numbering: &Numbering, a: usize) -> bool
    requires { a < row_places }
    ensures { result ≡ both_ways numbering.now a }
{
    numbering.is_marked(a) && numbering.is_marked(ROW_PLACES + a)
}

// What the place of an atom has of constraints, measured.
fn measure_pair_at(numbering: &Numbering, a: usize) -> usize
    requires { a < row_places }
    ensures { Long result (pair_at numbering.now a) 32 }
{
    if is_pair(numbering, a) {
        return measure_pair(numbering.number_at(a), numbering.number_at(ROW_PLACES + a));
    }
    0
}

// What the place of an atom has of constraints, written; where it ends.
fn write_pair_at(numbering: &Numbering, a: usize, out: &mut [u8], to: usize) -> usize
    requires a_lt_row_places { a < row_places }
    requires a_in_bounds { to + length (pair_at numbering.now a) ≤ length out.old }
    ensures { Wrote out.old out.new to (pair_at numbering.now a) result }
{
    if is_pair(numbering, a) {
        let n = numbering.number_at(a);
        let m = numbering.number_at(ROW_PLACES + a);
        return write_pair(n, m, out, to);
    }
    to
}

// The length of the lines of all constraints. Its loop and that of names are the same but for what a place has: one loop, handed that as a
// closure with its contract, would be longer than both.
pub fn measure_pairs(numbering: &Numbering) -> usize
    ensures { Long result (pair_lines numbering.now) (32 * row_places) }
{
    let mut total: usize = 0;
    for a in 0..ROW_PLACES {
        total += measure_pair_at(numbering, a);
    }
    total
}

// The lines of all constraints, by ascending atoms; where they end.
pub fn write_pairs(numbering: &Numbering, out: &mut [u8], to: usize) -> usize
    requires { to + length (pair_lines numbering.now) ≤ length out.old }
    ensures { Wrote out.old out.new to (pair_lines numbering.now) result }
{
    let mut next = to;
    for a in 0..ROW_PLACES {
        next = write_pair_at(numbering, a, out, next);
    }
    next
}
