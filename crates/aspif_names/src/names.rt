// The lines of names: of each atom that is marked, or of each negation.

ghost use Rattle.std.specs.Prelude.{◌+◌, ◌*◌, ◌≤◌, ◌<◌, ◌≡◌, length};
ghost use Rattle.buffer.specs.Write.{Wrote};
ghost use Rattle.aspif_place.specs.Code.{row_places};
ghost use Rattle.aspif_rule.specs.Code.{Long};
ghost use Rattle.aspif_names.specs.Code.{letter_of, row_from, name_line, name_at, name_lines};

use aspif_number::place::ROW_PLACES;
use aspif_rule::fields::{measure_field, write_field};
use aspif_rule::numbering::Numbering;
use aspif_rule::word::{put_end, put_word};
use buffer::put::put_byte;
use decimal::decimal::{count_figures, write_decimal};

// The letter of atoms, and of negations. Which it is stays a bool, as the definitions have it: an enum would only be mapped to one.
fn pick_letter(negated: bool) -> u8
    ensures { result ≡ letter_of negated }
{
    if negated {
        return b'n';
    }
    b'p'
}

// Where the places of atoms start, and those of negations.
fn pick_row(negated: bool) -> usize
    ensures value { result ≡ row_from negated }
    ensures upper_bound { result ≤ row_places }
{
    if negated {
        return ROW_PLACES;
    }
    0
}

// The length of the line of a name: beside its two numbers it has the same eight bytes in every line.
fn measure_name(negated: bool, a: u32, n: u32) -> usize
    requires { a < row_places }
    ensures { Long result (name_line negated a n) 32 }
{
    8 + count_figures(a) + measure_field(n)
}

// The line of a name: `4`, the name's length, which is one figure, the name, `1` and the number; where it ends.
fn write_name(negated: bool, a: u32, n: u32, out: &mut [u8], to: usize) -> usize
    requires a_lt_row_places { a < row_places }
    requires n_in_bounds { to + length (name_line negated a n) ≤ length out.old }
    ensures { Wrote out.old out.new to (name_line negated a n) result }
{
    let long = 1 + count_figures(a);
    put_byte(out, to, b'4');
    let letter = put_word(out, to + 1, b'0' + long as u8);
    let atom = put_word(out, letter, pick_letter(negated));
    let count = write_decimal(a, out, atom);
    let number = put_word(out, count, b'1');
    let end = write_field(false, n, out, number);
    put_end(out, end)
}

// What the place of an atom, or of its negation, has of names, measured.
fn measure_name_at(numbering: &Numbering, negated: bool, a: u32) -> usize
    requires { a < row_places }
    ensures { Long result (name_at numbering.now negated a) 32 }
{
    let place = pick_row(negated) + a as usize;
    if numbering.is_marked(place) {
        return measure_name(negated, a, numbering.number_at(place));
    }
    0
}

// What the place of an atom, or of its negation, has of names, written; where it ends.
fn write_name_at(numbering: &Numbering, negated: bool, a: u32, out: &mut [u8], to: usize) -> usize
    requires a_lt_row_places { a < row_places }
    requires a_in_bounds { to + length (name_at numbering.now negated a) ≤ length out.old }
    ensures { Wrote out.old out.new to (name_at numbering.now negated a) result }
{
    let place = pick_row(negated) + a as usize;
    if numbering.is_marked(place) {
        return write_name(negated, a, numbering.number_at(place), out, to);
    }
    to
}

// The length of the lines of the names of all atoms, or of all negations.
pub fn measure_names(numbering: &Numbering, negated: bool) -> usize
    ensures { Long result (name_lines numbering.now negated) (32 * row_places) }
{
    let mut total: usize = 0;
    for a in 0..ROW_PLACES {
        total += measure_name_at(numbering, negated, a as u32);
    }
    total
}

// The lines of those names, by ascending atoms; where they end.
pub fn write_names(numbering: &Numbering, negated: bool, out: &mut [u8], to: usize) -> usize
    requires { to + length (name_lines numbering.now negated) ≤ length out.old }
    ensures { Wrote out.old out.new to (name_lines numbering.now negated) result }
{
    let mut next = to;
    for a in 0..ROW_PLACES {
        next = write_name_at(numbering, negated, a as u32, out, next);
    }
    next
}
