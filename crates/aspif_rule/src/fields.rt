// Fields of a line: a number with a blank before it, and the numbers of literals in a row.

ghost use Rattle.std.specs.Prelude.{◌+◌, ◌*◌, ◌≤◌, false, length};
ghost use Rattle.buffer.specs.Write.{Wrote, Begun};
ghost use Rattle.aspif_text.specs.Text.{field, fields};
ghost use Rattle.aspif_place.specs.Code.{words};
ghost use Rattle.aspif_number.specs.Code.{Room, places_at};
ghost use Rattle.aspif_rule.specs.Code.{numbers_at, Long};

use crate::numbering::Numbering;
use aspif_number::place::place_at;
use buffer::put::{put_byte, put_eight};
use decimal::decimal::{count_figures, write_decimal};
use decimal::table::Table;

// The length of a field.
pub fn measure_field(n: u32) -> usize
    ensures { Long result (field false n) 11 }
{
    1 + count_figures(n)
}

// A field, negative under naf; where it ends. The flag is the field's sign.
pub fn write_field(naf: bool, n: u32, out: &mut [u8], at: usize) -> usize
    requires { at + length (field naf n) ≤ length out.old }
    ensures { Wrote out.old out.new at (field naf n) result }
{
    put_byte(out, at, b' ');
    if naf {
        put_byte(out, at + 1, b'-');
        return write_decimal(n, out, at + 2);
    }
    write_decimal(n, out, at + 1)
}

// A field, negative under naf, at the end of a text that is being made; where it ends. What stands behind that text does not matter: so
// eight bytes are stored, whatever the field's length, and no branch asks for it.
pub fn put_field(naf: bool, n: u32, table: Table, text: &mut [u8], at: usize) -> usize
    requires { at + 12 ≤ length text.old }
    ensures begun { Begun text.old text.new at (field naf n) result }
    ensures upper_bound { result ≤ at + 12 }
{
    if n >= 1000000 {
        return write_field(naf, n, text, at);
    }
    let packed = table.pack_decimal(n);
    let figures = packed % 72057594037927936;
    let many = (packed / 72057594037927936) as usize;
    if naf {
        put_eight(text, at, figures * 65536 + 0x2d20);
        return at + 2 + many;
    }
    put_eight(text, at, figures * 256 + 0x20);
    at + 1 + many
}

// The length of the fields of `count` literals that stand one behind the other from `from` on.
pub fn measure_run(s: &[u8], from: usize, count: usize, numbering: &Numbering) -> usize
    requires count_in_bounds { from + 5 * count ≤ length s.now }
    requires count_bound { count ≤ 765 }
    requires room { Room words (places_at s.now from count) }
    ensures { Long result (fields false (numbers_at numbering.now s.now from count)) (11 * count) }
{
    let mut total: usize = 0;
    for i in 0..count {
        total += measure_field(numbering.number_at(place_at(s, from + 5 * i)));
    }
    total
}
