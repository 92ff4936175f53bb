// A literal put into a lent slice.

ghost use Rattle.std.specs.Prelude.{◌+◌, ◌≤◌, ◌≡◌, length};
ghost use Rattle.buffer.specs.Write.{write};
ghost use Rattle.literal.specs.Literal.{encoded};

use crate::field::fields_of;
use buffer::put::{put_byte, put_number};
use literal::Literal;

// The literal's five bytes, put at a place.
pub fn encode(l: Literal, out: &mut [u8], at: usize)
    requires { at + 5 ≤ length out.old }
    ensures { out.new ≡ write out.old at (encoded l) }
{
    let f = fields_of(l);
    put_byte(out, at, f.kind);
    put_number(out, at + 1, f.tag.0);
    put_number(out, at + 3, f.number);
}
