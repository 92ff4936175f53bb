// Whether five bytes are a literal of a form.

ghost use Rattle.std.specs.Prelude.{◌≤◌, ◌≡◌, length};
ghost use Rattle.literal.specs.Literal.{decoded};
ghost use Rattle.literal.specs.Code.{is_valid};

use crate::kind::decode_kind;
use crate::range::are_in_ranges;
use literal::Limits;
use literal_fields::field::fields_at;

// Whether the first five bytes of `s` spell a literal of the form; none is made.
pub fn is_literal(lim: Limits, s: &[u8]) -> bool
    requires { 5 ≤ length s.now }
    ensures { result ≡ is_valid (decoded lim s.now) }
{
    let f = fields_at(s);
    let ranges = decode_kind(lim, f.kind);
    let tag = f.tag;
    are_in_ranges(ranges, tag, f.number)
}
