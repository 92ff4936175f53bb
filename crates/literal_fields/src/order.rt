// The order of literals, that of their five bytes: each is one number.

ghost use Rattle.std.specs.Prelude.{◌≤◌, ◌≡◌, length};
ghost use Rattle.literal.specs.Order.{key, key_of};
ghost use Rattle.literal.specs.Code.{key_at};

use crate::field::fields_of;
use literal::{Fields, Literal};

// Three fields as one number.
fn make_key(f: Fields) -> u64
    ensures { result ≡ key_of f.kind f.tag.0 f.number }
{
    let tag = f.tag.0;
    (f.kind as u64 * 65536 + tag as u64) * 65536 + f.number as u64
}

// The literal's key.
pub fn key_of(l: Literal) -> u64
    ensures { result ≡ key l }
{
    make_key(fields_of(l))
}

// The first five bytes as one number.
pub fn key_at(s: &[u8]) -> u64
    requires { 5 ≤ length s.now }
    ensures { result ≡ key_at s.now }
{
    u64::from_be_bytes([0, 0, 0, s[0], s[1], s[2], s[3], s[4]])
}
