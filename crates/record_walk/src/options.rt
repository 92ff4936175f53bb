// The tag and the options in a rule's record.

ghost use Rattle.std.specs.Prelude.{◌+◌, ◌≤◌, ◌≡◌, length};
ghost use Rattle.record_walk.specs.Code.{tag_at, option_at};

use literal::{SignedAtom, Tag};
use literal_decode::sign::sign;
use literal_fields::field::{get_atom, get_tag};

// The tag of the record at the slice's start.
pub fn tag_at(s: &[u8]) -> Tag
    requires { 4 ≤ length s.now }
    ensures { result ≡ tag_at s.now }
{
    get_tag(s, 2)
}

// The option whose five bytes start at a place.
pub fn option_at(s: &[u8], at: usize) -> SignedAtom
    requires { at + 5 ≤ length s.now }
    ensures { result ≡ option_at s.now at }
{
    sign(s[at], get_atom(s, at + 3))
}
