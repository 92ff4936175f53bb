// The first literal of a set whose opposite is in the set.

ghost use Rattle.std.specs.Prelude.{◌≤◌, ◌≡◌, length};
ghost use Rattle.literal.specs.Literal.{opposite};
ghost use Rattle.check_clash.specs.Code.{opposed_in, clash_at};

use literal::{Literal, SignedAtom};
use literal_decode::sign::sign;
use literal_fields::field::get_atom;
use literal_fields::order::key_of;
use set::members::Members;

// The atom with the other sign.
fn oppose(a: SignedAtom) -> SignedAtom
    ensures { result ≡ opposite a }
{
    match a {
        SignedAtom::Positive(p) => SignedAtom::Negative(p),
        SignedAtom::Negative(p) => SignedAtom::Positive(p),
    }
}

// Whether the opposite of the literal at the start of `t` is in the set. Kinds 0 and 1 are each other's opposite, marks
// have none.
fn is_opposed(set: Members, t: &[u8]) -> bool
    requires { 5 ≤ length t.now }
    ensures { result ≡ opposed_in set.entry.bytes.now set.entry.count t.now }
{
    let kind = t[0];
    if 1 < kind {
        return false;
    }
    let atom = sign(kind, get_atom(t, 3));
    let opposite = Literal::Signed(oppose(atom));
    set.has_key(key_of(opposite))
}

// The position, from 1, of the first of the set's literals whose opposite is in the set.
pub fn find_clash(set: Members) -> Option<usize>
    ensures { result ≡ clash_at set.entry.bytes.now set.entry.count 1 4 set.entry.count }
{
    for i in 0..set.count {
        if is_opposed(set, &set.bytes[4 + 5 * i..]) {
            return Some(1 + i);
        }
    }
    None
}
