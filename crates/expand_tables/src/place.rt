// An option's place: twice its atom's number, and one more where it is negated.

ghost use Rattle.std.specs.Prelude.{◌≡◌};
ghost use Rattle.expand_tables.specs.Code.{place_of, option_of};

use literal::{Atom, SignedAtom};

pub fn place_of(a: SignedAtom) -> usize
    ensures { result ≡ place_of a }
{
    match a {
        SignedAtom::Positive(p) => 2 * (p.0 as usize),
        SignedAtom::Negative(p) => 2 * (p.0 as usize) + 1,
    }
}

// The option of a place.
pub fn option_of(k: u16) -> SignedAtom
    ensures { result ≡ option_of k }
{
    if k % 2 == 0 {
        return SignedAtom::Positive(Atom(k / 2));
    }
    SignedAtom::Negative(Atom(k / 2))
}
