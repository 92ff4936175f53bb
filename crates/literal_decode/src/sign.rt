// The sign that a kind gives an atom.

ghost use Rattle.std.specs.Prelude.{◌≡◌};
ghost use Rattle.literal.specs.Literal.{negated_kind, signed_atom};

use literal::{Atom, SignedAtom};

// Kinds 1, 3 and 5 are those of negated atoms; 6 counts as positive.
fn is_negated(kind: u8) -> bool
    ensures { result ≡ negated_kind kind }
{
    kind % 2 == 1
}

// The atom with the sign of the kind.
pub fn sign(kind: u8, atom: Atom) -> SignedAtom
    ensures { result ≡ signed_atom kind atom.0 }
{
    if is_negated(kind) {
        SignedAtom::Negative(atom)
    } else {
        SignedAtom::Positive(atom)
    }
}
