// A literal's three fields: kind, tag, and atom or rule number; taken from the literal, and from five bytes.

ghost use Rattle.std.specs.Prelude.{◌+◌, ◌≤◌, ◌≡◌, length};
ghost use Rattle.buffer.specs.Bytes.{number_at};
ghost use Rattle.literal.specs.Code.{fields_at, fields_of, signed_fields};

use buffer::get::get_number;
use literal::{Atom, Fields, Literal, SignedAtom, Tag};

// The tag at a place.
pub fn get_tag(s: &[u8], at: usize) -> Tag
    requires { at + 2 ≤ length s.now }
    ensures { result.0 ≡ number_at s.now at }
{
    Tag(get_number(s, at))
}

// The atom at a place.
pub fn get_atom(s: &[u8], at: usize) -> Atom
    requires { at + 2 ≤ length s.now }
    ensures { result.0 ≡ number_at s.now at }
{
    Atom(get_number(s, at))
}

// The fields that the first five bytes spell.
pub fn fields_at(s: &[u8]) -> Fields
    requires { 5 ≤ length s.now }
    ensures { result ≡ fields_at s.now }
{
    let kind = s[0];
    let tag = get_tag(s, 1);
    let number = get_number(s, 3);
    Fields { kind, tag, number }
}

// The fields of a signed atom, or of its mark with a tag: `kind` where it is positive, and the next kind where it is negated.
fn fields_signed(kind: u8, tag: Tag, a: SignedAtom) -> Fields
    requires { kind ≤ 4 }
    ensures { result ≡ signed_fields kind tag a }
{
    match a {
        SignedAtom::Positive(p) => Fields {
            kind,
            tag,
            number: p.0,
        },
        SignedAtom::Negative(p) => Fields {
            kind: kind + 1,
            tag,
            number: p.0,
        },
    }
}

// The literal's fields.
pub fn fields_of(l: Literal) -> Fields
    ensures { result ≡ fields_of l }
{
    match l {
        Literal::Signed(a) => fields_signed(0, Tag(0), a),
        Literal::Defeated(t, a) => fields_signed(2, t, a),
        Literal::Derived(t, a) => fields_signed(4, t, a),
        Literal::RuleDefeated(n) => Fields {
            kind: 6,
            tag: Tag(0),
            number: n.0,
        },
    }
}
