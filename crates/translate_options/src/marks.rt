// The options in a rule's record, and their marks, written into a lent slice. Each mark's tag and atom are taken from the
// record anew, so that they are copied and not kept: the compiler then moves two bytes at a time.

ghost use Rattle.std.specs.Prelude.{◌+◌, ◌*◌, ◌≤◌, ◌≡◌, map, length};
ghost use Rattle.buffer.specs.Write.{write};
ghost use Rattle.literal.specs.declared.Literal.TheVariants.{Signed};
ghost use Rattle.literal.specs.Literal.{encoded};
ghost use Rattle.record.specs.Layout.{encoded_literals};
ghost use Rattle.record_walk.specs.Code.{tag_at, option_at, options_at};
ghost use Rattle.translate_options.specs.Code.{mark_of};

use literal::{Literal, SignedAtom, Tag};
use literal_fields::encode::encode;
use record_walk::options::{option_at, tag_at};

// The derivation mark of an option, or its defeat mark. A flag, as in the definition: two functions or a closure would have to say twice
// where the mark goes.
fn mark_option(derived: bool, tag: Tag, option: SignedAtom) -> Literal
    ensures { result ≡ mark_of derived tag option }
{
    if derived {
        Literal::Derived(tag, option)
    } else {
        Literal::Defeated(tag, option)
    }
}

// An option itself.
pub fn write_option(s: &[u8], at: usize, out: &mut [u8], to: usize)
    requires at_in_bounds { at + 5 ≤ length s.now }
    requires to_in_bounds { to + 5 ≤ length out.old }
    ensures { out.new ≡ write out.old to (encoded (Signed (option_at s.now at))) }
{
    let option = option_at(s, at);
    encode(Literal::Signed(option), out, to);
}

// An option's mark.
pub fn write_mark(derived: bool, s: &[u8], at: usize, out: &mut [u8], to: usize)
    requires at_in_bounds { at + 5 ≤ length s.now }
    requires to_in_bounds { to + 5 ≤ length out.old }
    ensures { out.new ≡ write out.old to (encoded (mark_of derived (tag_at s.now) (option_at s.now at))) }
{
    let tag = tag_at(s);
    let option = option_at(s, at);
    let mark = mark_option(derived, tag, option);
    encode(mark, out, to);
}

// The marks of a record's options.
pub fn write_marks(derived: bool, s: &[u8], heads: usize, out: &mut [u8], to: usize)
    requires heads_in_bounds { 7 + 5 * heads ≤ length s.now }
    requires heads_in_bounds_2 { to + 5 * heads ≤ length out.old }
    ensures { out.new ≡ write out.old to (encoded_literals (map (mark_of derived (tag_at s.now)) (options_at s.now 7 heads))) }
{
    for i in 0..heads {
        write_mark(derived, s, 7 + 5 * i, out, to + 5 * i);
    }
}
