// Rules (4), (5) and (6) of the translation, for each option of a defeasible rule.

ghost use Rattle.std.specs.Prelude.{◌+◌, ◌*◌, ◌≤◌, ◌≡◌, length};
ghost use Rattle.buffer.specs.Write.{write};
ghost use Rattle.semantics.specs.Translation.{holds_if_derived, derived_if_holds, never_both, option, options};
ghost use Rattle.record.specs.Layout.{encoded_rule, encoded_rules};
ghost use Rattle.record_walk.specs.Code.{tag_at, option_at, options_at};

use crate::marks::{write_mark, write_option};
use record_write::records::write_header;

// (4): the option, if it is derived.
fn write_holds(s: &[u8], at: usize, out: &mut [u8], to: usize)
    requires at_in_bounds { at + 5 ≤ length s.now }
    requires to_in_bounds { to + 17 ≤ length out.old }
    ensures { out.new ≡ write out.old to (encoded_rule (holds_if_derived (tag_at s.now) (option_at s.now at))) }
{
    write_header(1, 1, 0, out, to);
    write_option(s, at, out, to + 7);
    write_mark(true, s, at, out, to + 12);
}

// (5): derived, if the option holds and naf defeated.
fn write_derived(s: &[u8], at: usize, out: &mut [u8], to: usize)
    requires at_in_bounds { at + 5 ≤ length s.now }
    requires to_in_bounds { to + 22 ≤ length out.old }
    ensures { out.new ≡ write out.old to (encoded_rule (derived_if_holds (tag_at s.now) (option_at s.now at))) }
{
    write_header(1, 1, 1, out, to);
    write_mark(true, s, at, out, to + 7);
    write_option(s, at, out, to + 12);
    write_mark(false, s, at, out, to + 17);
}

// (6): never both derived and defeated.
fn write_never_both(s: &[u8], at: usize, out: &mut [u8], to: usize)
    requires at_in_bounds { at + 5 ≤ length s.now }
    requires to_in_bounds { to + 17 ≤ length out.old }
    ensures { out.new ≡ write out.old to (encoded_rule (never_both (tag_at s.now) (option_at s.now at))) }
{
    let derived = to + 7;
    let defeated = to + 12;
    write_header(0, 2, 0, out, to);
    write_mark(true, s, at, out, derived);
    write_mark(false, s, at, out, defeated);
}

// (4), (5) and (6) of one option.
fn write_three(s: &[u8], at: usize, out: &mut [u8], to: usize)
    requires at_in_bounds { at + 5 ≤ length s.now }
    requires to_in_bounds { to + 56 ≤ length out.old }
    ensures { out.new ≡ write out.old to (encoded_rules (option (tag_at s.now) (option_at s.now at))) }
{
    write_holds(s, at, out, to);
    write_derived(s, at, out, to + 17);
    write_never_both(s, at, out, to + 39);
}

// (4), (5) and (6) of each option of a record.
pub fn write_options(s: &[u8], heads: usize, out: &mut [u8], to: usize)
    requires heads_in_bounds { 7 + 5 * heads ≤ length s.now }
    requires heads_in_bounds_2 { to + 56 * heads ≤ length out.old }
    ensures { out.new ≡ write out.old to (encoded_rules (options (tag_at s.now) (options_at s.now 7 heads))) }
{
    for i in 0..heads {
        write_three(s, 7 + 5 * i, out, to + 56 * i);
    }
}
