// What one rule becomes: its record stands at the start of a slice, and the records of its translation are written.

ghost use Rattle.std.specs.Prelude.{◌+◌, ◌*◌, ◌≤◌, ◌<◌, ◌≡◌, List, length};
ghost use Rattle.buffer.specs.Write.{write};
ghost use Rattle.literal.specs.declared.Tag.{Tag};
ghost use Rattle.literal.specs.declared.SignedAtom.{SignedAtom};
ghost use Rattle.literal.specs.declared.Literal.{Literal};
ghost use Rattle.semantics.specs.Rule.{Rule, strict, defeasible};
ghost use Rattle.semantics.specs.Translation.{choice, all_defeated, translated_rule};
ghost use Rattle.record.specs.Header.{head_count, positive_count, naf_count};
ghost use Rattle.record.specs.Layout.{encoded_rule, encoded_rules};
ghost use Rattle.record_walk.specs.Code.{record_size, Starts, tag_at, options_at};
ghost use Rattle.translate_rule.specs.Code.{length_at, count_at};

use literal::{Literal, RuleNo};
use literal_fields::encode::encode;
use record_write::copy::copy;
use record_write::records::write_header;
use translate_options::marks::write_marks;
use translate_options::options::write_options;

// The length of the rule's translation.
pub fn measure_rule(s: &[u8]) -> usize
    requires { 7 ≤ length s.now }
    ensures { result ≡ length_at s.now }
{
    let heads = s[4] as usize;
    let positives = s[5] as usize;
    let nafs = s[6] as usize;
    if s[0] == b'D' {
        66 * heads + 5 * (positives + nafs) + 24
    } else {
        7 + 5 * (heads + positives + nafs)
    }
}

// The number of rules that it becomes.
pub fn count_rules(s: &[u8]) -> usize
    requires { 7 ≤ length s.now }
    ensures { result ≡ count_at s.now }
{
    let heads = s[4] as usize;
    if s[0] == b'D' { 3 * heads + 2 } else { 1 }
}

// (2): the derivation marks, if the body holds and naf rule-defeated n.
fn write_choice(n: RuleNo, s: &[u8], out: &mut [u8], to: usize)
    requires s_in_bounds { record_size s.now ≤ length s.now }
    requires s_bound { naf_count s.now < 255 }
    requires s_in_bounds_2 { to + record_size s.now + 5 ≤ length out.old }
    ensures { (t : Tag) (h : List SignedAtom) (b c : List Literal) → Starts s.now (defeasible t h b c) → out.new ≡ write out.old to (encoded_rule (choice n.0 t h b c)) }
{
    let heads = s[4];
    let positives = s[5];
    let nafs = s[6];
    let marks = 5 * heads as usize;
    let body = 5 * (positives as usize + nafs as usize);
    write_header(heads, positives, nafs + 1, out, to);
    write_marks(true, s, heads as usize, out, to + 7);
    copy(s, 7 + marks, body, out, to + 7 + marks);
    encode(Literal::RuleDefeated(n), out, to + 7 + marks + body);
}

// (3): rule-defeated n, if each option is defeated.
fn write_all_defeated(n: RuleNo, s: &[u8], out: &mut [u8], to: usize)
    requires s_in_bounds { record_size s.now ≤ length s.now }
    requires s_in_bounds_2 { to + 12 + 5 * head_count s.now ≤ length out.old }
    ensures { out.new ≡ write out.old to (encoded_rule (all_defeated n.0 (tag_at s.now) (options_at s.now 7 (head_count s.now)))) }
{
    let heads = s[4];
    write_header(1, heads, 0, out, to);
    encode(Literal::RuleDefeated(n), out, to + 7);
    write_marks(false, s, heads as usize, out, to + 12);
}

// (2) to (6) of the defeasible rule number n.
fn write_defeasible(n: RuleNo, s: &[u8], out: &mut [u8], to: usize)
    requires s_in_bounds { record_size s.now ≤ length s.now }
    requires s_bound { naf_count s.now < 255 }
    requires s_in_bounds_2 { to + (66 * head_count s.now + 5 * (positive_count s.now + naf_count s.now) + 24) ≤ length out.old }
    ensures { (t : Tag) (h : List SignedAtom) (b c : List Literal) → Starts s.now (defeasible t h b c) → out.new ≡ write out.old to (encoded_rules (translated_rule n.0 (defeasible t h b c))) }
{
    let heads = s[4] as usize;
    let positives = s[5] as usize;
    let nafs = s[6] as usize;
    let second = to + 12 + 5 * (heads + positives + nafs);
    let third = second + 12 + 5 * heads;
    write_choice(n, s, out, to);
    write_all_defeated(n, s, out, second);
    write_options(s, heads, out, third);
}

// A strict rule's record: only its literals are copied.
fn write_strict(s: &[u8], out: &mut [u8], to: usize)
    requires s_in_bounds { record_size s.now ≤ length s.now }
    requires s_in_bounds_2 { to + record_size s.now ≤ length out.old }
    ensures { (h b c : List Literal) → Starts s.now (strict h b c) → out.new ≡ write out.old to (encoded_rule (strict h b c)) }
{
    let heads = s[4];
    let positives = s[5];
    let nafs = s[6];
    let literals = 5 * (heads as usize + positives as usize + nafs as usize);
    write_header(heads, positives, nafs, out, to);
    copy(s, 7, literals, out, to + 7);
}

// What the rule number n becomes.
pub fn write_rule(n: RuleNo, s: &[u8], out: &mut [u8], to: usize)
    requires s_in_bounds { record_size s.now ≤ length s.now }
    requires s_bound { naf_count s.now < 255 }
    requires s_in_bounds_2 { to + length_at s.now ≤ length out.old }
    ensures { (r : Rule) → Starts s.now r → out.new ≡ write out.old to (encoded_rules (translated_rule n.0 r)) }
{
    if s[0] == b'D' {
        write_defeasible(n, s, out, to);
    } else {
        write_strict(s, out, to);
    }
}
