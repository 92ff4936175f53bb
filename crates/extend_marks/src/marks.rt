// The marks that a file's rules add to a set, as keys in a lent slice, in rule order.

ghost use Rattle.std.specs.Prelude.{◌+◌, ◌*◌, ◌≤◌, ◌<◌, ◌≡◌, ◌&&◌, not, [], ◌∷◌, map, length};
ghost use Rattle.literal.specs.Order.{key};
ghost use Rattle.semantics.specs.Set.{each_of};
ghost use Rattle.semantics.specs.Rule.{Rule};
ghost use Rattle.semantics.specs.Item.{rules};
ghost use Rattle.record.specs.Header.{head_count};
ghost use Rattle.record_walk.specs.Code.{HoldsFile, record_size, tag_at, options_at, Starts};
ghost use Rattle.set.specs.Code.{key_set};
ghost use Rattle.extend_marks.specs.Marks.{derived_marks, rule_marks, marks_from};
ghost use Rattle.extend_marks.specs.Code.{Gained, MarkableFile, Roomy};

use literal::{Literal, RuleNo, SignedAtom, Tag};
use literal_fields::order::key_of;
use record_walk::options::{option_at, tag_at};
use record_walk::records::Records;
use set::members::Members;

// Whether the option is in the set and not defeated there.
fn is_derived(set: Members, t: Tag, a: SignedAtom) -> bool
    ensures { result ≡ (key_set set.entry.bytes.now set.entry.count (Literal.Signed a) && not (key_set set.entry.bytes.now set.entry.count (Literal.Defeated t a))) }
{
    set.has(Literal::Signed(a)) && !set.has(Literal::Defeated(t, a))
}

// The option's derivation mark, if it is derived. Its key is put behind those that stand, and only counted where it is due: the caller's
// memory and a count, no vector.
fn add_derived(set: Members, t: Tag, a: SignedAtom, keys: &mut [u64], n: usize) -> usize
    requires { n < length keys.old }
    ensures { Gained keys.old keys.new n result (map key (derived_marks t (a ∷ []) (key_set set.entry.bytes.now set.entry.count))) }
{
    keys[n] = key_of(Literal::Derived(t, a));
    is_derived(set, t, a) as usize
}

// The derivation marks of the options in a rule's record.
fn add_options(set: Members, part: &[u8], keys: &mut [u64], n: usize) -> usize
    requires part_in_bounds { record_size part.now ≤ length part.now }
    requires part_in_bounds_2 { n + head_count part.now ≤ length keys.old }
    ensures { Gained keys.old keys.new n result (map key (derived_marks (tag_at part.now) (options_at part.now 7 (head_count part.now)) (key_set set.entry.bytes.now set.entry.count))) }
{
    let t = tag_at(part);
    let mut added: usize = 0;
    for i in 0..part[4] as usize {
        let a = option_at(part, 7 + 5 * i);
        let next = n + added;
        added += add_derived(set, t, a, keys, next);
    }
    added
}

// Whether all options in a rule's record are defeated.
fn is_defeated(set: Members, part: &[u8]) -> bool
    requires { record_size part.now ≤ length part.now }
    ensures { result ≡ each_of (λ a. key_set set.entry.bytes.now set.entry.count (Literal.Defeated (tag_at part.now) a)) (options_at part.now 7 (head_count part.now)) }
{
    let t = tag_at(part);
    for i in 0..part[4] as usize {
        let a = option_at(part, 7 + 5 * i);
        if !set.has(Literal::Defeated(t, a)) {
            return false;
        }
    }
    true
}

// The marks of the rule whose record starts the part. Where all its options are defeated, none is derived.
fn add_rule(set: Members, number: RuleNo, part: &[u8], keys: &mut [u64], n: usize) -> usize
    requires part_in_bounds { record_size part.now ≤ length part.now }
    requires roomy { Roomy part.now n (length keys.old) }
    ensures { (x : Rule) → Starts part.now x → Gained keys.old keys.new n result (map key (rule_marks number.0 x (key_set set.entry.bytes.now set.entry.count))) }
{
    if part[0] != b'D' {
        return 0;
    }
    if is_defeated(set, part) {
        keys[n] = key_of(Literal::RuleDefeated(number));
        return 1;
    }
    add_options(set, part, keys, n)
}

// The marks of a file's rules; how many there are, with those that two rules add. Sheet records are stepped over: the rules that they
// append are strict, and a strict rule adds no mark.
pub fn collect_marks(s: &[u8], set: Members, keys: &mut [u64]) -> usize
    requires { HoldsFile (MarkableFile (length keys.old)) s.now }
    ensures { (w : HoldsFile (MarkableFile (length keys.old)) s.now) → Gained keys.old keys.new 0 result (map key (marks_from 1 (rules w.items) (key_set set.entry.bytes.now set.entry.count))) }
{
    let mut number: u16 = 1;
    let mut n: usize = 0;
    for part in Records::new(s) {
        let letter = part[0];
        if letter != b'O' && letter != b'X' {
            n += add_rule(set, RuleNo(number), part, keys, n);
            number += 1;
        }
    }
    n
}
