// The clause of one rule, whose record stands at the start of a slice.

ghost use Rattle.std.specs.Prelude.{◌≤◌, ◌≡◌, length};
ghost use Rattle.record_walk.specs.Code.{record_size};
ghost use Rattle.check_clauses.specs.Code.{clause_with, clause_at};

use crate::masks::Positions;
use crate::options::mask_options;
use check_force::Clause;
use quotient_rule::remainder::is_removed;

// The clause with this body and the rule's head: of a defeasible rule the options that are left, if there are any.
fn clause_with(t: &[u8], body: u64, set: Positions) -> Option<Clause>
    requires { record_size t.now ≤ length t.now }
    ensures { result ≡ clause_with t.now body set.entry.set.bytes.now set.entry.set.count }
{
    let heads = t[4] as usize;
    if t[0] != b'D' {
        let head = set.mask_heads(heads, t, 7);
        return Some(Clause { body, head });
    }
    let left = mask_options(t, heads, set)?;
    Some(Clause {
        body,
        head: left.mask,
    })
}

// The clause of what the set leaves of the rule, if it leaves anything and each positive literal is in the set. Without one, every
// part of the set meets the rule.
pub fn clause_of(t: &[u8], set: Positions) -> Option<Clause>
    requires { record_size t.now ≤ length t.now }
    ensures { result ≡ clause_at t.now set.entry.set.bytes.now set.entry.set.count }
{
    if is_removed(t, set.set) {
        return None;
    }
    let heads = t[4] as usize;
    let positives = t[5] as usize;
    let body = set.mask_positives(positives, t, 7 + 5 * heads)?;
    clause_with(t, body, set)
}
