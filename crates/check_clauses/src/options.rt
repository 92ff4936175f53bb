// The positions of the options that a set leaves of a defeasible rule, whose record stands at the start of a slice.

ghost use Rattle.std.specs.Prelude.{◌+◌, ◌*◌, ◌≤◌, ◌≡◌, length};
ghost use Rattle.quotient_rule.specs.Code.{left_at};
ghost use Rattle.check_clauses.specs.Code.{left_of};

use crate::Left;
use crate::masks::Positions;
use literal::Literal;
use quotient_rule::options::is_defeated;
use record_walk::options::option_at;

// The options of the record that are left, if any is.
pub fn mask_options(t: &[u8], heads: usize, set: Positions) -> Option<Left>
    requires { 7 + 5 * heads ≤ length t.now }
    ensures { result ≡ left_of set.entry.set.bytes.now set.entry.set.count (left_at t.now set.entry.set.bytes.now set.entry.set.count 7 heads) }
{
    let mut count: usize = 0;
    let mut mask: u64 = 0;
    for i in 0..heads {
        let at = 7 + 5 * i;
        if !is_defeated(t, at, set.set) {
            let option = option_at(t, at);
            mask |= set.mask_literal(Literal::Signed(option));
            count += 1;
        }
    }
    if count == 0 {
        return None;
    }
    Some(Left { count, mask })
}
