// Which open literal the search tries.

ghost use Rattle.std.specs.Prelude.{◌<◌};
ghost use Rattle.std.specs.Int.Bits.{bit_xor};
ghost use Rattle.mask.specs.Code.{Position};

use crate::Tally;
use crate::count::{add, most};
use check_force::{Bounds, Clause};
use mask::{highest, without_lowest};

// An open literal: one that stands most often in clauses with two open literals, and of those one that stands most often in
// longer ones. So clauses become short soon, and a dead end shows early; any open literal would do.
pub fn pick(clauses: &[Clause], now: Bounds) -> u64
    requires { 0 < bit_xor now.may now.must }
    ensures { Position (bit_xor now.may now.must) result }
{
    let mut pairs = Tally::default();
    let mut longer = Tally::default();
    for c in clauses {
        if (c.body ^ (c.body & now.may)) | (c.head & now.must) == 0 {
            let open = (c.body ^ (c.body & now.must)) | (c.head & now.may);
            let pair = if without_lowest(without_lowest(open)) == 0 {
                open
            } else {
                0
            };
            pairs = add(pairs, pair);
            longer = add(longer, open ^ pair);
        }
    }
    highest(most(longer, most(pairs, now.may ^ now.must)))
}
