// Building: one pass over a program's records. Each clause is written behind the last.

ghost use Rattle.std.specs.Prelude.{length};
ghost use Rattle.record_walk.specs.Code.{Holds};
ghost use Rattle.check_clauses.specs.Code.{Clausable, Clauses};

use crate::masks::Positions;
use crate::rule::clause_of;
use check_force::Clause;
use literal::RuleNo;
use record_walk::records::Records;

// The clauses of the program's rules over the positions of the set's literals: how many there are, or the first rule that is broken,
// whose clause does not hold in the whole set.
pub fn build(s: &[u8], set: Positions, clauses: &mut [Clause]) -> Result<usize, RuleNo>
    requires { Holds (Clausable (length clauses.old)) s.now }
    ensures { Clauses s.now set.entry.set.bytes.now set.entry.set.count result clauses.new }
{
    let mut count: usize = 0;
    for (i, part) in Records::new(s).enumerate() {
        if let Some(c) = clause_of(part, set) {
            if c.head == 0 {
                return Err(RuleNo(i as u16 + 1));
            }
            clauses[count] = c;
            count += 1;
        }
    }
    Ok(count)
}
