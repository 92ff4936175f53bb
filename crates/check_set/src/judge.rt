// The verdict on a set that was read: clash, broken and smaller, tried in this order.

ghost use Rattle.std.specs.Prelude.{length};
ghost use Rattle.check_set.specs.Code.{Judgeable, Judged};

use crate::Verdict;
use crate::decide::decide;
use check_clash::clash::find_clash;
use check_clauses::build::build;
use check_clauses::masks::Positions;
use check_force::Clause;
use set::members::Members;

// Judges the set with `n` literals in `k` against the program in `s`. The clauses go to `clauses`; a smaller model is written to the
// start of `out`.
pub fn judge(s: &[u8], k: &[u8], n: usize, clauses: &mut [Clause], out: &mut [u8]) -> Verdict
    requires { Judgeable s.now k.now n (length clauses.old) (length out.old) }
    ensures { Judged s.now k.now out.old result out.new }
{
    let set = Members { bytes: k, count: n };
    if let Some(position) = find_clash(set) {
        return Verdict::Clash(position);
    }
    match build(s, Positions { set }, clauses) {
        Err(number) => Verdict::Broken(number),
        Ok(count) => decide(k, n, &clauses[..count], out),
    }
}
