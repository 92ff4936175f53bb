// The end of a check: a set without a clash in which each rule holds has a smaller model, or is an answer set.

ghost use Rattle.std.specs.Prelude.{◌+◌, ◌*◌, ◌≤◌, length};
ghost use Rattle.check_set.specs.Code.{Decided};

use crate::Verdict;
use check_force::Clause;
use check_search::find::find_smaller;
use check_witness::witness::write_picked;
use mask::all_below;

// Seeks the first smaller model of the set's `n` literals over the clauses, and writes it to the start of `out`.
pub fn decide(set: &[u8], n: usize, clauses: &[Clause], out: &mut [u8]) -> Verdict
    requires set_in_bounds { 4 + 5 * n ≤ length set.now }
    requires out_in_bounds { 4 + 5 * n ≤ length out.old }
    requires few { n ≤ 64 }
    ensures { Decided set.now n clauses.now out.old result out.new }
{
    match find_smaller(clauses, all_below(n as u32)) {
        None => Verdict::Yes,
        Some(model) => Verdict::Smaller(write_picked(set, n, model, out)),
    }
}
