// What the clauses force on two bounds.

ghost use Rattle.std.specs.Prelude.{MatchOption};
ghost use Rattle.mask.specs.Code.{Within};
ghost use Rattle.check_force.specs.Code.{Holds, Model, Settled, Quiet, Dead, Narrowed, Propagated};

use crate::{Bounds, Clause};
use mask::without_lowest;

// What one clause forces: its last open head literal, where the body is present; the absence of its last open body
// literal, where no head literal is left. A clause that lacks a body literal or has a head literal forces nothing, and one
// with nothing open leaves no mask.
fn force(c: Clause, now: Bounds) -> Option<Bounds>
    ensures { MatchOption result (Dead (Holds c.body c.head) now.must now.may) (Narrowed (Holds c.body c.head) (Quiet (Holds c.body c.head)) now.must now.may) }
{
    let met = (c.body ^ (c.body & now.may)) | (c.head & now.must);
    let needed = c.body ^ (c.body & now.must);
    let left = c.head & now.may;
    let last = needed | left;
    // One test for both: it goes the same way for nearly every clause.
    if met | without_lowest(last) != 0 {
        return Some(now);
    }
    if last == 0 {
        return None;
    }
    if needed == 0 {
        return Some(Bounds {
            must: now.must | last,
            may: now.may,
        });
    }
    if left == 0 {
        return Some(Bounds {
            must: now.must,
            may: now.may ^ last,
        });
    }
    Some(now)
}

// One sweep over the clauses, each on what the clauses before it left; the first is that not all is present.
fn pass(clauses: &[Clause], whole: u64, was: Bounds) -> Option<Bounds>
    ensures { MatchOption result (Dead (Model whole clauses.now) was.must was.may) (Narrowed (Model whole clauses.now) (Settled whole clauses.now) was.must was.may) }
{
    let proper = Clause {
        body: whole,
        head: 0,
    };
    let mut now = force(proper, was)?;
    for c in clauses {
        now = force(*c, now)?;
    }
    Some(now)
}

// Sweeps until nothing changes, or until nothing is left between the bounds.
pub fn propagate(clauses: &[Clause], whole: u64, start: Bounds) -> Option<Bounds>
    requires { Within start.must start.may }
    ensures { MatchOption result (Dead (Model whole clauses.now) start.must start.may) (Propagated (Model whole clauses.now) (Settled whole clauses.now) start.must start.may) }
{
    let mut was = start;
    // How many sweeps there are nobody knows before.
    loop {
        let next = pass(clauses, whole, was)?;
        if next.must == was.must && next.may == was.may {
            return Some(next);
        }
        was = next;
    }
}
