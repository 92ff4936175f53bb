// The first smaller model. `settle` and `try_open` call each other: each try leaves fewer literals open. They find any model,
// in the order that is fastest; `lower` goes from that to the first.

ghost use Rattle.std.specs.Prelude.{◌≡◌};
ghost use Rattle.mask.specs.Code.{Within};
ghost use Rattle.check_force.specs.Code.{Model, Settled, Smaller};
ghost use Rattle.check_search.specs.Code.{Candidate, Any, Least, First};

use check_force::force::propagate;
use check_force::{Bounds, Clause};
use check_pick::pick::pick;
use mask::highest;

// Settles what the clauses force, then tries what they leave open.
#[cycle(settle_try_open)]
fn settle(clauses: &[Clause], whole: u64, start: Bounds) -> Option<u64>
    requires { Within start.must start.may }
    ensures { Any (Candidate (Model whole clauses.now) start.must start.may) result }
{
    let left = propagate(clauses, whole, start)?;
    try_open(clauses, whole, left)
}

// Tries an open literal, absent before present, where the clauses force nothing more. Where none is open, the one mask between
// the bounds is a model.
#[cycle(settle_try_open)]
fn try_open(clauses: &[Clause], whole: u64, now: Bounds) -> Option<u64>
    requires inside { Within now.must now.may }
    requires leaf { now.must ≡ now.may → Model whole clauses.now now.must }
    requires settled { Settled whole clauses.now now.must now.may }
    ensures { Any (Candidate (Model whole clauses.now) now.must now.may) result }
{
    if now.must == now.may {
        return Some(now.must);
    }
    let open = pick(clauses, now);
    let absent = Bounds {
        must: now.must,
        may: now.may ^ open,
    };
    if let Some(model) = settle(clauses, whole, absent) {
        return Some(model);
    }
    let present = Bounds {
        must: now.must | open,
        may: now.may,
    };
    settle(clauses, whole, present)
}

// From any smaller model to the first: of the positions from the highest, each is absent if a model does without it and with
// what is settled before. The model at hand often does; else the search is asked for one.
fn lower(clauses: &[Clause], whole: u64, some: u64) -> u64
    requires { Candidate (Model whole clauses.now) 0 whole some }
    ensures { Least (Candidate (Model whole clauses.now) 0 whole) result }
{
    let mut model = some;
    let mut now = Bounds {
        must: 0,
        may: whole,
    };
    // No count: the bounds close in on one mask.
    while now.must != now.may {
        let open = highest(now.may ^ now.must);
        let absent = Bounds {
            must: now.must,
            may: now.may ^ open,
        };
        let present = Bounds {
            must: now.must | open,
            may: now.may,
        };
        now = if model & open == 0 {
            absent
        } else if let Some(other) = settle(clauses, whole, absent) {
            model = other;
            absent
        } else {
            present
        };
    }
    now.must
}

// The first part of a set, not all of it, in which each clause holds.
pub fn find_smaller(clauses: &[Clause], set: u64) -> Option<u64>
    ensures { First (Smaller set clauses.now) result }
{
    let whole = Bounds { must: 0, may: set };
    let any = settle(clauses, set, whole)?;
    Some(lower(clauses, set, any))
}
