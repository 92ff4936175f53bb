// A rule's record by itself, as one is added to an assembly.

ghost use Rattle.std.specs.Prelude.{◌≡◌, true};
ghost use Rattle.record.specs.Result.{and_then};
ghost use Rattle.record.specs.Reading.{mark_at, record_at, is_rule, rules_held, entry_size, rule_only};

use literal::Limits;
use record::refuse::refuse;
use record::{Reason, Refusal};
use record_step::step::{open_record, read_body, read_front};
use record_step::{Front, Opening};

// How long a record with a rule's mark is, where `held` rules came before.
fn read_marked(lim: Limits, t: &[u8], held: usize) -> Result<usize, Refusal>
    requires { is_rule (mark_at lim t.now) ≡ true }
    ensures { result ≡ and_then (record_at lim (rules_held held) t.now) entry_size }
{
    match read_front(lim, t, held)? {
        Front::Literals(defeasible) => read_body(lim, defeasible, t, t[4], t[5], t[6]),
        Front::End => refuse(Reason::MarkWrong),
        Front::Other => refuse(Reason::MarkWrong),
    }
}

// A rule's record and no other, where `held` rules came before: its length. Every mark but a rule's is 3.
pub fn read_rule(lim: Limits, t: &[u8], held: usize) -> Result<usize, Refusal>
    ensures { result ≡ rule_only lim held t.now }
{
    if t.len() < 2 {
        return refuse(Reason::MarkCut);
    }
    match open_record(lim, t) {
        Opening::Rule(_) => read_marked(lim, t, held),
        Opening::End => refuse(Reason::MarkWrong),
        Opening::Other => refuse(Reason::MarkWrong),
    }
}
