// One record of a file, in its own part of the slice: document 01's tests in their order.

ghost use Rattle.std.specs.Prelude.{◌+◌, ◌*◌, ◌≤◌, ◌<◌, ◌≡◌, false, length, Ok, Err};
ghost use Rattle.literal.specs.declared.Limits.{Limits};
ghost use Rattle.semantics.specs.Form.{keeps_counts};
ghost use Rattle.record.specs.Result.{and_then};
ghost use Rattle.record.specs.Reading.{literals_at, mark_at, tag_right, body_at, rule_at, end_at, record_at, entry_size};
ghost use Rattle.record.specs.Code.{run_of, signed_kinds, found_of};
ghost use Rattle.record_step.specs.Code.{opening, judged, FrontAt};

use crate::{Front, Opening};
use buffer::get::get_number;
use literal::{Limits, Tag};
use literal_decode::range::is_tag;
use literal_decode::valid::is_literal;
use literal_fields::field::get_tag;
use record::refuse::refuse;
use record::{Held, Reason, Refusal, Step};

// How the record starts: the letters of sheet records are not asked for here, so that few are.
pub fn open_record(lim: Limits, t: &[u8]) -> Opening
    requires { 2 ≤ length t.now }
    ensures { result ≡ opening (mark_at lim t.now) }
{
    if t[1] != b':' {
        return Opening::Other;
    }
    let letter = t[0];
    match letter {
        b'S' => Opening::Rule(false),
        b'D' => {
            if lim.defeasible {
                Opening::Rule(true)
            } else {
                Opening::Other
            }
        }
        b'E' => Opening::End,
        _ => Opening::Other,
    }
}

// Whether the tag is in its range: 0 for a strict rule.
fn is_tag_right(lim: Limits, defeasible: bool, tag: Tag) -> bool
    ensures { result ≡ tag_right lim defeasible tag.0 }
{
    if defeasible {
        is_tag(lim, tag)
    } else {
        tag.0 == 0
    }
}

// Whether no count is over its limit.
fn are_counts_kept(lim: Limits, heads: usize, positives: usize, nafs: usize) -> bool
    ensures { result ≡ keeps_counts lim heads positives nafs }
{
    if lim.heads < heads {
        return false;
    }
    if lim.positives < positives {
        return false;
    }
    nafs <= lim.nafs
}

// The literals behind a rule's header, up to the first wrong one. Part of its callers, as `read_body` is.
#[inline(always)]
fn read_literals(lim: Limits, t: &[u8], count: usize) -> Result<(), Refusal>
    requires { 7 + 5 * count ≤ length t.now }
    ensures { result ≡ run_of (literals_at lim t.now 7 count) }
{
    for i in 0..count {
        let place = 7 + 5 * i;
        if !is_literal(lim, &t[place..]) {
            return Err(Refusal {
                reason: Reason::LiteralWrong,
                place,
            });
        }
    }
    Ok(())
}

// Whether the head's literals are atoms and negated atoms: no mark can be chosen.
fn is_head_signed(t: &[u8], heads: usize) -> bool
    requires { 7 + 5 * heads ≤ length t.now }
    ensures { result ≡ signed_kinds t.now 7 heads }
{
    for i in 0..heads {
        if 1 < t[7 + 5 * i] {
            return false;
        }
    }
    true
}

// How long a rule's record of so many bytes is, by its literals: a defeasible head is not empty, and holds no mark.
pub fn judge_literals(
    run: Result<(), Refusal>,
    defeasible: bool,
    t: &[u8],
    heads: u8,
    size: usize,
) -> Result<usize, Refusal>
    requires { 7 + 5 * heads ≤ length t.now }
    ensures { result ≡ judged run defeasible t.now heads size }
{
    run?;
    if defeasible {
        if heads == 0 {
            return refuse(Reason::HeadWrong);
        }
        if !is_head_signed(t, heads as usize) {
            return refuse(Reason::HeadWrong);
        }
    }
    Ok(size)
}

// How long a rule's record is whose header is right: its literals, then what a defeasible head may hold. Part of its callers: the compiler would
// keep it apart, since it has two, and reading a program of small rules would take up to twice the time.
#[inline(always)]
pub fn read_body(
    lim: Limits,
    defeasible: bool,
    t: &[u8],
    heads: u8,
    positives: u8,
    nafs: u8,
) -> Result<usize, Refusal>
    ensures { result ≡ and_then (body_at lim defeasible t.now heads positives nafs) entry_size }
{
    let count = heads as usize + positives as usize + nafs as usize;
    let size = 7 + 5 * count;
    if t.len() < size {
        return refuse(Reason::LiteralsCut);
    }
    let run = read_literals(lim, t, count);
    judge_literals(run, defeasible, t, heads, size)
}

// A rule's header, where `held` rules came before: its tests in document 01's order.
fn read_header(lim: Limits, defeasible: bool, t: &[u8], held: usize) -> Result<Front, Refusal>
    requires { lim.defeasible ≡ false → defeasible ≡ false }
    ensures { FrontAt lim t.now (rule_at lim defeasible held t.now) result }
{
    if t.len() < 7 {
        return refuse(Reason::HeaderCut);
    }
    if lim.rules <= held {
        return refuse(Reason::TooManyRules);
    }
    let tag = get_tag(t, 2);
    if !is_tag_right(lim, defeasible, tag) {
        return refuse(Reason::TagWrong);
    }
    if !are_counts_kept(lim, t[4] as usize, t[5] as usize, t[6] as usize) {
        return refuse(Reason::TooManyLiterals);
    }
    Ok(Front::Literals(defeasible))
}

// The end record, where `held` rules came before.
fn read_end(t: &[u8], held: usize) -> Result<Front, Refusal>
    ensures { (lim : Limits) → FrontAt lim t.now (end_at held t.now) result }
{
    if t.len() < 4 {
        return refuse(Reason::HeaderCut);
    }
    let counted = get_number(t, 2);
    if counted as usize != held {
        return refuse(Reason::EndWrong);
    }
    if t.len() != 4 {
        return refuse(Reason::EndWrong);
    }
    Ok(Front::End)
}

// What stands before a record's literals, where `held` rules came before: what the record is, that its literals are to be read, or that
// it is no rule's and not the end.
pub fn read_front(lim: Limits, t: &[u8], held: usize) -> Result<Front, Refusal>
    ensures { (h : Held) → h.rules ≡ held → FrontAt lim t.now (record_at lim h t.now) result }
{
    if t.len() < 2 {
        return refuse(Reason::MarkCut);
    }
    let opening = open_record(lim, t);
    match opening {
        Opening::Rule(defeasible) => read_header(lim, defeasible, t, held),
        Opening::End => read_end(t, held),
        Opening::Other => Ok(Front::Other),
    }
}

// What is left behind a record, where `held` came before it: the part behind so many bytes, with one item more held; nothing behind the end.
// A refusal stays one.
pub fn hold(held: Held, found: Result<Step, Refusal>) -> Result<Option<(usize, Held)>, Refusal>
    requires { held.rules + held.overrides + held.oppositions < 9223372036854775808 }
    ensures { result ≡ found_of held found }
{
    let rules = held.rules;
    let overrides = held.overrides;
    let oppositions = held.oppositions;
    let step = match found {
        Ok(step) => step,
        Err(x) => return Err(x),
    };
    match step {
        Step::Rule(size) => Ok(Some((
            size,
            Held {
                rules: rules + 1,
                ..held
            },
        ))),
        Step::Override(size) => Ok(Some((
            size,
            Held {
                overrides: overrides + 1,
                ..held
            },
        ))),
        Step::Opposition(size) => Ok(Some((
            size,
            Held {
                oppositions: oppositions + 1,
                ..held
            },
        ))),
        Step::End => Ok(None),
    }
}
