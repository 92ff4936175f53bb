// One record that is no rule's and not the end, in its own part of the slice: a preference sheet's, by document 02's tests in their order,
// or none of the form's.

ghost use Rattle.std.specs.Prelude.{◌≤◌, ◌≡◌, ◌&&◌, leb, length};
ghost use Rattle.literal.specs.Literal.{decoded, in_range};
ghost use Rattle.record.specs.Reading.{override_at, opposition_at, record_at};
ghost use Rattle.record.specs.Code.{step_of};
ghost use Rattle.record_step.specs.Code.{OtherLeft};
ghost use Rattle.record_sheet.specs.Code.{is_signed, same_fields, pair_step};

use buffer::get::get_number;
use literal::{Limits, Tag};
use literal_decode::range::is_tag;
use literal_decode::valid::is_literal;
use literal_fields::field::get_tag;
use record::refuse::refuse;
use record::{Held, Reason, Refusal, Step};

// Whether the form has both tags.
fn are_tags(lim: Limits, upper: Tag, lower: Tag) -> bool
    ensures { result ≡ (in_range lim.tags upper.0 && in_range lim.tags lower.0) }
{
    if !is_tag(lim, upper) {
        return false;
    }
    is_tag(lim, lower)
}

// Whether the first five bytes spell an atom or a negated atom of the form.
fn is_option(lim: Limits, t: &[u8]) -> bool
    requires { 5 ≤ length t.now }
    ensures { result ≡ is_signed (decoded lim t.now) }
{
    if !is_literal(lim, t) {
        return false;
    }
    t[0] <= 1
}

// Whether the kinds and atoms of a record's two options are the same.
fn is_pair_same(t: &[u8]) -> bool
    requires { 12 ≤ length t.now }
    ensures { result ≡ same_fields t.now }
{
    if t[2] != t[7] {
        return false;
    }
    get_number(t, 5) == get_number(t, 10)
}

// Whether as many of a kind are held as the form takes.
fn is_full(lim: Limits, held: usize) -> bool
    ensures { result ≡ leb lim.sheets held }
{
    lim.sheets <= held
}

// What a record with two options comes to: 5 at the first that is wrong, before 14 for two that are the same. The three are tests, in the
// order in which they count.
fn judge_pair(one: bool, other: bool, same: bool) -> Result<Step, Refusal>
    ensures { result ≡ pair_step one other same }
{
    if !one {
        return Err(Refusal {
            reason: Reason::LiteralWrong,
            place: 2,
        });
    }
    if !other {
        return Err(Refusal {
            reason: Reason::LiteralWrong,
            place: 7,
        });
    }
    if same {
        return refuse(Reason::SheetSame);
    }
    Ok(Step::Opposition(12))
}

// An override, where `held` came before.
fn read_override(lim: Limits, t: &[u8], held: usize) -> Result<Step, Refusal>
    ensures { result ≡ step_of (override_at lim held t.now) }
{
    if is_full(lim, held) {
        return refuse(Reason::TooManySheets);
    }
    if t.len() < 6 {
        return refuse(Reason::SheetCut);
    }
    let upper = get_tag(t, 2);
    let lower = get_tag(t, 4);
    if !are_tags(lim, upper, lower) {
        return refuse(Reason::TagWrong);
    }
    if upper.0 == lower.0 {
        return refuse(Reason::SheetSame);
    }
    Ok(Step::Override(6))
}

// An opposition, where `held` came before.
fn read_opposition(lim: Limits, t: &[u8], held: usize) -> Result<Step, Refusal>
    ensures { result ≡ step_of (opposition_at lim held t.now) }
{
    if is_full(lim, held) {
        return refuse(Reason::TooManySheets);
    }
    if t.len() < 12 {
        return refuse(Reason::SheetCut);
    }
    let one = is_option(lim, &t[2..]);
    let other = is_option(lim, &t[7..]);
    judge_pair(one, other, is_pair_same(t))
}

// A record that is no rule's and not the end, where `held` came before: 3 where the form has no such mark.
pub fn read_sheet(lim: Limits, t: &[u8], held: Held) -> Result<Step, Refusal>
    requires { OtherLeft lim t.now }
    ensures { result ≡ step_of (record_at lim held t.now) }
{
    if t[1] != b':' {
        return refuse(Reason::MarkWrong);
    }
    if lim.sheets == 0 {
        return refuse(Reason::MarkWrong);
    }
    let letter = t[0];
    match letter {
        b'O' => read_override(lim, t, held.overrides),
        b'X' => read_opposition(lim, t, held.oppositions),
        _ => refuse(Reason::MarkWrong),
    }
}
