// A program without defeasible rules and without sheets read, the places of its literals marked on the way: what `record_read` reads, in one pass with the marks.

ghost use Rattle.std.specs.Prelude.{ℕ, ◌+◌, ◌*◌, ◌≤◌, ◌≡◌, false, length, Ok};
ghost use Rattle.record.specs.Reading.{literals_at, record_at, reading};
ghost use Rattle.record.specs.Code.{run_of, step_of};
ghost use Rattle.record_walk.specs.Code.{Holds};
ghost use Rattle.aspif_place.specs.Code.{words, Placeable, Marks};
ghost use Rattle.aspif_number.specs.Code.{Empty, Gained, Tallied, places_at, Placed};
ghost use Rattle.aspif_read.specs.Code.{strict_body, Marked};

use aspif_number::marks::{count_literals, mark_place};
use aspif_number::place::place_at;
use literal::Limits;
use literal_decode::valid::is_literal;
use record::refuse::refuse;
use record::{Held, Reason, Refusal, Step};
use record_step::Front;
use record_step::step::{hold, read_front};

// The literals behind a rule's header, up to the first wrong one; the places of those before it are marked.
fn mark_literals(
    lim: Limits,
    t: &[u8],
    count: usize,
    bits: &mut [u64],
    counts: &mut [u32],
) -> Result<(), Refusal>
    requires count_in_bounds { 7 + 5 * count ≤ length t.now }
    requires placeable { Placeable lim }
    requires bits_len { length bits.old ≡ words }
    requires tallied { Tallied bits.old counts.old }
    ensures value { result ≡ run_of (literals_at lim t.now 7 count) }
    ensures gained { result ≡ Ok tt → Gained bits.old bits.new (places_at t.now 7 count) }
    ensures tallied_2 { Tallied bits.new counts.new }
{
    for k in 0..count {
        let place = 7 + 5 * k;
        if !is_literal(lim, &t[place..]) {
            return Err(Refusal {
                reason: Reason::LiteralWrong,
                place,
            });
        }
        let i = place_at(t, place);
        mark_place(bits, counts, i);
    }
    Ok(())
}

// A strict rule's record whose header is right: its literals, marked.
fn mark_body(lim: Limits, t: &[u8], bits: &mut [u64], counts: &mut [u32]) -> Result<Step, Refusal>
    requires in_bounds { 7 ≤ length t.now }
    requires placeable { Placeable lim }
    requires bits_len { length bits.old ≡ words }
    requires tallied { Tallied bits.old counts.old }
    ensures value { result ≡ step_of (strict_body lim t.now) }
    ensures marked { Marked t.now bits.old bits.new result }
    ensures tallied_2 { Tallied bits.new counts.new }
{
    let count = count_literals(t[4], t[5], t[6]);
    let size = 7 + 5 * count;
    if t.len() < size {
        return refuse(Reason::LiteralsCut);
    }
    mark_literals(lim, t, count, bits, counts)?;
    Ok(Step::Rule(size))
}

// One record, at the part's start, where `held` came before; a rule's literals are marked.
fn mark_record(
    lim: Limits,
    t: &[u8],
    held: Held,
    bits: &mut [u64],
    counts: &mut [u32],
) -> Result<Step, Refusal>
    requires placeable { Placeable lim }
    requires defeasible_value { lim.defeasible ≡ false }
    requires sheets_value { lim.sheets ≡ 0 }
    requires bits_len { length bits.old ≡ words }
    requires tallied { Tallied bits.old counts.old }
    ensures value { result ≡ step_of (record_at lim held t.now) }
    ensures marked { Marked t.now bits.old bits.new result }
    ensures tallied_2 { Tallied bits.new counts.new }
{
    match read_front(lim, t, held.rules)? {
        Front::Literals(_) => mark_body(lim, t, bits, counts),
        Front::End => Ok(Step::End),
        Front::Other => refuse(Reason::MarkWrong),
    }
}

// A program in one pass: what reading gives, and the places of its literals marked.
pub fn read_marking(
    lim: Limits,
    s: &[u8],
    bits: &mut [u64],
    counts: &mut [u32],
) -> Result<usize, Refusal>
    requires placeable { Placeable lim }
    requires defeasible_value { lim.defeasible ≡ false }
    requires sheets_value { lim.sheets ≡ 0 }
    requires bits_len { length bits.old ≡ words }
    requires empty { Empty bits.old }
    requires tallied { Tallied bits.old counts.old }
    ensures value { result ≡ reading lim s.now }
    ensures by_index { (n : ℕ) → result ≡ Ok n → (w : Holds Placed s.now) → Marks w.program bits.new }
    ensures tallied_2 { Tallied bits.new counts.new }
{
    if lim.length < s.len() {
        return refuse(Reason::TooLong);
    }
    let mut at: usize = 0;
    let mut held = Held {
        rules: 0,
        overrides: 0,
        oppositions: 0,
    };
    // No iterator: how far the next record goes, only reading it says, and it may be refused.
    loop {
        match hold(held, mark_record(lim, &s[at..], held, bits, counts)) {
            Ok(found) => {
                let Some((size, more)) = found else {
                    return Ok(held.rules);
                };
                at += size;
                held = more;
            }
            Err(x) => return Err(x.behind(at)),
        }
    }
}
