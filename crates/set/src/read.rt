// Reading a set: its mark and length, its count, then its literals in one pass.

ghost use Rattle.std.specs.Prelude.{◌+◌, ◌*◌, ◌≤◌, ◌≡◌, length, Err};
ghost use Rattle.record.specs.Refusal.{refusal};
ghost use Rattle.set.specs.Reading.{set_shape};
ghost use Rattle.set.specs.Code.{set_reading, members_above};

use buffer::get::get_number;
use literal::Limits;
use literal_decode::valid::is_literal;
use literal_fields::order::key_at;
use record::refuse::refuse;
use record::{Reason, Refusal};

// A refusal of the literal at a place.
fn refuse_member(place: usize) -> Result<(), Refusal>
    ensures { result ≡ Err (refusal Reason.MemberWrong place) }
{
    Err(Refusal {
        reason: Reason::MemberWrong,
        place,
    })
}

// Whether the slice has an A: record's mark, and is as long as its count says.
fn is_shaped(s: &[u8]) -> bool
    ensures { result ≡ set_shape s.now }
{
    if s.len() < 4 {
        return false;
    }
    if s[0] != b'A' {
        return false;
    }
    if s[1] != b':' {
        return false;
    }
    let count = get_number(s, 2);
    s.len() == 4 + 5 * count as usize
}

// The literals behind the count, up to the first that is wrong or not above the one before. The key of the one before
// is kept; no literal has the key 0, for atoms and rule numbers start at 1.
fn read_members(lim: Limits, s: &[u8], count: usize) -> Result<(), Refusal>
    requires { 4 + 5 * count ≤ length s.now }
    ensures { result ≡ members_above lim s.now 4 0 count }
{
    let mut last: u64 = 0;
    for i in 0..count {
        let place = 4 + 5 * i;
        if !is_literal(lim, &s[place..]) {
            return refuse_member(place);
        }
        let key = key_at(&s[place..]);
        if key <= last {
            return refuse_member(place);
        }
        last = key;
    }
    Ok(())
}

// A set of at most `most` literals of the form: the tests in document 01's order, 10, 12, 11.
pub fn read_set(lim: Limits, most: usize, s: &[u8]) -> Result<usize, Refusal>
    ensures { result ≡ set_reading lim most s.now }
{
    if !is_shaped(s) {
        return refuse(Reason::SetWrong);
    }
    let count = get_number(s, 2) as usize;
    if most < count {
        return refuse(Reason::SetTooLarge);
    }
    read_members(lim, s, count)?;
    Ok(count)
}
