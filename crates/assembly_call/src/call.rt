// The calls on a state in a lent slice. A slice of another length than a state's, and bytes that no call gives back, count as a state before the
// first begin. No call looks at the lent buffer's bytes.

ghost use Rattle.std.specs.Prelude.{◌+◌, ◌≤◌, ◌<◌, ◌≡◌, true, [], length, Ok};
ghost use Rattle.literal.specs.Limits.{source};
ghost use Rattle.record.specs.Header.{head_count};
ghost use Rattle.record.specs.Reading.{rule_only};
ghost use Rattle.assembly.specs.State.{shape_of, heads_byte, stage_of};
ghost use Rattle.assembly.specs.Calls.{begin, add, drop_last, close, called, assembled, Keeps, Meets};
ghost use Rattle.assembly.specs.Code.{standing_of};

use assembly::Standing;
use assembly_state::change::{open_state, put_shape};
use assembly_state::inspect::inspect_source;
use buffer::put::put_byte;
use literal::form::Source;
use record::refuse::refuse;
use record::{Reason, Refusal};
use record_rule::alone::read_rule;
use record_write::copy::copy;
use record_write::records::write_end;

// The byte of a record's rule in the first row: a defeasible rule's is 127 more than its heads.
fn heads_byte(rule: &[u8]) -> u8
    requires in_bounds { 7 ≤ length rule.now }
    requires rule_bound { head_count rule.now < 128 }
    ensures { result ≡ heads_byte (shape_of rule.now) }
{
    if rule[0] == b'D' {
        return 127 + rule[4];
    }
    rule[4]
}

// Adds a record that was read, behind what is held: it is written there if an end record has room behind it.
fn hold_record(
    state: &mut [u8],
    rule: &[u8],
    out: &mut [u8],
    held: Standing,
    size: usize,
) -> Result<usize, Refusal>
    requires held_value { held ≡ standing_of (stage_of source state.old) }
    requires active_value { held.active ≡ true }
    requires rule_value { rule_only source held.rules rule.now ≡ Ok size }
    ensures { Meets (called source (add rule.now) state.old out.old) result state.new out.new }
{
    let bytes = held.bytes;
    let end = bytes + size;
    if out.len() < end + 4 {
        return refuse(Reason::OutputShort);
    }
    copy(rule, 0, size, out, bytes);
    let heads = heads_byte(rule);
    let body = rule[5] + rule[6];
    let place = held.rules;
    let rules = place + 1;
    put_shape(Source::limits(), state, rules, place, heads, body);
    Ok(rules)
}

// Starts afresh, for a buffer that is lent to the calls that follow.
pub fn begin_state(state: &mut [u8], out: &[u8]) -> Result<usize, Refusal>
    ensures { Keeps (called source begin state.old out.now) result state.new }
{
    let lim = Source::limits();
    if state.len() != 8 + 2 * lim.rules {
        return refuse(Reason::OutOfTurn);
    }
    if out.len() < 4 {
        return refuse(Reason::OutputShort);
    }
    open_state(lim, state);
    Ok(0)
}

// Adds a rule's record behind those that are held.
pub fn add_record(state: &mut [u8], rule: &[u8], out: &mut [u8]) -> Result<usize, Refusal>
    ensures { Meets (called source (add rule.now) state.old out.old) result state.new out.new }
{
    let standing = inspect_source(state);
    if !standing.active {
        return refuse(Reason::OutOfTurn);
    }
    let size = read_rule(Source::limits(), rule, standing.rules)?;
    hold_record(state, rule, out, standing, size)
}

// Drops the last rule.
pub fn drop_last(state: &mut [u8]) -> Result<usize, Refusal>
    ensures { Keeps (called source drop_last state.old []) result state.new }
{
    let standing = inspect_source(state);
    if !standing.active {
        return refuse(Reason::OutOfTurn);
    }
    let rules = standing.rules;
    if rules == 0 {
        return refuse(Reason::OutOfTurn);
    }
    let left = rules - 1;
    put_shape(Source::limits(), state, left, left, 0, 0);
    Ok(left)
}

// Writes the end record behind the rules.
pub fn close_state(state: &mut [u8], out: &mut [u8]) -> Result<usize, Refusal>
    ensures { Meets (called source close state.old out.old) result state.new out.new }
{
    let standing = inspect_source(state);
    if !standing.active {
        return refuse(Reason::OutOfTurn);
    }
    let rules = standing.rules;
    let bytes = standing.bytes;
    if out.len() < bytes + 4 {
        return refuse(Reason::OutputShort);
    }
    write_end(rules as u16, out, bytes);
    put_byte(state, 0, 2);
    Ok(rules)
}

// The bytes of the rules held and an end record.
pub fn measure_state(state: &[u8]) -> usize
    ensures { result ≡ assembled source state.now }
{
    let standing = inspect_source(state);
    standing.bytes + 4
}
