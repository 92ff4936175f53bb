// What a state's bytes say: its header, then each held rule's two bytes, then nothing but zeros, in one pass. No loop stops early, and each
// keeps sums and largest figures alone, of both rows at once: so the compiler takes sixteen bytes in one step.

ghost use Rattle.std.specs.Prelude.{◌+◌, ◌*◌, ◌/◌, ◌%◌, ◌≤◌, ◌≡◌, length};
ghost use Rattle.literal.specs.Limits.{source};
ghost use Rattle.assembly.specs.State.{before, is_headed, stage_of};
ghost use Rattle.assembly.specs.Code.{Assemblable, standing_of};
ghost use Rattle.assembly_state.specs.Code.{within, clear_behind, Tallied};

use crate::Tally;
use assembly::Standing;
use buffer::get::get_number;
use literal::Limits;
use literal::form::Source;

// Whether there are as many bytes as a state has, and the first eight are a state's.
fn is_headed(lim: Limits, state: &[u8]) -> bool
    requires { Assemblable lim }
    ensures { result ≡ is_headed lim state.now }
{
    if state.len() != 8 + 2 * lim.rules {
        return false;
    }
    if 2 < state[0] {
        return false;
    }
    if state[1] != 0 {
        return false;
    }
    if get_number(state, 4) != 0 {
        return false;
    }
    if get_number(state, 6) != 0 {
        return false;
    }
    let rules = get_number(state, 2);
    if state[0] == 0 {
        return rules == 0;
    }
    rules as usize <= lim.rules
}

// The head literals of a rule, by its byte in the first row.
fn count_heads(b: u8) -> u8
    ensures { result ≡ b % 128 + b / 128 }
{
    b % 128 + b / 128
}

// What the shapes of so many rules come to.
fn tally_shapes(lim: Limits, state: &[u8], rules: usize) -> Tally
    requires assemblable { Assemblable lim }
    requires rules_le_rules { rules ≤ lim.rules }
    requires rules_in_bounds { 8 + 2 * lim.rules ≤ length state.now }
    ensures { Tallied lim state.now rules result }
{
    let mut shapes = Tally::default();
    for i in 0..rules {
        let h = count_heads(state[8 + i]);
        let b = state[8 + i + lim.rules];
        shapes.heads.add(h);
        shapes.body.add(b);
    }
    shapes
}

// Whether nothing but zeros stands behind so many rules, in both rows.
fn is_clear_behind(lim: Limits, state: &[u8], rules: usize) -> bool
    requires assemblable { Assemblable lim }
    requires rules_le_rules { rules ≤ lim.rules }
    requires rules_in_bounds { 8 + 2 * lim.rules ≤ length state.now }
    ensures { result ≡ clear_behind lim state.now rules }
{
    let mut most: u8 = 0;
    for i in rules..lim.rules {
        let larger = state[8 + i].max(state[8 + i + lim.rules]);
        most = most.max(larger);
    }
    most == 0
}

// Whether no rule has more head or body literals than the form takes.
fn is_within(lim: Limits, shapes: Tally) -> bool
    requires { Assemblable lim }
    ensures { result ≡ within lim shapes.heads.most shapes.body.most }
{
    if lim.heads < shapes.heads.most as usize {
        return false;
    }
    shapes.body.most as usize <= lim.positives + lim.nafs
}

// What is said where nothing was begun.
fn stand_before() -> Standing
    ensures { result ≡ standing_of before }
{
    Standing {
        active: false,
        rules: 0,
        bytes: 0,
    }
}

// What a state says; bytes that are none count as one before the first begin.
fn inspect(lim: Limits, state: &[u8]) -> Standing
    requires { Assemblable lim }
    ensures { result ≡ standing_of (stage_of lim state.now) }
{
    if !is_headed(lim, state) {
        return stand_before();
    }
    let rules = get_number(state, 2) as usize;
    let shapes = tally_shapes(lim, state, rules);
    if !is_within(lim, shapes) {
        return stand_before();
    }
    if !is_clear_behind(lim, state, rules) {
        return stand_before();
    }
    let bytes = 7 * rules + 5 * (shapes.heads.sum as usize + shapes.body.sum as usize);
    let stage = state[0];
    Standing {
        active: stage == 1,
        rules,
        bytes,
    }
}

// The state of a source's assembly. Where no caller hands limits in, they are figures to the compiler, and not read from memory.
pub fn inspect_source(state: &[u8]) -> Standing
    ensures { result ≡ standing_of (stage_of source state.now) }
{
    inspect(Source::limits(), state)
}
