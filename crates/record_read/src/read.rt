// Reading a file: one record after another, each in its own part of the slice. Rules are read in runs: the loop over them knows nothing of
// sheet records, which are few.

ghost use Rattle.std.specs.Prelude.{◌*◌, ◌≤◌, ◌≡◌, length};
ghost use Rattle.literal.specs.Limits.{source, plain};
ghost use Rattle.record.specs.Reading.{items, record_at, holding_of, reading};
ghost use Rattle.record.specs.Code.{step_of, total, sheeted};
ghost use Rattle.record_read.specs.Code.{RunAt, StopAt, Stopped};

use crate::{Rules, Stop};
use literal::Limits;
use literal::form::{Plain, Source};
use record::refuse::refuse;
use record::{Held, Reason, Refusal, Step};
use record_sheet::sheet::read_sheet;
use record_step::Front;
use record_step::step::{hold, read_body, read_front};

// How long the rule's record at the part's start is, where so many rules came before; or what ends a run of rules there.
fn read_record(lim: Limits, t: &[u8], rules: usize) -> Result<usize, Stop>
    ensures { (h : Held) → h.rules ≡ rules → RunAt lim t.now (record_at lim h t.now) result }
{
    match read_front(lim, t, rules)? {
        Front::Literals(defeasible) => Ok(read_body(lim, defeasible, t, t[4], t[5], t[6])?),
        Front::End => Err(Stop::End),
        Front::Other => Err(Stop::Other),
    }
}

// The rules from a place on, where `held` came before, up to the first record that is no right rule's.
fn read_rules(lim: Limits, s: &[u8], from: usize, held: Held) -> Rules
    requires from_in_bounds { from ≤ length s.now }
    requires held_bound { 6 * total held ≤ from }
    ensures { Stopped lim s.now from held result }
{
    let mut at = from;
    let mut rules = held.rules;
    // No iterator: how far the next record goes, only reading it says, and it may be refused.
    loop {
        match read_record(lim, &s[at..], rules) {
            Ok(size) => {
                at += size;
                rules += 1;
            }
            Err(stop) => return Rules { at, rules, stop },
        }
    }
}

// What the record that ends a run of rules comes to, where `held` came before.
fn read_stop(lim: Limits, t: &[u8], held: Held, stop: Stop) -> Result<Step, Refusal>
    requires { StopAt lim t.now (record_at lim held t.now) stop }
    ensures { result ≡ step_of (record_at lim held t.now) }
{
    match stop {
        Stop::End => Ok(Step::End),
        Stop::Other => read_sheet(lim, t, held),
        Stop::Refused(x) => Err(x),
    }
}

// A file's items: reading goes on with the part behind the record just read.
pub fn read_items(lim: Limits, s: &[u8]) -> Result<Held, Refusal>
    ensures { result ≡ holding_of (items lim s.now) }
{
    if lim.length < s.len() {
        return refuse(Reason::TooLong);
    }
    let mut at: usize = 0;
    let mut held = Held {
        rules: 0,
        overrides: 0,
        oppositions: 0,
    };
    // No iterator, as above.
    loop {
        let run = read_rules(lim, s, at, held);
        let place = run.at;
        let passed = Held {
            rules: run.rules,
            ..held
        };
        match hold(passed, read_stop(lim, &s[place..], passed, run.stop)) {
            Ok(found) => {
                let Some((size, more)) = found else {
                    return Ok(passed);
                };
                at = place + size;
                held = more;
            }
            Err(x) => return Err(x.behind(place)),
        }
    }
}

// Whether a file holds sheet records.
pub fn has_sheets(held: Held) -> bool
    ensures { result ≡ sheeted held }
{
    if 0 < held.overrides {
        return true;
    }
    0 < held.oppositions
}

// How many rules are written.
fn read(lim: Limits, s: &[u8]) -> Result<usize, Refusal>
    ensures { result ≡ reading lim s.now }
{
    let held = read_items(lim, s)?;
    Ok(held.rules)
}

// The entry points of the two forms, which README names and C calls: each is its form's row of limits.
pub fn read_source(s: &[u8]) -> Result<usize, Refusal>
    ensures { result ≡ reading source s.now }
{
    read(Source::limits(), s)
}

pub fn read_plain(s: &[u8]) -> Result<usize, Refusal>
    ensures { result ≡ reading plain s.now }
{
    read(Plain::limits(), s)
}
