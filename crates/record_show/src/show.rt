// Where rule n's record lies in a program, and the record itself as a part of the caller's slice.

ghost use Rattle.std.specs.Prelude.{◌≡◌, map};
ghost use Rattle.literal.specs.Limits.{source, plain};
ghost use Rattle.semantics.specs.Item.{rule};
ghost use Rattle.record_walk.specs.Code.{Holds, HoldsFile};
ghost use Rattle.record_show.specs.Show.{extent_from, shown, shown_extent};
ghost use Rattle.record_show.specs.Code.{Numbered, NumberedIn, rules_in};
ghost use Rattle.record_show.specs.Part.{PartAt};

use crate::Extent;
use literal::Limits;
use literal::form::{Plain, Source};
use record::refuse::refuse;
use record::{Reason, Refusal};
use record_read::read::{has_sheets, read_items};
use record_walk::size::{item_size, record_size};

// The extent of the record of rule `number`, in a program that has one.
fn walk(s: &[u8], number: usize) -> Extent
    requires { Holds (Numbered number) s.now }
    ensures { (w : Holds (Numbered number) s.now) → result ≡ extent_from 0 (map rule w.program) number }
{
    let mut at: usize = 0;
    for _ in 1..number {
        at += record_size(&s[at..]);
    }
    let size = record_size(&s[at..]);
    Extent { start: at, size }
}

// How many rules a record with this letter is.
fn count_rule(letter: u8) -> usize
    ensures { result ≡ rules_in letter }
{
    match letter {
        b'O' => 0,
        b'X' => 0,
        _ => 1,
    }
}

// The extent of the record of rule `number`, in a file that has one: sheet records are stepped over.
fn walk_items(s: &[u8], number: usize) -> Extent
    requires { HoldsFile (NumberedIn number) s.now }
    ensures { (w : HoldsFile (NumberedIn number) s.now) → result ≡ extent_from 0 w.items number }
{
    let mut at: usize = 0;
    let mut left = number;
    // The place is what is asked for, so it is added up here: `Records` gives the records without their places.
    loop {
        let size = item_size(&s[at..]);
        let rules = count_rule(s[at]);
        if left <= rules {
            return Extent { start: at, size };
        }
        at += size;
        left -= rules;
    }
}

// The extent of rule `number`'s record, or read's refusal, or that there is no such rule.
fn find(lim: Limits, s: &[u8], number: u32) -> Result<Extent, Refusal>
    ensures { result ≡ shown lim s.now number }
{
    let held = read_items(lim, s)?;
    let n = number as usize;
    if n == 0 {
        return refuse(Reason::NoSuchRule);
    }
    if held.rules < n {
        return refuse(Reason::NoSuchRule);
    }
    if has_sheets(held) {
        return Ok(walk_items(s, n));
    }
    Ok(walk(s, n))
}

// The record of rule `number` as a part of the slice; on a refusal the empty part at the slice's start.
fn show(lim: Limits, s: &[u8], number: u32) -> &[u8]
    ensures { PartAt s.entry result (shown_extent (shown lim s.now number)) }
{
    let Ok(e) = find(lim, s, number) else {
        return &s[0..0];
    };
    let start = e.start;
    let end = start + e.size;
    &s[start..end]
}

// The entry points of the two forms, which README names and C calls: each is its form's row of limits.
pub fn find_source(s: &[u8], number: u32) -> Result<Extent, Refusal>
    ensures { result ≡ shown source s.now number }
{
    find(Source::limits(), s, number)
}

pub fn show_source(s: &[u8], number: u32) -> &[u8]
    ensures { PartAt s.entry result (shown_extent (shown source s.now number)) }
{
    show(Source::limits(), s, number)
}

// The plain form.
pub fn find_plain(s: &[u8], number: u32) -> Result<Extent, Refusal>
    ensures { result ≡ shown plain s.now number }
{
    find(Plain::limits(), s, number)
}

pub fn show_plain(s: &[u8], number: u32) -> &[u8]
    ensures { PartAt s.entry result (shown_extent (shown plain s.now number)) }
{
    show(Plain::limits(), s, number)
}
