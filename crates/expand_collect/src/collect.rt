// The items of a file, one by one: a rule's record is copied behind those before it, an override and an opposition go into tables.

ghost use Rattle.std.specs.Prelude.{[]};
ghost use Rattle.record_walk.specs.Code.{HoldsFile};
ghost use Rattle.expand_tables.specs.Code.{Tables};
ghost use Rattle.expand_collect.specs.Code.{state, room_of, Collectable, Collects, Collecting, Collected};

use crate::Sheets;
use expand_tables::sheets::{add_opposition, add_override};
use literal_fields::field::get_tag;
use record_walk::options::option_at;
use record_walk::size::{item_size, record_size};
use record_write::copy::copy;

// The item whose record starts the part.
fn collect_item(
    part: &[u8],
    out: &mut [u8],
    up: &mut [u64],
    low: &mut [u64],
    lowers: &mut [u16],
    ones: &mut [u16],
    others: &mut [u16],
    h: Sheets,
) -> Sheets
    requires { Collectable part.now (room_of out.old up.old low.old lowers.old ones.old others.old) h }
    ensures { Collects part.now (state out.old up.old low.old lowers.old ones.old others.old h) (state out.new up.new low.new lowers.new ones.new others.new result) }
{
    let letter = part[0];
    let to = h.to;
    let rules = h.rules;
    let overrides = h.overrides;
    let pairs = h.pairs;
    if letter == b'O' {
        add_override(
            get_tag(part, 2),
            get_tag(part, 4),
            up,
            low,
            lowers,
            overrides,
        );
        let held = overrides + 1;
        return Sheets {
            to,
            rules,
            overrides: held,
            pairs,
        };
    }
    if letter == b'X' {
        let known = add_opposition(option_at(part, 2), option_at(part, 7), ones, others, pairs);
        return Sheets {
            to,
            rules,
            overrides,
            pairs: known,
        };
    }
    let size = record_size(part);
    copy(part, 0, size, out, to);
    let end = to + size;
    let count = rules + 1;
    Sheets {
        to: end,
        rules: count,
        overrides,
        pairs,
    }
}

// All items of a file.
pub fn collect(
    s: &[u8],
    out: &mut [u8],
    up: &mut [u64],
    low: &mut [u64],
    lowers: &mut [u16],
    ones: &mut [u16],
    others: &mut [u16],
) -> Sheets
    requires holds_file { HoldsFile (Collecting (room_of out.old up.old low.old lowers.old ones.old others.old)) s.now }
    requires tables { Tables [] up.old low.old lowers.old }
    ensures { (w : HoldsFile (Collecting (room_of out.old up.old low.old lowers.old ones.old others.old)) s.now) → Collected out.old w.items (state out.new up.new low.new lowers.new ones.new others.new result) }
{
    let mut at: usize = 0;
    let mut h = Sheets {
        to: 0,
        rules: 0,
        overrides: 0,
        pairs: 0,
    };
    while s[at] != b'E' {
        let part = &s[at..];
        h = collect_item(part, out, up, low, lowers, ones, others, h);
        at += item_size(part);
    }
    h
}
