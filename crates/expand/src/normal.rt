// The normal form of a source with preference sheets: one pass over its items, one over its rules, then each override with each pair of
// opposed options.

ghost use Rattle.std.specs.Prelude.{◌≡◌, false, length};
ghost use Rattle.record_walk.specs.Code.{HoldsFile};
ghost use Rattle.expand_collect.specs.Code.{state};
ghost use Rattle.expand.specs.Code.{Expandable, Arrays, Fronted, Appendable, Normal};

use crate::Made;
use expand_collect::Sheets;
use expand_collect::collect::collect;
use expand_heads::heads::mark_heads;
use expand_rules::append::append_rules;
use expand_tables::{OPTION_PLACES, SHEET_PLACES, TAG_PLACES};
use record_write::records::write_end;

// The rules of the source as a program of their own, to the start of `out`, and the tables of its sheets.
fn write_front(
    s: &[u8],
    out: &mut [u8],
    up: &mut [u64],
    low: &mut [u64],
    lowers: &mut [u16],
    ones: &mut [u16],
    others: &mut [u16],
) -> Sheets
    requires holds_file { HoldsFile (Expandable (length out.old)) s.now }
    requires arrays { Arrays up.old low.old lowers.old ones.old others.old }
    ensures { (w : HoldsFile (Expandable (length out.old)) s.now) → Fronted out.old w.items (state out.new up.new low.new lowers.new ones.new others.new result) }
{
    let held = collect(s, out, up, low, lowers, ones, others);
    write_end(held.rules as u16, out, held.to);
    held
}

// What the sheets append, behind the rules, and the end record of all; how many bytes there are then.
fn write_behind(
    out: &mut [u8],
    up: &[u64],
    low: &[u64],
    lowers: &[u16],
    ones: &[u16],
    others: &[u16],
    win: &mut [u64],
    lose: &mut [u64],
    held: Sheets,
) -> usize
    requires { Appendable (state out.old up.now low.now lowers.now ones.now others.now held) win.old lose.old }
    ensures { (w : Appendable (state out.old up.now low.now lowers.now ones.now others.now held) win.old lose.old) → Normal w.came w.items result out.new }
{
    let to = held.to;
    let rules = held.rules;
    let front = to + 4;
    mark_heads(&out[..front], up, low, win, lose);
    let end = append_rules(
        low,
        lowers,
        held.overrides,
        win,
        lose,
        ones,
        others,
        held.pairs,
        out,
        to,
    );
    let total = rules + (end - to) / 17;
    write_end(total as u16, out, end);
    end + 4
}

// The normal form of the source that `s` holds, to the start of `out`: its size, and that it has no sheets. What is behind it there may be
// anything.
pub fn write_normal(s: &[u8], out: &mut [u8]) -> Made
    requires { HoldsFile (Expandable (length out.old)) s.now }
    ensures normal { (w : HoldsFile (Expandable (length out.old)) s.now) → Normal out.old w.items result.size out.new }
    ensures sheeted_value { result.sheeted ≡ false }
{
    let mut up = [0u64; TAG_PLACES];
    let mut low = [0u64; TAG_PLACES];
    let mut lowers = [0u16; SHEET_PLACES];
    let mut ones = [0u16; SHEET_PLACES];
    let mut others = [0u16; SHEET_PLACES];
    let mut win = [0u64; OPTION_PLACES];
    let mut lose = [0u64; OPTION_PLACES];
    let held = write_front(
        s,
        out,
        &mut up,
        &mut low,
        &mut lowers,
        &mut ones,
        &mut others,
    );
    let size = write_behind(
        out, &up, &low, &lowers, &ones, &others, &mut win, &mut lose, held,
    );
    Made {
        size,
        sheeted: false,
    }
}
