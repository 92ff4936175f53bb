// The heads of defeasible rules, put into two tables by option: the overrides with whose upper, and with whose lower, tag a rule heads it.

ghost use Rattle.std.specs.Prelude.{◌≤◌, ◌≡◌, T, ltb, length};
ghost use Rattle.semantics.specs.Set.{each_of};
ghost use Rattle.record.specs.Header.{defeasible_letter, letter_of, head_count};
ghost use Rattle.record_walk.specs.Code.{Holds, record_size, options_at};
ghost use Rattle.expand_tables.specs.Code.{place_of, Marked};
ghost use Rattle.expand_heads.specs.Code.{Placed, Places, HeadAdded, HeadsAdded};

use expand_tables::place::place_of;
use record_walk::options::{option_at, tag_at};
use record_walk::size::record_size;

// A mask put to each option in a rule's record.
fn mark_options(part: &[u8], up: u64, low: u64, win: &mut [u64], lose: &mut [u64])
    requires part_in_bounds { record_size part.now ≤ length part.now }
    requires t { T (each_of (λ a. ltb (place_of a) (length win.old)) (options_at part.now 7 (head_count part.now))) }
    requires lose_len { length lose.old ≡ length win.old }
    ensures marked { Marked win.old win.new up (options_at part.now 7 (head_count part.now)) }
    ensures marked_2 { Marked lose.old lose.new low (options_at part.now 7 (head_count part.now)) }
{
    let mut at: usize = 7;
    let mut left = part[4] as usize;
    while 0 < left {
        let k = place_of(option_at(part, at));
        win[k] = win[k] | up;
        lose[k] = lose[k] | low;
        at += 5;
        left -= 1;
    }
}

// The head of the rule whose record starts the part: that of a strict rule counts for nothing.
fn mark_rule(part: &[u8], up: &[u64], low: &[u64], win: &mut [u64], lose: &mut [u64])
    requires part_in_bounds { record_size part.now ≤ length part.now }
    requires places { letter_of part.now ≡ defeasible_letter → Places part.now (length up.now) (length win.old) }
    requires low_len { length low.now ≡ length up.now }
    requires lose_len { length lose.old ≡ length win.old }
    ensures { HeadAdded part.now up.now low.now win.old lose.old win.new lose.new }
{
    if part[0] != b'D' {
        return;
    }
    let t = tag_at(part).0 as usize;
    mark_options(part, up[t], low[t], win, lose);
}

// The heads of all rules of a program.
pub fn mark_heads(s: &[u8], up: &[u64], low: &[u64], win: &mut [u64], lose: &mut [u64])
    requires holds { Holds (Placed (length up.now) (length win.old)) s.now }
    requires low_len { length low.now ≡ length up.now }
    requires lose_len { length lose.old ≡ length win.old }
    ensures { (w : Holds (Placed (length up.now) (length win.old)) s.now) → HeadsAdded w.program up.now low.now win.old lose.old win.new lose.new }
{
    let mut at: usize = 0;
    while s[at] != b'E' {
        let part = &s[at..];
        mark_rule(part, up, low, win, lose);
        at += record_size(part);
    }
}
