// What the tables of a source's sheets say is appended, written as strict rules' records: for each override in order, each pair in
// order, and both ways.

ghost use Rattle.std.specs.Prelude.{◌+◌, ◌≤◌, ◌<◌, ◌≡◌, length};
ghost use Rattle.buffer.specs.Write.{write, Wrote};
ghost use Rattle.semantics.specs.Expansion.{defeat_rule};
ghost use Rattle.record.specs.Layout.{encoded_rule};
ghost use Rattle.expand_tables.specs.Code.{way_new, pair_new, pairs_new, all_new};
ghost use Rattle.expand_rules.specs.Code.{defeat_bytes, Below};

use expand_tables::place::option_of;
use expand_tables::sheets::is_new;
use literal::{Literal, SignedAtom, Tag};
use literal_fields::encode::encode;
use mask::all_below;
use record_write::records::write_header;

// The record of "defeated (lower, loser) if winner".
fn write_defeat(lower: Tag, loser: SignedAtom, winner: SignedAtom, out: &mut [u8], to: usize)
    requires { to + 17 ≤ length out.old }
    ensures { out.new ≡ write out.old to (encoded_rule (defeat_rule (record { lower = lower; loser = loser; winner = winner }))) }
{
    write_header(1, 1, 0, out, to);
    encode(Literal::Defeated(lower, loser), out, to + 7);
    encode(Literal::Signed(winner), out, to + 12);
}

// What override i, with the lower tag t, adds for the places (k, l), taken this way; where it ends.
fn write_way(
    w: u64,
    v: u64,
    same: u64,
    i: u32,
    t: u16,
    k: u16,
    l: u16,
    out: &mut [u8],
    to: usize,
) -> usize
    requires i_bound { i < 64 }
    requires l_in_bounds { to + length (defeat_bytes (way_new w v same i t k l)) ≤ length out.old }
    ensures { Wrote out.old out.new to (defeat_bytes (way_new w v same i t k l)) result }
{
    if !is_new(w, v, same, i) {
        return to;
    }
    write_defeat(Tag(t), option_of(l), option_of(k), out, to);
    to + 17
}

// Both ways, as written first.
fn write_pair(
    win: &[u64],
    lose: &[u64],
    same: u64,
    i: u32,
    t: u16,
    k: u16,
    l: u16,
    out: &mut [u8],
    to: usize,
) -> usize
    requires i_bound { i < 64 }
    requires k_in_bounds { k < length win.now }
    requires l_in_bounds { l < length win.now }
    requires k_in_bounds_2 { k < length lose.now }
    requires l_in_bounds_2 { l < length lose.now }
    requires l_in_bounds_3 { to + length (defeat_bytes (pair_new win.now lose.now same i t k l)) ≤ length out.old }
    ensures { Wrote out.old out.new to (defeat_bytes (pair_new win.now lose.now same i t k l)) result }
{
    let one = k as usize;
    let other = l as usize;
    let next = write_way(win[one], lose[other], same, i, t, k, l, out, to);
    write_way(win[other], lose[one], same, i, t, l, k, out, next)
}

// What override i adds for the first m pairs.
fn write_pairs(
    win: &[u64],
    lose: &[u64],
    ones: &[u16],
    others: &[u16],
    m: usize,
    same: u64,
    i: u32,
    t: u16,
    out: &mut [u8],
    to: usize,
) -> usize
    requires i_bound { i < 64 }
    requires m_in_bounds { m ≤ length ones.now }
    requires m_in_bounds_2 { m ≤ length others.now }
    requires below { Below ones.now m (length win.now) }
    requires below_2 { Below others.now m (length win.now) }
    requires lose_len { length lose.now ≡ length win.now }
    requires m_in_bounds_3 { to + length (defeat_bytes (pairs_new win.now lose.now ones.now others.now same i t 0 m)) ≤ length out.old }
    ensures { Wrote out.old out.new to (defeat_bytes (pairs_new win.now lose.now ones.now others.now same i t 0 m)) result }
{
    let mut j: usize = 0;
    let mut left = m;
    let mut next = to;
    while 0 < left {
        next = write_pair(win, lose, same, i, t, ones[j], others[j], out, next);
        j += 1;
        left -= 1;
    }
    next
}

// What the first n overrides add.
pub fn append_rules(
    low: &[u64],
    lowers: &[u16],
    n: usize,
    win: &[u64],
    lose: &[u64],
    ones: &[u16],
    others: &[u16],
    m: usize,
    out: &mut [u8],
    to: usize,
) -> usize
    requires n_bound { n ≤ 64 }
    requires n_in_bounds { n ≤ length lowers.now }
    requires below { Below lowers.now n (length low.now) }
    requires m_in_bounds { m ≤ length ones.now }
    requires m_in_bounds_2 { m ≤ length others.now }
    requires below_2 { Below ones.now m (length win.now) }
    requires below_3 { Below others.now m (length win.now) }
    requires lose_len { length lose.now ≡ length win.now }
    requires n_in_bounds_2 { to + length (defeat_bytes (all_new low.now lowers.now win.now lose.now ones.now others.now m 0 n)) ≤ length out.old }
    ensures { Wrote out.old out.new to (defeat_bytes (all_new low.now lowers.now win.now lose.now ones.now others.now m 0 n)) result }
{
    let mut i: usize = 0;
    let mut left = n;
    let mut next = to;
    while 0 < left {
        let t = lowers[i];
        let at = t as usize;
        let position = i as u32;
        let same = low[at] & all_below(position + 1);
        next = write_pairs(win, lose, ones, others, m, same, position, t, out, next);
        i += 1;
        left -= 1;
    }
    next
}
