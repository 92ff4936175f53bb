// The lines of rules whose numbers were looked up before: they stand in an array, rule behind rule. A line is made in a buffer that is
// our own. What stands there behind the text made so far does not matter, so a store may be wider than what it stands for.

ghost use Rattle.std.specs.Prelude.{◌+◌, ◌*◌, ◌≤◌, ◌≡◌, false, [], ◌∷◌, length};
ghost use Rattle.buffer.specs.Write.{write, Begun};
ghost use Rattle.aspif_text.specs.Text.{blank, field, fields, body_text, rule_line};
ghost use Rattle.aspif_number.specs.Code.{literal_count, Records};
ghost use Rattle.aspif_rule.specs.Code.{head_text, ground_of, lines_of};

use crate::fields::put_field;
use crate::word::{put_end, put_word};
use aspif_number::marks::count_literals;
use decimal::table::Table;
use record_walk::size::record_size;

// A count's field; where it ends. Most counts have one figure.
fn put_count(n: u32, table: Table, text: &mut [u8], at: usize) -> usize
    requires { at + 12 ≤ length text.old }
    ensures begun { Begun text.old text.new at (field false n) result }
    ensures upper_bound { result ≤ at + 12 }
{
    if n < 10 {
        return put_word(text, at, b'0' + n as u8);
    }
    put_field(false, n, table, text, at)
}

// The fields of numbers; where they end.
fn put_run(numbers: &[u32], naf: bool, table: Table, text: &mut [u8], to: usize) -> usize
    requires { to + 12 * length numbers.now ≤ length text.old }
    ensures begun { Begun text.old text.new to (fields naf numbers.now) result }
    ensures upper_bound { result ≤ to + 12 * length numbers.now }
{
    let mut next = to;
    for n in numbers {
        next = put_field(naf, *n, table, text, next);
    }
    next
}

// `1 0`: a rule, of whose head some number holds.
fn put_mark(text: &mut [u8], to: usize)
    requires { to + 3 ≤ length text.old }
    ensures { text.new ≡ write text.old to (0x31 ∷ blank ∷ 0x30 ∷ []) }
{
    text[to..to + 3].copy_from_slice(b"1 0");
}

// The line up to the head's last number; where it ends.
fn put_head(heads: &[u32], table: Table, text: &mut [u8], to: usize) -> usize
    requires few { length heads.now ≤ 64 }
    requires heads_in_bounds { to + 15 + 12 * length heads.now ≤ length text.old }
    ensures begun { Begun text.old text.new to (head_text heads.now) result }
    ensures upper_bound { result ≤ to + 15 + 12 * length heads.now }
{
    put_mark(text, to);
    let at = put_count(heads.len() as u32, table, text, to + 3);
    put_run(heads, false, table, text, at)
}

// The body: its count, the positive numbers, those under naf, and the line's end; where it ends.
fn put_body(positives: &[u32], nafs: &[u32], table: Table, text: &mut [u8], to: usize) -> usize
    requires few { length positives.now + length nafs.now ≤ 64 }
    requires nafs_in_bounds { to + 13 + 12 * (length positives.now + length nafs.now) ≤ length text.old }
    ensures begun { Begun text.old text.new to (body_text positives.now nafs.now) result }
    ensures upper_bound { result ≤ to + 13 + 12 * (length positives.now + length nafs.now) }
{
    let count = positives.len() + nafs.len();
    let counted = put_count(count as u32, table, text, to);
    let then = put_run(positives, false, table, text, counted);
    let end = put_run(nafs, true, table, text, then);
    put_end(text, end)
}

// The line of the rule whose record starts the part, its numbers from the front of `numbers`; where it ends.
fn put_line(part: &[u8], numbers: &[u32], table: Table, text: &mut [u8], to: usize) -> usize
    requires in_bounds { 7 ≤ length part.now }
    requires few { literal_count part.now ≤ 64 }
    requires part_in_bounds { literal_count part.now ≤ length numbers.now }
    requires part_in_bounds_2 { to + 30 + 12 * literal_count part.now ≤ length text.old }
    ensures begun { Begun text.old text.new to (rule_line (ground_of part.now numbers.now)) result }
    ensures upper_bound { result ≤ to + 30 + 12 * literal_count part.now }
{
    let (heads, body) = numbers.split_at(part[4] as usize);
    let (positives, behind) = body.split_at(part[5] as usize);
    let nafs = &behind[..part[6] as usize];
    let at = put_head(heads, table, text, to);
    // A body without weights.
    let weightless = put_word(text, at, b'0');
    put_body(positives, nafs, table, text, weightless)
}

// The lines of `rules` rules whose records start the part, their numbers from the front of `numbers`; where they end. A line has at most 64
// fields of 12 bytes, and 30 bytes more.
pub fn put_lines(part: &[u8], rules: usize, numbers: &[u32], table: Table, text: &mut [u8]) -> usize
    requires records { Records part.now rules }
    requires rules_in_bounds { 64 * rules ≤ length numbers.now }
    requires rules_in_bounds_2 { 798 * rules ≤ length text.old }
    ensures { Begun text.old text.new 0 (lines_of part.now numbers.now rules) result }
{
    let mut here = part;
    let mut left = numbers;
    let mut next: usize = 0;
    for _ in 0..rules {
        next = put_line(here, left, table, text, next);
        left = &left[count_literals(here[4], here[5], here[6])..];
        here = &here[record_size(here)..];
    }
    next
}
