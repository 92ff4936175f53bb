// The two passes over a program that was read and whose literals are numbered: its rules' lines measured, and written.

ghost use Rattle.std.specs.Prelude.{◌+◌, ◌*◌, ◌≤◌, ◌<◌, ◌≡◌, length};
ghost use Rattle.buffer.specs.Write.{Wrote};
ghost use Rattle.record_walk.specs.Code.{Holds};
ghost use Rattle.aspif_place.specs.Code.{words};
ghost use Rattle.aspif_number.specs.Code.{Records, Rooms, records_size};
ghost use Rattle.aspif_rule.specs.Code.{Long, lines_at};
ghost use Rattle.aspif.specs.Code.{Numberable, Fitting, rule_lines};

use aspif_number::block::number_rules;
use aspif_rule::lines::put_lines;
use aspif_rule::numbering::Numbering;
use aspif_rule::rules::measure_rule;
use decimal::table::{Table, fill_table};
use record_walk::records;
use record_write::copy::copy;

// The rules of a block. Their numbers are looked up one after the other before their lines are made: each look-up waits for memory, and
// by itself it waits for nothing else.
const BLOCK_RULES: usize = 8;

// Places for the numbers of a block, and for its lines.
const BLOCK_NUMBERS: usize = 512;

const BLOCK_TEXT: usize = 6384;

// The numbers whose figures are in the table.
const FIGURES: usize = 1000;

// What a block's lines are made in: what its literals' numbers are made of, these numbers, and the text.
#[derive(Drop)]
struct Block {
    masks: [u64; BLOCK_NUMBERS],
    numbers: [u32; BLOCK_NUMBERS],
    text: [u8; BLOCK_TEXT],
}

// What a block's lines were made from and to: its bytes in the program, and where the lines end.
#[derive(Clone, Copy)]
struct Made {
    size: usize,
    next: usize,
}

// The length of the rules' lines.
pub fn measure_rules(s: &[u8], numbering: &Numbering) -> usize
    requires { Holds Numberable s.now }
    ensures { (w : Holds Numberable s.now) → Long result (rule_lines numbering.now w.program) (12 * length s.now) }
{
    let mut total: usize = 0;
    for part in records::Records::new(s) {
        total += measure_rule(part, numbering);
    }
    total
}

// The lines of a block of rules whose records start the part; they are made in the block's text and copied.
fn write_block(
    part: &[u8],
    rules: usize,
    numbering: &Numbering,
    table: Table,
    block: &mut Block,
    out: &mut [u8],
    to: usize,
) -> Made
    requires rules_bound { rules ≤ 8 }
    requires records { Records part.now rules }
    requires rooms { Rooms words part.now rules }
    requires rules_in_bounds { to + length (lines_at numbering.now part.now rules) ≤ length out.old }
    ensures size_value { result.size ≡ records_size part.now rules }
    ensures wrote { Wrote out.old out.new to (lines_at numbering.now part.now rules) result.next }
{
    let size = number_rules(
        part,
        rules,
        numbering.bits,
        numbering.counts,
        &mut block.masks,
        &mut block.numbers,
    );
    let n = put_lines(part, rules, &block.numbers, table, &mut block.text);
    copy(&block.text, 0, n, out, to);
    Made { size, next: to + n }
}

// The lines of all rules, block by block; where they end. The last block may have fewer rules, so the loop takes away what each has.
fn write_blocks(
    s: &[u8],
    rules: usize,
    numbering: &Numbering,
    table: Table,
    block: &mut Block,
    out: &mut [u8],
    to: usize,
) -> usize
    requires { Holds (Fitting rules numbering.now to (length out.old)) s.now }
    ensures { (w : Holds (Fitting rules numbering.now to (length out.old)) s.now) → Wrote out.old out.new to (rule_lines numbering.now w.program) result }
{
    let mut at: usize = 0;
    let mut next = to;
    let mut left = rules;
    while 0 < left {
        let count = left.min(BLOCK_RULES);
        let made = write_block(&s[at..], count, numbering, table, block, out, next);
        at += made.size;
        next = made.next;
        left -= count;
    }
    next
}

// The rules' lines; where they end.
pub fn write_rules(
    s: &[u8],
    rules: usize,
    numbering: &Numbering,
    out: &mut [u8],
    to: usize,
) -> usize
    requires { Holds (Fitting rules numbering.now to (length out.old)) s.now }
    ensures { (w : Holds (Fitting rules numbering.now to (length out.old)) s.now) → Wrote out.old out.new to (rule_lines numbering.now w.program) result }
{
    let mut entries = [0u32; FIGURES];
    fill_table(&mut entries);
    let table = Table { entries: &entries };
    let mut block = Block {
        masks: [0; BLOCK_NUMBERS],
        numbers: [0; BLOCK_NUMBERS],
        text: [0; BLOCK_TEXT],
    };
    write_blocks(s, rules, numbering, table, &mut block, out, to)
}
