// The line of the rule whose record starts a part, measured.

ghost use Rattle.std.specs.Prelude.{◌+◌, ◌*◌, ◌≤◌, ◌≡◌, length};
ghost use Rattle.record_walk.specs.Code.{record_size};
ghost use Rattle.aspif_text.specs.Text.{rule_line};
ghost use Rattle.aspif_place.specs.Code.{words};
ghost use Rattle.aspif_number.specs.Code.{Room, places_at, literal_count};
ghost use Rattle.aspif_rule.specs.Code.{ground_at, CountsLong, Long};

use crate::fields::{measure_field, measure_run};
use crate::numbering::Numbering;
use aspif_number::marks::count_literals;

// Two of a record's counts together.
pub fn add_counts(positives: u8, nafs: u8) -> u32
    ensures { result ≡ positives + nafs }
{
    positives as u32 + nafs as u32
}

// The length of a line without its numbers, by its counts: a minus for each naf literal is among it.
fn measure_counts(heads: u8, positives: u8, nafs: u8) -> usize
    ensures { CountsLong heads positives nafs result }
{
    let fields = measure_field(heads as u32) + measure_field(add_counts(positives, nafs));
    6 + nafs as usize + fields
}

// The line's length.
pub fn measure_rule(part: &[u8], numbering: &Numbering) -> usize
    requires whole { record_size part.now ≤ length part.now }
    requires room { Room words (places_at part.now 7 (literal_count part.now)) }
    ensures { Long result (rule_line (ground_at numbering.now part.now)) (12 * record_size part.now) }
{
    let heads = part[4];
    let positives = part[5];
    let nafs = part[6];
    let count = count_literals(heads, positives, nafs);
    measure_counts(heads, positives, nafs) + measure_run(part, 7, count, numbering)
}
