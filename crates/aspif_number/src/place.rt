// The place of a literal, taken from its five bytes.

ghost use Rattle.std.specs.Prelude.{◌+◌, ◌≤◌, ◌≡◌, length, drop};
ghost use Rattle.aspif_place.specs.Code.{row_of, place_at};
ghost use Rattle.aspif_number.specs.Code.{shift};

use buffer::get::get_number;

// A row has a place for each number of a kind and tag: `row_places`.
pub const ROW_PLACES: usize = 512;

// The rows of a kind of marks: `tag_rows`.
const TAG_ROWS: usize = 200;

// All rows: `rows`.
const ROWS: usize = 803;

// Until a row is picked, rows are counted from here on: as if kinds 0 and 1 had rows of marks too. So no row is below 0.
const SHIFT: usize = 2 * TAG_ROWS - 1;

// The places that a word holds.
pub const WORD: usize = 64;

// The words that hold all places: `words`.
pub const WORDS: usize = 6424;

// The row of a kind and tag, counted from the shift on. The rows are made before the match, so that it only picks one: kinds come in no
// order that a processor could foresee, and this way it need not. The kind is the record's byte, whose order is the literals': an enum of it
// would be made and taken apart again in the same breath.
fn pick_row(kind: u8, tag: u16) -> usize
    ensures { result ≡ shift + row_of kind tag }
{
    let atoms = SHIFT + kind as usize;
    let marks = TAG_ROWS * kind as usize + tag as usize;
    let last = SHIFT + ROWS - 1;
    match kind {
        0..=1 => atoms,
        2..=5 => marks,
        _ => last,
    }
}

// The place of the literal whose five bytes start at `at`.
pub fn place_at(s: &[u8], at: usize) -> usize
    requires { at + 5 ≤ length s.now }
    ensures { result ≡ place_at (drop at s.now) }
{
    let tag = get_number(s, at + 1);
    let number = get_number(s, at + 3);
    ROW_PLACES * (pick_row(s[at], tag) - SHIFT) + number as usize
}
