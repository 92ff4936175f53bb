// What the filter program does between reading and writing.

ghost use Rattle.std.specs.Prelude.{◌≤◌, ◌≡◌, length, take};
ghost use Rattle.filter_print.specs.Filter.{input_size, output_size, filtered, Prints};

use literal::form::Source;
use record_write::refusal::write_refusal;
use translate::translate::translate_source;

// The input buffer's size: one byte above the source limit, so that excess shows as refusal 1.
pub const INPUT: usize = Source::LENGTH + 1;

// The output buffer's size.
pub const OUTPUT: usize = 65536;

// Leaves at the start of `out` what is to be printed of the first `got` bytes of `input`, their translation or an R: record,
// and answers how many bytes that is.
pub fn filter_translate(input: &[u8], got: usize, out: &mut [u8]) -> usize
    requires input_len { length input.now ≡ input_size }
    requires got_le_input_size { got ≤ input_size }
    requires out_len { length out.old ≡ output_size }
    ensures { Prints (filtered (take got input.now)) out.old result out.new }
{
    match translate_source(&input[..got], out) {
        Ok(n) => n,
        Err(x) => {
            write_refusal(x, out);
            7
        }
    }
}
