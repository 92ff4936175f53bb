// A byte with a blank before it, and the end of a line.

ghost use Rattle.std.specs.Prelude.{◌+◌, ◌≤◌, [], ◌∷◌, length};
ghost use Rattle.buffer.specs.Write.{Wrote};
ghost use Rattle.aspif_text.specs.Text.{blank, line_end};

use buffer::put::put_byte;

// A blank and a byte; where they end.
pub fn put_word(out: &mut [u8], at: usize, b: u8) -> usize
    requires { at + 2 ≤ length out.old }
    ensures { Wrote out.old out.new at (blank ∷ b ∷ []) result }
{
    put_byte(out, at, b' ');
    put_byte(out, at + 1, b);
    at + 2
}

// The line's end; where the next line starts.
pub fn put_end(out: &mut [u8], at: usize) -> usize
    requires { at + 1 ≤ length out.old }
    ensures { Wrote out.old out.new at (line_end ∷ []) result }
{
    put_byte(out, at, b'\n');
    at + 1
}
