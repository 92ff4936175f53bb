// What stands before the literals of an A: record.

ghost use Rattle.std.specs.Prelude.{◌≤◌, ◌≡◌, length};
ghost use Rattle.buffer.specs.Write.{write};
ghost use Rattle.set.specs.Code.{set_header};

use buffer::put::put_number;

// The mark and the number of literals, at the slice's start.
pub fn write_set_header(count: u16, out: &mut [u8])
    requires { 4 ≤ length out.old }
    ensures { out.new ≡ write out.old 0 (set_header count) }
{
    out[0] = b'A';
    out[1] = b':';
    put_number(out, 2, count);
}
