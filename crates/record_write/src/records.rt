// A strict rule's header, and the end record.

ghost use Rattle.std.specs.Prelude.{◌+◌, ◌≤◌, ◌≡◌, length};
ghost use Rattle.buffer.specs.Write.{write};
ghost use Rattle.record.specs.Layout.{encoded_end};
ghost use Rattle.record_write.specs.Code.{header};

use buffer::put::put_number;

// The header of a strict rule's record. Store by store: copied from an array of these seven bytes, it goes by way of the stack.
pub fn write_header(heads: u8, positives: u8, nafs: u8, out: &mut [u8], to: usize)
    requires { to + 7 ≤ length out.old }
    ensures { out.new ≡ write out.old to (header heads positives nafs) }
{
    out[to] = b'S';
    out[to + 1] = b':';
    out[to + 2] = 0;
    out[to + 3] = 0;
    out[to + 4] = heads;
    out[to + 5] = positives;
    out[to + 6] = nafs;
}

// The end record.
pub fn write_end(rules: u16, out: &mut [u8], to: usize)
    requires { to + 4 ≤ length out.old }
    ensures { out.new ≡ write out.old to (encoded_end rules) }
{
    out[to] = b'E';
    out[to + 1] = b':';
    put_number(out, to + 2, rules);
}
