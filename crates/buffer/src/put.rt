// A byte, a number as two bytes, the highest first, and one as eight bytes, the lowest first, put into a lent slice.

ghost use Rattle.std.specs.Prelude.{◌+◌, ◌≤◌, ◌≡◌, [], ◌∷◌, length};
ghost use Rattle.buffer.specs.Bytes.{two_bytes, eight_bytes};
ghost use Rattle.buffer.specs.Write.{write};

pub fn put_byte(out: &mut [u8], at: usize, b: u8)
    requires { at + 1 ≤ length out.old }
    ensures { out.new ≡ write out.old at (b ∷ []) }
{
    out[at] = b;
}

pub fn put_number(out: &mut [u8], at: usize, n: u16)
    requires { at + 2 ≤ length out.old }
    ensures { out.new ≡ write out.old at (two_bytes n) }
{
    out[at..at + 2].copy_from_slice(&n.to_be_bytes());
}

// The lowest byte first.
pub fn put_eight(out: &mut [u8], at: usize, v: u64)
    requires { at + 8 ≤ length out.old }
    ensures { out.new ≡ write out.old at (eight_bytes v) }
{
    out[at..at + 8].copy_from_slice(&v.to_le_bytes());
}
