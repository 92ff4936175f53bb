// Bytes of a slice, copied into another.

ghost use Rattle.std.specs.Prelude.{◌+◌, ◌≤◌, ◌≡◌, length, take, drop};
ghost use Rattle.buffer.specs.Write.{write};

// Byte by byte: records are short, and the library's copying is a call of C's `memmove` for each, which a caller in C would have to bring.
pub fn copy(s: &[u8], from: usize, count: usize, out: &mut [u8], to: usize)
    requires count_in_bounds { from + count ≤ length s.now }
    requires count_in_bounds_2 { to + count ≤ length out.old }
    ensures { out.new ≡ write out.old to (take count (drop from s.now)) }
{
    for i in 0..count {
        out[to + i] = s[from + i];
    }
}
