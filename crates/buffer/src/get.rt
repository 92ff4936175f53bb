// A number of two bytes, the highest first, read from a slice.

ghost use Rattle.std.specs.Prelude.{◌+◌, ◌≤◌, ◌≡◌, length};
ghost use Rattle.buffer.specs.Bytes.{number_at};

pub fn get_number(s: &[u8], at: usize) -> u16
    requires { at + 2 ≤ length s.now }
    ensures { result ≡ number_at s.now at }
{
    u16::from_be_bytes([s[at], s[at + 1]])
}
