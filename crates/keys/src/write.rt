// Keys written as the literals that they are.

ghost use Rattle.std.specs.Prelude.{◌+◌, ◌*◌, ◌≤◌, ◌<◌, ◌≡◌, length};
ghost use Rattle.buffer.specs.Write.{write};
ghost use Rattle.keys.specs.Code.{bytes_of, key_bytes, Fitting};

use buffer::put::{put_byte, put_number};

// The five bytes of a key, put at a place.
fn write_key(key: u64, out: &mut [u8], at: usize)
    requires key_bound { key < 1099511627776 }
    requires at_in_bounds { at + 5 ≤ length out.old }
    ensures { out.new ≡ write out.old at (bytes_of key) }
{
    let kind = key / 4294967296;
    let tag = key / 65536 % 65536;
    let atom = key % 65536;
    put_byte(out, at, kind as u8);
    put_number(out, at + 1, tag as u16);
    put_number(out, at + 3, atom as u16);
}

// Keys, as literals one behind the other.
pub fn write_keys(keys: &[u64], out: &mut [u8], to: usize)
    requires keys_in_bounds { to + 5 * length keys.now ≤ length out.old }
    requires fitting { Fitting keys.now }
    ensures { out.new ≡ write out.old to (key_bytes keys.now) }
{
    for (i, key) in keys.iter().enumerate() {
        write_key(*key, out, to + 5 * i);
    }
}
