// A refusal's R: record.

ghost use Rattle.std.specs.Prelude.{◌≤◌, ◌<◌, ◌≡◌, length};
ghost use Rattle.buffer.specs.Write.{write};
ghost use Rattle.record.specs.Refusal.{encoded_refusal};

use buffer::put::put_number;
use record::Refusal;
use record::number::reason_number;

// The R: record, at the start of a slice.
pub fn write_refusal(x: Refusal, out: &mut [u8])
    requires place_bound { x.place < 4294967296 }
    requires in_bounds { 7 ≤ length out.old }
    ensures { out.new ≡ write out.old 0 (encoded_refusal x) }
{
    let place = x.place;
    let high = place / 65536;
    let low = place % 65536;
    let reason = x.reason;
    let number = reason_number(reason);
    out[0] = b'R';
    out[1] = b':';
    out[2] = number;
    put_number(out, 3, high as u16);
    put_number(out, 5, low as u16);
}
