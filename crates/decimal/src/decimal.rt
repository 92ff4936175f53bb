// A number's decimal: its figures counted, and put into a lent slice.

ghost use Rattle.std.specs.Prelude.{◌+◌, ◌≤◌, ◌<◌, ◌≡◌, length};
ghost use Rattle.buffer.specs.Write.{write, Wrote};
ghost use Rattle.decimal.specs.Decimal.{decimal};
ghost use Rattle.decimal.specs.Code.{Counted, four_figures, Packed};

// How many figures a number has: one, and one more for each power of 10 that it has reached. Most numbers are small, and how
// many figures they have can't be foretold: there is no branch on it.
pub fn count_figures(n: u32) -> usize
    ensures { Counted n result }
{
    let few = 1
        + (n >= 10) as usize
        + (n >= 100) as usize
        + (n >= 1000) as usize
        + (n >= 10000) as usize;
    if n < 100000 {
        return few;
    }
    few + (n >= 100000) as usize
        + (n >= 1000000) as usize
        + (n >= 10000000) as usize
        + (n >= 100000000) as usize
        + (n >= 1000000000) as usize
}

// Four figures in one number, the first in its lowest byte. The two pairs of figures stand in one number, so that one product has the
// tens of both: 103 / 1024 of a pair is a tenth of it, rounded down. The first pair's tens are below 16, the other's from 65536 on, and
// what is between is a rest. A pair that stands a byte higher, less 2559 times its tens, is its tens and, a byte higher, its ones.
fn pack_four(n: u32) -> u32
    requires { n < 10000 }
    ensures { Packed n result }
{
    let pairs = n / 100 + n % 100 * 65536;
    let scaled = pairs * 103 / 1024;
    let tens = scaled % 16 + scaled / 65536 * 65536;
    pairs * 256 - tens * 2559 + 0x30303030
}

// Four figures, with zeros before a number that has fewer, in one store.
fn write_four(n: u32, out: &mut [u8], at: usize)
    requires n_bound { n < 10000 }
    requires at_in_bounds { at + 4 ≤ length out.old }
    ensures { out.new ≡ write out.old at (four_figures n) }
{
    out[at..at + 4].copy_from_slice(&pack_four(n).to_le_bytes());
}

// The decimal of a number of four or five figures; where it ends. The first of five is always stored: of four, the others are stored
// over it. There is no branch, since which it is can't be foretold.
fn write_more(n: u32, out: &mut [u8], at: usize) -> usize
    requires le_n { 1000 ≤ n }
    requires n_bound { n < 100000 }
    requires n_in_bounds { at + length (decimal n) ≤ length out.old }
    ensures { Wrote out.old out.new at (decimal n) result }
{
    out[at] = b'0' + (n / 10000) as u8;
    let to = at + (n >= 10000) as usize;
    write_four(n % 10000, out, to);
    to + 4
}

// The decimal of a number of at most three figures; where it ends.
fn write_few(n: u32, out: &mut [u8], at: usize) -> usize
    requires n_bound { n < 1000 }
    requires n_in_bounds { at + length (decimal n) ≤ length out.old }
    ensures { Wrote out.old out.new at (decimal n) result }
{
    if n >= 100 {
        out[at] = b'0' + (n / 100) as u8;
        out[at + 1] = b'0' + (n / 10 % 10) as u8;
        out[at + 2] = b'0' + (n % 10) as u8;
        return at + 3;
    }
    if n >= 10 {
        out[at] = b'0' + (n / 10) as u8;
        out[at + 1] = b'0' + (n % 10) as u8;
        return at + 2;
    }
    out[at] = b'0' + n as u8;
    at + 1
}

// The decimal of a number of six figures or more; where it ends. The figures are stored from the last to the first.
fn write_many(n: u32, out: &mut [u8], at: usize) -> usize
    requires { at + length (decimal n) ≤ length out.old }
    ensures { Wrote out.old out.new at (decimal n) result }
{
    let end = at + count_figures(n);
    let mut left = n;
    for to in (at..end).rev() {
        out[to] = b'0' + (left % 10) as u8;
        left /= 10;
    }
    end
}

// The decimal of a number; where it ends.
pub fn write_decimal(n: u32, out: &mut [u8], at: usize) -> usize
    requires { at + length (decimal n) ≤ length out.old }
    ensures { Wrote out.old out.new at (decimal n) result }
{
    if n >= 100000 {
        return write_many(n, out, at);
    }
    if n >= 1000 {
        return write_more(n, out, at);
    }
    write_few(n, out, at)
}
