// Counting the positions of masks, all of them at once.

ghost use Rattle.std.specs.Prelude.{◌≡◌};
ghost use Rattle.check_pick.specs.Code.{tallied, refined, most_of};

use crate::Tally;

// A tally with each position of a mask counted once more: the carry goes from digit to digit.
pub fn add(t: Tally, m: u64) -> Tally
    ensures { result ≡ tallied t m }
{
    let c1 = t.d0 & m;
    let c2 = t.d1 & c1;
    let c3 = t.d2 & c2;
    let c4 = t.d3 & c3;
    let c5 = t.d4 & c4;
    let c6 = t.d5 & c5;
    let c7 = t.d6 & c6;
    Tally {
        d0: t.d0 ^ m,
        d1: t.d1 ^ c1,
        d2: t.d2 ^ c2,
        d3: t.d3 ^ c3,
        d4: t.d4 ^ c4,
        d5: t.d5 ^ c5,
        d6: t.d6 ^ c6,
        d7: t.d7 ^ c7,
    }
}

// The positions of m that have the digit, or all of m where none has.
fn refine(m: u64, digit: u64) -> u64
    ensures { result ≡ refined m digit }
{
    let kept = m & digit;
    if kept == 0 {
        return m;
    }
    kept
}

// The positions of m that are counted most often.
pub fn most(t: Tally, m: u64) -> u64
    ensures { result ≡ most_of t m }
{
    let m7 = refine(m, t.d7);
    let m6 = refine(m7, t.d6);
    let m5 = refine(m6, t.d5);
    let m4 = refine(m5, t.d4);
    let m3 = refine(m4, t.d3);
    let m2 = refine(m3, t.d2);
    let m1 = refine(m2, t.d1);
    refine(m1, t.d0)
}
