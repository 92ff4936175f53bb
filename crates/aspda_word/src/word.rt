// Answers as 64-bit words.

ghost use Rattle.std.specs.Prelude.{◌≡◌};
ghost use Rattle.aspda_word.specs.Words.{refusal_word, count_word, extent_word, shown_word, verdict_word, check_word};
ghost use Rattle.aspda_word.specs.Code.{ShortPlace, ShortExtent, ShortCount, ShortShown, ShortVerdict, ShortCheck};

use check_set::Verdict;
use record::Refusal;
use record::number::reason_number;
use record_show::Extent;

fn refusal_word(x: Refusal) -> u64
    requires { ShortPlace x }
    ensures { result ≡ refusal_word x }
{
    let reason = x.reason;
    let number = reason_number(reason);
    9223372036854775808 + number as u64 * 4294967296 + x.place as u64
}

pub fn count_word(a: Result<usize, Refusal>) -> u64
    requires { ShortCount a }
    ensures { result ≡ count_word a }
{
    match a {
        Ok(n) => n as u64,
        Err(x) => refusal_word(x),
    }
}

fn extent_word(e: Extent) -> u64
    requires { ShortExtent e }
    ensures { result ≡ extent_word e }
{
    e.start as u64 * 4294967296 + e.size as u64
}

pub fn shown_word(a: Result<Extent, Refusal>) -> u64
    requires { ShortShown a }
    ensures { result ≡ shown_word a }
{
    match a {
        Ok(e) => extent_word(e),
        Err(x) => refusal_word(x),
    }
}

fn verdict_word(v: Verdict) -> u64
    requires { ShortVerdict v }
    ensures { result ≡ verdict_word v }
{
    match v {
        Verdict::Clash(position) => 4294967296 + position as u64,
        Verdict::Broken(rule) => 8589934592 + rule.0 as u64,
        Verdict::Smaller(length) => 12884901888 + length as u64,
        Verdict::Yes => 0,
    }
}

pub fn check_word(a: Result<Verdict, Refusal>) -> u64
    requires { ShortCheck a }
    ensures { result ≡ check_word a }
{
    match a {
        Ok(v) => verdict_word(v),
        Err(x) => refusal_word(x),
    }
}
