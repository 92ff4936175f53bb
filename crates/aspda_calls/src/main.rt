// A program that calls every entry point that Rattle code has, on document 01's marked examples and document 02's program with
// the fact 1, assembles a program, and tells what each answers.
// tests/calls.py makes the same lines from the reference alone.

#![tactic(auto)]

mod ask;
mod tell;

use crate::tell::{Teller, front};
use assembly_value::Assembly;
use extend::extend::extend_source;
use std::io;
use translate::translate::translate_source;

// Room for every result here: M3's translation has 433 bytes, and so has its text.
const ROOM: usize = 512;

// A plain program's text.
fn text(rt: &impl Print, example: &str, s: &[u8]) -> io::Result<()> {
    let mut out = [0u8; ROOM];
    Teller::new(rt, example).ask_text(s, &mut out)
}

// A plain program, and its text.
fn plain(rt: &impl Print, example: &str, s: &[u8]) -> io::Result<()> {
    Teller::new(rt, example).ask_program(s)?;
    text(rt, example, s)
}

// A source, and its translation.
fn source(rt: &impl Print, example: &str, translated: &str, s: &[u8]) -> io::Result<()> {
    let mut out = [0u8; ROOM];
    let teller = Teller::new(rt, example);
    teller.ask_program(s)?;
    let a = translate_source(s, &mut out);
    teller.written("translate_source", a, &out)?;
    plain(rt, translated, front(&out, a.unwrap_or(0)))
}

// A set beside a program.
fn set(rt: &impl Print, example: &str, s: &[u8], k: &[u8]) -> io::Result<()> {
    let mut out = [0u8; ROOM];
    Teller::new(rt, example).ask_set(s, k, &mut out)
}

// A set beside a source, and its extension beside the translation.
fn source_set(
    rt: &impl Print,
    example: &str,
    translated: &str,
    s: &[u8],
    k: &[u8],
) -> io::Result<()> {
    let mut plain = [0u8; ROOM];
    let mut extension = [0u8; ROOM];
    set(rt, example, s, k)?;
    let n = translate_source(s, &mut plain).unwrap_or(0);
    let m = extend_source(s, k, &mut extension).unwrap_or(0);
    set(rt, translated, front(&plain, n), front(&extension, m))
}

// Tag 7: 1. Its translation has 94 bytes; 93 are too few.
fn m1(rt: &impl Print) -> io::Result<()> {
    let s = b"D:\x00\x07\x01\x00\x00\x00\x00\x00\x00\x01E:\x00\x01";
    let mut exact = [0u8; 94];
    let mut short = [0u8; 93];
    source(rt, "M1", "M1 translated", s)?;
    Teller::new(rt, "M1").ask_rule(s, 0)?;
    Teller::new(rt, "M1").ask_rule(s, 2)?;
    Teller::new(rt, "M1 into 94 bytes").ask_translate(s, &mut exact)?;
    Teller::new(rt, "M1 into 93 bytes").ask_translate(s, &mut short)?;
    text(rt, "M1", s)?;
    source_set(
        rt,
        "M1 {1}",
        "M1 {1} translated",
        s,
        b"A:\x00\x01\x00\x00\x00\x00\x01",
    )
}

// No bytes.
fn m2(rt: &impl Print) -> io::Result<()> {
    let mut out = [0u8; ROOM];
    Teller::new(rt, "M2").ask_program(b"")?;
    Teller::new(rt, "M2").ask_translate(b"", &mut out)?;
    Teller::new(rt, "M2").ask_text(b"", &mut out)?;
    set(rt, "M2 {}", b"", b"A:\x00\x00")
}

// 000's Example 1, and its four answer sets.
fn m3(rt: &impl Print) -> io::Result<()> {
    let s = b"D:\x00\x01\x03\x00\x00\x00\x00\x00\x00\x01\x00\x00\x00\x00\x02\x00\x00\x00\x00\x03\
        D:\x00\x02\x02\x00\x00\x00\x00\x00\x00\x04\x00\x00\x00\x00\x05\
        S:\x00\x00\x01\x01\x00\x02\x00\x02\x00\x04\x00\x00\x00\x00\x01\
        S:\x00\x00\x01\x01\x00\x02\x00\x02\x00\x05\x00\x00\x00\x00\x01\
        S:\x00\x00\x01\x01\x00\x02\x00\x02\x00\x05\x00\x00\x00\x00\x02E:\x00\x05";
    let first = b"A:\x00\x03\x00\x00\x00\x00\x01\x02\x00\x02\x00\x04\x02\x00\x02\x00\x05";
    let second = b"A:\x00\x03\x00\x00\x00\x00\x02\x00\x00\x00\x00\x04\x02\x00\x02\x00\x05";
    let third = b"A:\x00\x02\x00\x00\x00\x00\x03\x00\x00\x00\x00\x04";
    let fourth = b"A:\x00\x02\x00\x00\x00\x00\x03\x00\x00\x00\x00\x05";
    source(rt, "M3", "M3 translated", s)?;
    Teller::new(rt, "M3").ask_rule(s, 5)?;
    source_set(rt, "M3 first", "M3 first translated", s, first)?;
    source_set(rt, "M3 second", "M3 second translated", s, second)?;
    source_set(rt, "M3 third", "M3 third translated", s, third)?;
    source_set(rt, "M3 fourth", "M3 fourth translated", s, fourth)
}

// 1; tag 7: 1 if 2.
fn m4(rt: &impl Print) -> io::Result<()> {
    let s = b"S:\x00\x00\x01\x00\x00\x00\x00\x00\x00\x01\
        D:\x00\x07\x01\x01\x00\x00\x00\x00\x00\x01\x00\x00\x00\x00\x02E:\x00\x02";
    source(rt, "M4", "M4 translated", s)?;
    source_set(
        rt,
        "M4 {1}",
        "M4 {1} translated",
        s,
        b"A:\x00\x01\x00\x00\x00\x00\x01",
    )
}

// Tag 7: 1; tag 7: 2; defeated (7, 1). The set is {2, defeated (7, 1)}.
fn m5(rt: &impl Print) -> io::Result<()> {
    let s = b"D:\x00\x07\x01\x00\x00\x00\x00\x00\x00\x01\
        D:\x00\x07\x01\x00\x00\x00\x00\x00\x00\x02\
        S:\x00\x00\x01\x00\x00\x02\x00\x07\x00\x01E:\x00\x03";
    let k = b"A:\x00\x02\x00\x00\x00\x00\x02\x02\x00\x07\x00\x01";
    source(rt, "M5", "M5 translated", s)?;
    source_set(rt, "M5 set", "M5 set translated", s, k)
}

// 1 or 2. A set that does not ascend is refused, and one without its mark; so is a buffer of three bytes.
fn m6(rt: &impl Print) -> io::Result<()> {
    let s = b"S:\x00\x00\x02\x00\x00\x00\x00\x00\x00\x01\x00\x00\x00\x00\x02E:\x00\x01";
    let k = b"A:\x00\x02\x00\x00\x00\x00\x01\x00\x00\x00\x00\x02";
    let mut short = [0u8; 3];
    Teller::new(rt, "M6").ask_program(s)?;
    Teller::new(rt, "M6").ask_rule(s, 2)?;
    text(rt, "M6", s)?;
    set(rt, "M6 {1, 2}", s, k)?;
    set(
        rt,
        "M6 {2, 1}",
        s,
        b"A:\x00\x02\x00\x00\x00\x00\x02\x00\x00\x00\x00\x01",
    )?;
    set(rt, "M6 no set", s, b"S:\x00\x00")?;
    Teller::new(rt, "M6 {1, 2} into 3 bytes").ask_set(s, k, &mut short)
}

// No rules, and an atom with its negation.
fn m7(rt: &impl Print) -> io::Result<()> {
    let k = b"A:\x00\x02\x00\x00\x00\x00\x01\x01\x00\x00\x00\x01";
    set(rt, "M7 {1, negated 1}", b"E:\x00\x00", k)
}

// A rule without head or body.
fn m8(rt: &impl Print) -> io::Result<()> {
    let s = b"S:\x00\x00\x00\x00\x00E:\x00\x01";
    plain(rt, "M8", s)?;
    set(rt, "M8 {}", s, b"A:\x00\x00")
}

// No rules.
fn m9(rt: &impl Print) -> io::Result<()> {
    let s = b"E:\x00\x00";
    plain(rt, "M9", s)?;
    set(rt, "M9 {}", s, b"A:\x00\x00")?;
    set(rt, "M9 {1}", s, b"A:\x00\x01\x00\x00\x00\x00\x01")
}

// 1. Its text has 35 bytes; 34 are too few.
fn fact(rt: &impl Print) -> io::Result<()> {
    let s = b"S:\x00\x00\x01\x00\x00\x00\x00\x00\x00\x01E:\x00\x01";
    let mut exact = [0u8; 35];
    let mut short = [0u8; 34];
    plain(rt, "fact", s)?;
    Teller::new(rt, "fact into 35 bytes").ask_text(s, &mut exact)?;
    Teller::new(rt, "fact into 34 bytes").ask_text(s, &mut short)
}

// M1's rule and the fact 1, assembled; then a rule more, which is dropped. An end record is no rule's, 27 bytes are one too few for both
// rules and an end record, and what is closed takes no rule.
fn assembly(rt: &impl Print) -> io::Result<()> {
    let rule = b"D:\x00\x07\x01\x00\x00\x00\x00\x00\x00\x01";
    let fact = b"S:\x00\x00\x01\x00\x00\x00\x00\x00\x00\x01";
    let mut out = [0u8; 64];
    let mut short = [0u8; 27];
    let fresh = Teller::new(rt, "assembly not begun").ask_drop(Assembly::new())?;
    Teller::new(rt, "assembly not begun").ask_state(fresh)?;
    let begun = Teller::new(rt, "assembly").ask_begin(fresh, &out)?;
    let one = Teller::new(rt, "assembly").ask_add(begun, rule, &mut out)?;
    let same = Teller::new(rt, "assembly into 27 bytes").ask_add(one, fact, &mut short)?;
    let two = Teller::new(rt, "assembly").ask_add(same, fact, &mut out)?;
    let three = Teller::new(rt, "assembly").ask_add(two, rule, &mut out)?;
    let dropped = Teller::new(rt, "assembly").ask_drop(three)?;
    let still = Teller::new(rt, "assembly end record").ask_add(dropped, b"E:\x00\x02", &mut out)?;
    Teller::new(rt, "assembly").ask_state(still)?;
    let closed = Teller::new(rt, "assembly").ask_close(still, &mut out)?;
    Teller::new(rt, "assembly closed").ask_state(closed)?;
    Teller::new(rt, "assembled").ask_program(front(&out, closed.measure()))?;
    Teller::new(rt, "assembly closed").ask_add(closed, rule, &mut out)?;
    Ok(())
}

fn main(rt: HostRuntime) -> io::Result<()> {
    m1(&rt)?;
    m2(&rt)?;
    m3(&rt)?;
    m4(&rt)?;
    m5(&rt)?;
    m6(&rt)?;
    m7(&rt)?;
    m8(&rt)?;
    m9(&rt)?;
    fact(&rt)?;
    assembly(&rt)
}
