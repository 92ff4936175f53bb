// The exported functions. A slice is a pointer and a length; include/aspda.h has them in C's words.

ghost use Rattle.std.specs.Prelude.{◌≡◌, []};
ghost use Rattle.literal.specs.Limits.{source, plain};
ghost use Rattle.record.specs.Reading.{reading};
ghost use Rattle.record_show.specs.Show.{shown};
ghost use Rattle.translate.specs.Translate.{translated};
ghost use Rattle.quotient.specs.Quotient.{quotiented};
ghost use Rattle.aspif.specs.Aspif.{exported};
ghost use Rattle.extend.specs.Extend.{extended};
ghost use Rattle.restrict.specs.Restrict.{restricted};
ghost use Rattle.check_set.specs.Check.{checked};
ghost use Rattle.assembly.specs.Calls.{begin, add, drop_last, close, called, assembled};
ghost use Rattle.aspda_word.specs.Words.{count_word, shown_word, KeepsWord, CallsWord, MeetsWord, MeetsVerdict};

use aspda_word::word::{check_word, count_word, shown_word};
use aspif::aspif::export_plain;
use assembly_call::call::{add_record, begin_state, close_state, drop_last, measure_state};
use check_set::proposed::{check_plain, check_source};
use extend::extend::extend_source;
use quotient::quotient::{quotient_plain, quotient_source};
use record_read::read::{read_plain, read_source};
use record_show::show::{find_plain, find_source};
use restrict::restrict::restrict_plain;
use translate::translate::translate_source;

// The number of rules of a source, or the refusal.
#[unsafe(no_mangle)]
pub extern "C" fn aspda_read_source(s: &[u8]) -> u64
    ensures { result ≡ count_word (reading source s.now) }
{
    count_word(read_source(s))
}

// The number of rules of a plain program, or the refusal.
#[unsafe(no_mangle)]
pub extern "C" fn aspda_read_plain(s: &[u8]) -> u64
    ensures { result ≡ count_word (reading plain s.now) }
{
    count_word(read_plain(s))
}

// The translation of a source, written to the start of `out`: its length, or the refusal.
#[unsafe(no_mangle)]
pub extern "C" fn aspda_translate(s: &[u8], out: &mut [u8]) -> u64
    ensures { MeetsWord (translated source s.now out.old) result out.new }
{
    count_word(translate_source(s, out))
}

// The quotient of a source by a source set, written to the start of `out`: its length, or the refusal.
#[unsafe(no_mangle)]
pub extern "C" fn aspda_quotient_source(s: &[u8], k: &[u8], out: &mut [u8]) -> u64
    ensures { MeetsWord (quotiented source s.now k.now out.old) result out.new }
{
    count_word(quotient_source(s, k, out))
}

// The quotient of a plain program by a plain set, written to the start of `out`: its length, or the refusal.
#[unsafe(no_mangle)]
pub extern "C" fn aspda_quotient_plain(s: &[u8], k: &[u8], out: &mut [u8]) -> u64
    ensures { MeetsWord (quotiented plain s.now k.now out.old) result out.new }
{
    count_word(quotient_plain(s, k, out))
}

// The aspif text of a plain program, written to the start of `out`: its length, or the refusal.
#[unsafe(no_mangle)]
pub extern "C" fn aspda_aspif(s: &[u8], out: &mut [u8]) -> u64
    ensures { MeetsWord (exported plain s.now out.old) result out.new }
{
    count_word(export_plain(s, out))
}

// The extension of a source set by a source, written to the start of `out`: its length, or the refusal.
#[unsafe(no_mangle)]
pub extern "C" fn aspda_extend(s: &[u8], k: &[u8], out: &mut [u8]) -> u64
    ensures { MeetsWord (extended source s.now k.now out.old) result out.new }
{
    count_word(extend_source(s, k, out))
}

// The restriction of a plain set, written to the start of `out`: its length, or the refusal.
#[unsafe(no_mangle)]
pub extern "C" fn aspda_restrict(k: &[u8], out: &mut [u8]) -> u64
    ensures { MeetsWord (restricted plain k.now out.old) result out.new }
{
    count_word(restrict_plain(k, out))
}

// Whether a set is an answer set of a source: the verdict, or the refusal. A smaller model is written to the start of `out`.
#[unsafe(no_mangle)]
pub extern "C" fn aspda_check_source(s: &[u8], k: &[u8], out: &mut [u8]) -> u64
    ensures { MeetsVerdict (checked source s.now k.now out.old) result out.new }
{
    check_word(check_source(s, k, out))
}

// Whether a set is an answer set of a plain program, in the same way.
#[unsafe(no_mangle)]
pub extern "C" fn aspda_check_plain(s: &[u8], k: &[u8], out: &mut [u8]) -> u64
    ensures { MeetsVerdict (checked plain s.now k.now out.old) result out.new }
{
    check_word(check_plain(s, k, out))
}

// Where rule `number` of a source lies, or the refusal.
#[unsafe(no_mangle)]
pub extern "C" fn aspda_show_source(s: &[u8], number: u32) -> u64
    ensures { result ≡ shown_word (shown source s.now number) }
{
    shown_word(find_source(s, number))
}

// Where rule `number` of a plain program lies, or the refusal.
#[unsafe(no_mangle)]
pub extern "C" fn aspda_show_plain(s: &[u8], number: u32) -> u64
    ensures { result ≡ shown_word (shown plain s.now number) }
{
    shown_word(find_plain(s, number))
}

// Starts an assembly afresh: no rule is held. `out` is the buffer that the calls to come are lent, and is not written.
#[unsafe(no_mangle)]
pub extern "C" fn aspda_begin(state: &mut [u8], out: &[u8]) -> u64
    ensures { KeepsWord (called source begin state.old out.now) result state.new }
{
    count_word(begin_state(state, out))
}

// Adds a rule's record behind those that are held, which is written there in `out`: the number of rules then held, or the refusal.
#[unsafe(no_mangle)]
pub extern "C" fn aspda_add(state: &mut [u8], rule: &[u8], out: &mut [u8]) -> u64
    ensures { CallsWord (called source (add rule.now) state.old out.old) result state.new out.new }
{
    count_word(add_record(state, rule, out))
}

// Drops the last rule: the number of rules then held, or the refusal.
#[unsafe(no_mangle)]
pub extern "C" fn aspda_drop(state: &mut [u8]) -> u64
    ensures { KeepsWord (called source drop_last state.old []) result state.new }
{
    count_word(drop_last(state))
}

// Closes an assembly: the end record is written behind the rules in `out`. The number of rules held, or the refusal.
#[unsafe(no_mangle)]
pub extern "C" fn aspda_close(state: &mut [u8], out: &mut [u8]) -> u64
    ensures { CallsWord (called source close state.old out.old) result state.new out.new }
{
    count_word(close_state(state, out))
}

// The bytes of the rules held and an end record.
#[unsafe(no_mangle)]
pub extern "C" fn aspda_assembled(state: &[u8]) -> u64
    ensures { result ≡ assembled source state.now }
{
    measure_state(state) as u64
}
