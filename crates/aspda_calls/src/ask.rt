// Entry points asked on a program, or on a program and a set; each answer is told as a line.

use crate::tell::Teller;
use aspif::aspif::export_plain;
use assembly_value::{Assembled, Assembly};
use check_set::proposed::{check_plain, check_source};
use extend::extend::extend_source;
use quotient::quotient::{quotient_plain, quotient_source};
use record_read::read::{read_plain, read_source};
use record_show::show::{find_plain, find_source, show_plain, show_source};
use restrict::restrict::restrict_plain;
use std::io;
use translate::translate::translate_source;

impl<'a, R: Print> Teller<'a, R> {
    // Where the record of a rule lies, and the record: the part of `s` that is handed back.
    pub fn ask_rule(&self, s: &[u8], number: u32) -> io::Result<()> {
        self.shown("find_source", number, find_source(s, number))?;
        self.record("show_source", number, show_source(s, number))?;
        self.shown("find_plain", number, find_plain(s, number))?;
        self.record("show_plain", number, show_plain(s, number))
    }

    // A program: its bytes, how many rules it has, its first rule.
    pub fn ask_program(&self, s: &[u8]) -> io::Result<()> {
        self.bytes("program", s)?;
        self.count("read_source", read_source(s))?;
        self.count("read_plain", read_plain(s))?;
        self.ask_rule(s, 1)
    }

    // A source's translation.
    pub fn ask_translate(&self, s: &[u8], out: &mut [u8]) -> io::Result<()> {
        let answer = translate_source(s, out);
        self.written("translate_source", answer, out)
    }

    // A plain program's text.
    pub fn ask_text(&self, s: &[u8], out: &mut [u8]) -> io::Result<()> {
        let answer = export_plain(s, out);
        self.written("export_plain", answer, out)
    }

    // A program and a set: every entry point that takes a set.
    pub fn ask_set(&self, s: &[u8], k: &[u8], out: &mut [u8]) -> io::Result<()> {
        self.bytes("set", k)?;
        let divided = quotient_source(s, k, out);
        self.written("quotient_source", divided, out)?;
        let divided = quotient_plain(s, k, out);
        self.written("quotient_plain", divided, out)?;
        let extended = extend_source(s, k, out);
        self.written("extend_source", extended, out)?;
        let restricted = restrict_plain(k, out);
        self.written("restrict_plain", restricted, out)?;
        let checked = check_source(s, k, out);
        self.checked("check_source", checked, out)?;
        let checked = check_plain(s, k, out);
        self.checked("check_plain", checked, out)
    }

    // A call of an assembly: its answer is told, and the state that it gives back handed on.
    fn called(&self, call: &str, done: Assembled) -> io::Result<Assembly> {
        self.count(call, done.answer)?;
        Ok(done.state)
    }

    pub fn ask_begin(&self, state: Assembly, out: &[u8]) -> io::Result<Assembly> {
        self.called("Assembly::begin", state.begin(out))
    }

    pub fn ask_add(&self, state: Assembly, rule: &[u8], out: &mut [u8]) -> io::Result<Assembly> {
        self.called("Assembly::add", state.add(rule, out))
    }

    pub fn ask_drop(&self, state: Assembly) -> io::Result<Assembly> {
        self.called("Assembly::drop", state.drop())
    }

    pub fn ask_close(&self, state: Assembly, out: &mut [u8]) -> io::Result<Assembly> {
        self.called("Assembly::close", state.close(out))
    }

    // The length that is assembled, and the state's bytes.
    pub fn ask_state(&self, state: Assembly) -> io::Result<()> {
        self.length("Assembly::measure", state.measure())?;
        self.bytes("state", &state.bytes)
    }
}
