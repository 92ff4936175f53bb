// The calls as methods of a state by value: the state goes in and comes back.

ghost use Rattle.std.specs.Prelude.{◌≡◌, [], replicate};
ghost use Rattle.literal.specs.Limits.{source};
ghost use Rattle.assembly.specs.Calls.{begin, add, drop_last, close, called, assembled, Keeps, Meets};

use crate::{Assembled, Assembly};
use assembly_call::call::{add_record, begin_state, close_state, drop_last, measure_state};

impl Assembly {
    // A state before the first begin.
    pub fn new() -> Assembly
        ensures { result.bytes ≡ replicate 520 0 }
    {
        Assembly { bytes: [0u8; 520] }
    }

    pub fn begin(self, out: &[u8]) -> Assembled
        ensures { Keeps (called source begin self.bytes out.now) result.answer result.state.bytes }
    {
        let mut bytes = self.bytes;
        let answer = begin_state(&mut bytes, out);
        let state = Assembly { bytes };
        Assembled { answer, state }
    }

    pub fn add(self, rule: &[u8], out: &mut [u8]) -> Assembled
        ensures { Meets (called source (add rule.now) self.bytes out.old) result.answer result.state.bytes out.new }
    {
        let mut bytes = self.bytes;
        let answer = add_record(&mut bytes, rule, out);
        let state = Assembly { bytes };
        Assembled { answer, state }
    }

    pub fn drop(self) -> Assembled
        ensures { Keeps (called source drop_last self.bytes []) result.answer result.state.bytes }
    {
        let mut bytes = self.bytes;
        let answer = drop_last(&mut bytes);
        let state = Assembly { bytes };
        Assembled { answer, state }
    }

    pub fn close(self, out: &mut [u8]) -> Assembled
        ensures { Meets (called source close self.bytes out.old) result.answer result.state.bytes out.new }
    {
        let mut bytes = self.bytes;
        let answer = close_state(&mut bytes, out);
        let state = Assembly { bytes };
        Assembled { answer, state }
    }

    // The bytes of the rules held and an end record.
    pub fn measure(self) -> usize
        ensures { result ≡ assembled source self.bytes }
    {
        let bytes = self.bytes;
        measure_state(&bytes)
    }
}
