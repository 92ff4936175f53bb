// The two passes over a source that was read: its translation measured, and then written rule by rule.

ghost use Rattle.std.specs.Prelude.{◌≡◌, length};
ghost use Rattle.buffer.specs.Write.{write};
ghost use Rattle.semantics.specs.Translation.{translation, translation_length};
ghost use Rattle.record.specs.Layout.{encoded_program};
ghost use Rattle.record_walk.specs.Code.{Holds};
ghost use Rattle.translate.specs.Code.{Translatable, Fitting};

use literal::RuleNo;
use record_walk::records::Records;
use record_write::records::write_end;
use translate_rule::rules::{count_rules, measure_rule, write_rule};

// The length of the translation.
pub fn measure_rules(s: &[u8]) -> usize
    requires { Holds Translatable s.now }
    ensures { (w : Holds Translatable s.now) → result ≡ translation_length w.program }
{
    let mut total: usize = 4;
    for part in Records::new(s) {
        total += measure_rule(part);
    }
    total
}

// The translation, to the start of `out`. Each byte is written once.
pub fn write_rules(s: &[u8], out: &mut [u8])
    requires { Holds (Fitting (length out.old)) s.now }
    ensures { (w : Holds (Fitting (length out.old)) s.now) → out.new ≡ write out.old 0 (encoded_program (translation w.program)) }
{
    let mut made: usize = 0;
    let mut to: usize = 0;
    for (i, part) in Records::new(s).enumerate() {
        write_rule(RuleNo(i as u16 + 1), part, out, to);
        to += measure_rule(part);
        made += count_rules(part);
    }
    write_end(made as u16, out, to);
}
