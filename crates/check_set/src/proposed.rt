// Checking a proposed set: the program and the set are read, and the set is judged.

ghost use Rattle.std.specs.Prelude.{◌≡◌, length};
ghost use Rattle.literal.specs.Limits.{source, plain};
ghost use Rattle.expand.specs.Code.{Normalizable};
ghost use Rattle.check_set.specs.Check.{checked};
ghost use Rattle.check_set.specs.Meets.{MeetsCheck};
ghost use Rattle.check_set.specs.Code.{Checkable, Checking, expanded_rules, CheckableFile, check_of};

use crate::Verdict;
use crate::judge::judge;
use check_force::Clause;
use expand::with::with_normal;
use inputs::read::read_inputs;
use literal::Limits;
use literal::form::{Plain, Source};
use record::refuse::refuse;
use record::{Reason, Refusal};
use record_read::read::has_sheets;

// The rules of the largest program that a source means: those that are written, and those that its sheets append.
const EXPANDED_RULES: usize = 8448;

// A clause to fill arrays with.
const NONE: Clause = Clause { body: 0, head: 0 };

// Checks the set of `n` literals that `k` holds against the program that `s` holds. The clauses go to `clauses`,
// which has room for one of each rule; a smaller model is written to the start of `out`.
fn check_program(
    s: &[u8],
    k: &[u8],
    n: usize,
    clauses: &mut [Clause],
    out: &mut [u8],
) -> Result<Verdict, Refusal>
    requires { Checking s.now k.now n (length clauses.old) }
    ensures { (w : Checking s.now k.now n (length clauses.old)) → MeetsCheck (check_of w.program.program w.literals k.now out.old) result out.new }
{
    if out.len() < k.len() {
        return refuse(Reason::OutputShort);
    }
    Ok(judge(s, k, n, clauses, out))
}

// Checks the set in `k` against the program in `s`, in a form without sheets. No flag of `check_file`: a plain program may be longer than what
// a normal form's array holds.
fn check(
    lim: Limits,
    s: &[u8],
    k: &[u8],
    clauses: &mut [Clause],
    out: &mut [u8],
) -> Result<Verdict, Refusal>
    requires checkable { Checkable lim (length clauses.old) }
    requires sheets_value { lim.sheets ≡ 0 }
    ensures { MeetsCheck (checked lim s.now k.now out.old) result out.new }
{
    let (_, n) = read_inputs(lim, lim.checked, s, k)?;
    check_program(s, k, n, clauses, out)
}

// Checks the set in `k` against the program that the file in `s` means, in a form: a file without sheets has the program's records
// itself, and `clauses` has room for a clause of each.
fn check_file(
    lim: Limits,
    s: &[u8],
    k: &[u8],
    clauses: &mut [Clause],
    out: &mut [u8],
) -> Result<Verdict, Refusal>
    requires checkable_file { CheckableFile lim (length clauses.old) }
    requires normalizable { Normalizable lim }
    ensures { MeetsCheck (checked lim s.now k.now out.old) result out.new }
{
    let (held, n) = read_inputs(lim, lim.checked, s, k)?;
    if has_sheets(held) {
        return with_normal(
            s,
            out,
            |normal, out|
                requires { Checking normal.now k.now n expanded_rules }
                ensures { (w : Checking normal.now k.entry.now n expanded_rules) → MeetsCheck (check_of w.program.program w.literals k.entry.now out.old) result out.new }
            {
                let mut clauses = [NONE; EXPANDED_RULES];
                check_program(normal, k, n, &mut clauses, out)
            },
        );
    }
    check_program(s, k, n, clauses, out)
}

// A set of source literals against a source program. The entry points of the two forms, which README names and C calls, have room for the
// clauses of their own form.
pub fn check_source(s: &[u8], k: &[u8], out: &mut [u8]) -> Result<Verdict, Refusal>
    ensures { MeetsCheck (checked source s.now k.now out.old) result out.new }
{
    let mut clauses = [NONE; Source::RULES];
    check_file(Source::limits(), s, k, &mut clauses, out)
}

// A set of plain literals against a plain program.
pub fn check_plain(s: &[u8], k: &[u8], out: &mut [u8]) -> Result<Verdict, Refusal>
    ensures { MeetsCheck (checked plain s.now k.now out.old) result out.new }
{
    let mut clauses = [NONE; Plain::RULES];
    check(Plain::limits(), s, k, &mut clauses, out)
}
