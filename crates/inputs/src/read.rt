// Reading a file and then a set: a refusal met in the file ends the call before the set is read.

ghost use Rattle.std.specs.Prelude.{◌≡◌};
ghost use Rattle.inputs.specs.Code.{both_read};

use literal::Limits;
use record::{Held, Refusal};
use record_read::read::read_items;
use set::read::read_set;

// The file in `s` and the set in `k`, of at most `most` literals: what the file holds and how many literals the set has, or the first refusal.
pub fn read_inputs(lim: Limits, most: usize, s: &[u8], k: &[u8]) -> Result<(Held, usize), Refusal>
    ensures { result ≡ both_read lim most s.now k.now }
{
    let file = read_items(lim, s);
    // Document 01 names this form for the place, so there is no `?`.
    let Ok(held) = file else {
        return file.map(|held| (held, 0));
    };
    let count = read_set(lim, most, k)?;
    Ok((held, count))
}
