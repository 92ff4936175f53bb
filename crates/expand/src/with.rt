// The normal form of a source with sheets, lent to what goes on with it.

ghost use Rattle.std.specs.Prelude.{◌≡◌, ℕ, List};
ghost use Rattle.std.specs.Borrow.{Bor, MutBor};
ghost use Rattle.record_walk.specs.Code.{HoldsFile};
ghost use Rattle.expand.specs.Code.{Expandable, NormalOf, Went, normal_bytes};

use crate::NORMAL;
use crate::normal::write_normal;

// What `then` makes of the normal form of the source that `s` holds, and of `out`. The normal form lies in an array of our own, which is to be in
// no caller's frame: sources without sheets have none.
#[inline(never)]
pub fn with_normal<R, F: FnOnce(&[u8], &mut [u8]) -> R>(s: &[u8], out: &mut [u8], then: F) -> R
    requires file { HoldsFile (Expandable normal_bytes) s.now }
    requires callable { (t : Bor (List ℕ)) (o : MutBor (List ℕ)) → NormalOf s.now t.now → o.now ≡ out.old → F.pre then t o }
    ensures { Went (F.post then) s.now out.old result out.new }
{
    let mut normal = [0u8; NORMAL];
    let made = write_normal(s, &mut normal);
    let n = made.size;
    then(&normal[..n], out)
}
