// Refusals, made and moved.

ghost use Rattle.std.specs.Prelude.{◌≡◌, ◌+◌, ◌<◌, ◌^◌, Err};
ghost use Rattle.record.specs.Refusal.{refusal, shifted};

use crate::{Reason, Refusal};

// A refusal at the first byte of what is refused.
pub fn refuse<T>(reason: Reason) -> Result<T, Refusal>
    ensures { result ≡ Err (refusal reason 0) }
{
    Err(Refusal { reason, place: 0 })
}

impl Refusal {
    // The same refusal, of a part that starts at a place.
    pub fn behind(self, at: usize) -> Refusal
        requires { at + self.place < 2 ^ 64 }
        ensures { result ≡ shifted at self }
    {
        Refusal {
            reason: self.reason,
            place: at + self.place,
        }
    }
}
