// The bytes of a state that a call changes.

ghost use Rattle.std.specs.Prelude.{◌+◌, ◌*◌, ◌≤◌, ◌<◌, ◌≡◌, [], length};
ghost use Rattle.assembly.specs.State.{opened, state_bytes, encoded_stage};
ghost use Rattle.assembly.specs.Code.{with_shape};

use buffer::put::{put_byte, put_number};
use literal::Limits;

// An open assembly that holds no rule.
pub fn open_state(lim: Limits, state: &mut [u8])
    requires { length state.old ≡ state_bytes lim }
    ensures { state.new ≡ encoded_stage lim (opened []) }
{
    state.fill(0);
    put_byte(state, 0, 1);
}

// So many rules are held, and the bytes of the rule at a place among them are these.
pub fn put_shape(lim: Limits, state: &mut [u8], rules: usize, place: usize, heads: u8, body: u8)
    requires rules_bound { rules < 65536 }
    requires place_lt_rules { place < lim.rules }
    requires rules_in_bounds { 8 + 2 * lim.rules ≤ length state.old }
    ensures { state.new ≡ with_shape lim state.old rules place heads body }
{
    put_number(state, 2, rules as u16);
    put_byte(state, 8 + place, heads);
    put_byte(state, 8 + lim.rules + place, body);
}
