// Reading a file in a form: what it holds, or why and where it is refused.

#![tactic(auto)]

ghost use Rattle.std.specs.Prelude.{◌≡◌};
ghost use Rattle.record_read.specs.declared.Stop.TheVariants.{Refused};

use record::Refusal;

// What ends a run of rules.
#[derive(Clone, Copy)]
pub enum Stop {
    // The end record.
    End,
    // A record that starts with a sheet record's mark, or with none of the form's.
    Other,
    Refused(Refusal),
}

impl From<Refusal> for Stop {
    ghost from_gives = { λ x s. s ≡ Refused x };

    fn from(x: Refusal) -> Stop {
        Stop::Refused(x)
    }
}

// A run of rules that was read: where it ends, how many rules are held then, and what ends it.
#[derive(Clone, Copy)]
pub struct Rules {
    pub at: usize,
    pub rules: usize,
    pub stop: Stop,
}

pub mod read;
