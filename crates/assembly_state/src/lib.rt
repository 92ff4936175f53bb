// An assembly's state in its bytes: what it says, told in one pass, and the bytes that a call changes.

#![tactic(auto)]

ghost use Rattle.std.specs.Prelude.{◌+◌, ◌<◌, ◌≡◌, max};

// What the bytes of one row come to: the most that one rule has, and the sum.
#[derive(Clone, Copy, Default)]
pub struct Figures {
    pub most: u8,
    pub sum: u16,
}

impl Figures {
    // One rule's figure more.
    pub fn add(&mut self, figure: u8)
        requires { self.old.sum + figure < 65536 }
        ensures most { self.new.most ≡ max self.old.most figure }
        ensures sum { self.new.sum ≡ self.old.sum + figure }
    {
        self.most = self.most.max(figure);
        self.sum += figure as u16;
    }
}

// What the shapes of held rules come to: their head literals, and their body literals.
#[derive(Clone, Copy, Default)]
pub struct Tally {
    pub heads: Figures,
    pub body: Figures,
}

pub mod change;
pub mod inspect;
