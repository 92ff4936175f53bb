// The records of a program or a file, one behind the other.

ghost use Rattle.std.specs.Prelude.{◌≡◌, length};
ghost use Rattle.std.specs.Iterator.{at_most};
ghost use Rattle.record_walk.specs.Records.{Gives};

use crate::size::item_size;

// What is left of it, from a record on.
#[derive(Drop)]
pub struct Records<'a> {
    rest: &'a [u8],
}

impl<'a> Records<'a> {
    // The records of what a slice holds, the end record not among them.
    pub fn new(s: &'a [u8]) -> Records<'a>
        ensures { result.rest.now ≡ s.now }
    {
        Records { rest: s }
    }
}

impl<'a> Iterator for Records<'a> {
    type Item = &'a [u8];

    ghost next_gives = { Gives };

    ghost remaining = { λ r. at_most (length r.rest.now) };

    // The end record has four bytes, and no other stands right before it with less than three.
    fn next(&mut self) -> Option<&'a [u8]> {
        if self.rest.len() < 7 {
            return None;
        }
        let (part, rest) = self.rest.split_at_checked(item_size(self.rest))?;
        self.rest = rest;
        Some(part)
    }
}
