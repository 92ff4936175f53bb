// An assembly's state by value: it goes into each call and comes back beside the answer.

#![tactic(auto)]

use record::Refusal;

// An assembly's state. All zero is a state before the first begin, and so count bytes that no call gives back.
#[derive(Clone, Copy)]
pub struct Assembly {
    pub bytes: [u8; 520],
}

// What a call answers, the number of rules then held or a refusal, and the state then.
#[derive(Clone, Copy)]
pub struct Assembled {
    pub answer: Result<usize, Refusal>,
    pub state: Assembly,
}

pub mod method;
