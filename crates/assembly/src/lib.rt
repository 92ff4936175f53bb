// Program assembly: what a state's bytes say, and what each call answers, keeps and writes; definitions and laws.

#![tactic(auto)]

// What a state says. Before the first begin nothing is held, and bytes that are no state count as such a state.
#[derive(Clone, Copy)]
pub struct Standing {
    // An assembly is open: neither closed nor yet to be begun. A flag, not an Option: what is held counts in a closed state too.
    pub active: bool,
    pub rules: usize,
    // The bytes of the rules' records.
    pub bytes: usize,
}
