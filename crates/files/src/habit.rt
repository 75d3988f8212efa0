// The habit of a house file: the bytes of a key, and how few and how many keys a segment may have.
// Kept: a list's header has no use for its habit, and of a struct of both each clause would name the two through it.
#[derive(Clone, Copy)]
pub struct Habit {
    pub key: u16,
    pub fewest: u16,
    pub most: u16,
}

// The contract list.
pub const CONTRACTS: Habit = Habit {
    key: 39,
    fewest: 1,
    most: 4096,
};
