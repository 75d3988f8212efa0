// What a number in text is: its kind here, and in specs/ what a text of it means.
#![tactic(auto)]

// A kind of number: how many digits may stand behind the point, of which the last counts the kind's unit, the largest amount of
// that unit, and whether a minus may stand before the first digit.
#[derive(Clone, Copy)]
pub struct Kind {
    pub places: usize,
    pub most: u64,
    pub signed: bool,
}

// A number: "none", which is not zero, so many of its kind's unit, or so many below zero.
#[derive(Clone, Copy, Debug, PartialEq, Eq)]
pub enum Held {
    Nothing,
    Units(u64),
    Below(u64),
}

// What is wrong with a field: 01's refusals 11 and 12. Its text is no number, or the number is none of its kind: too fine or too large.
#[derive(Clone, Copy, Debug, PartialEq, Eq)]
pub enum FieldFault {
    Malformed,
    OutOfRange,
}
