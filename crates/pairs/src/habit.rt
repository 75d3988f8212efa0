use files::Habit;

// The habit of the spread list: a pair is two contracts' keys.
pub const PAIRS: Habit = Habit {
    key: 78,
    fewest: 0,
    most: 1024,
};
