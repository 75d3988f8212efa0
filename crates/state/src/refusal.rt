// Every refusal of document 01's table, with what it returns besides its number.
ghost use Rattle.std.specs.Prelude.{◌≡◌};
ghost use Rattle.head.specs.Faults.{fault_numbers};
ghost use Rattle.state.specs.Refusals.{in_message, refusal_numbers};
ghost use Rattle.state.specs.declared.refusal.Refusal.TheVariants.{Memory};

use head::Fault;
use sequence::Short;

#[derive(Clone, Copy)]
pub enum Refusal {
    Size,
    Packed,
    Flag,
    Count,
    // From here to Gaps with the message, counted from 0.
    Frame(usize),
    Code(usize),
    Trailer(usize),
    Length(usize),
    Checksum(usize),
    Numbering(usize),
    // With the message and the row.
    Field(usize, usize),
    Range(usize, usize),
    Contract(usize),
    Gaps(usize),
    // With the cells wanted.
    Memory(usize),
    List,
    NoGap,
    State,
}

// Fewer cells are lent than the runs of a row want.
impl From<Short> for Refusal {
    ghost from_gives = { λ short refusal. refusal ≡ Memory short.wanted };

    fn from(short: Short) -> Refusal {
        Refusal::Memory(short.wanted)
    }
}

// What is wrong with message i.
pub fn of_fault(fault: Fault, i: usize) -> Refusal
    ensures { refusal_numbers result ≡ in_message i (fault_numbers fault) }
{
    match fault {
        Fault::Frame => Refusal::Frame(i),
        Fault::Code => Refusal::Code(i),
        Fault::Trailer => Refusal::Trailer(i),
        Fault::Length => Refusal::Length(i),
        Fault::Checksum => Refusal::Checksum(i),
        Fault::Numbering => Refusal::Numbering(i),
        Fault::Field(row) => Refusal::Field(i, row),
        Fault::Range(row) => Refusal::Range(i, row),
        Fault::Contract => Refusal::Contract(i),
    }
}

// Its number, then message, row and cells wanted, 0 where the table returns none.
pub fn refusal_numbers(refusal: Refusal) -> [u64; 4]
    ensures { result ≡ refusal_numbers refusal }
{
    match refusal {
        Refusal::Size => [1, 0, 0, 0],
        Refusal::Packed => [2, 0, 0, 0],
        Refusal::Flag => [3, 0, 0, 0],
        Refusal::Count => [4, 0, 0, 0],
        Refusal::Frame(message) => [5, message as u64, 0, 0],
        Refusal::Code(message) => [6, message as u64, 0, 0],
        Refusal::Trailer(message) => [7, message as u64, 0, 0],
        Refusal::Length(message) => [8, message as u64, 0, 0],
        Refusal::Checksum(message) => [9, message as u64, 0, 0],
        Refusal::Numbering(message) => [10, message as u64, 0, 0],
        Refusal::Field(message, row) => [11, message as u64, row as u64, 0],
        Refusal::Range(message, row) => [12, message as u64, row as u64, 0],
        Refusal::Contract(message) => [13, message as u64, 0, 0],
        Refusal::Gaps(message) => [14, message as u64, 0, 0],
        Refusal::Memory(wanted) => [15, 0, 0, wanted as u64],
        Refusal::List => [16, 0, 0, 0],
        Refusal::NoGap => [17, 0, 0, 0],
        Refusal::State => [18, 0, 0, 0],
    }
}
