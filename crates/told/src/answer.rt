// What a host is told of a call: the number that the function returns, and the four numbers of its answer.
ghost use Rattle.std.specs.Prelude.{◌≡◌, ◌∷◌, []};
ghost use Rattle.told.specs.Told.{told_of, record_numbers, with_fourth};
ghost use Rattle.state.specs.Refusals.{refusal_numbers};
ghost use Rattle.state.specs.Answers.{started_numbers, judged_numbers, listed_numbers, written_off_numbers, written_numbers};

use quotebox::{GapsListed, Judged, Recorded, Refusal, Run};

#[derive(Clone, Copy)]
pub struct Told {
    pub number: u32,
    pub answer: [u64; 4],
}

// Only a batch's answer has a fourth number.
fn of_numbers(number: u32, first: usize, second: usize, third: usize) -> Told
    ensures { result ≡ told_of (number ∷ first ∷ second ∷ third ∷ []) }
{
    let answer = [first as u64, second as u64, third as u64, 0];
    Told { number, answer }
}

// By the paper's number, with the message, the row and the cells wanted.
fn of_refusal(refusal: Refusal) -> Told
    ensures { result ≡ told_of (refusal_numbers refusal) }
{
    let numbers = quotebox::refusal_numbers(refusal);
    Told {
        number: numbers[0] as u32,
        answer: [numbers[1], numbers[2], numbers[3], 0],
    }
}

pub fn of_started(started: Result<(), Refusal>) -> Told
    ensures { result ≡ told_of (started_numbers started) }
{
    match started {
        Ok(()) => of_numbers(0, 0, 0, 0),
        Err(refusal) => of_refusal(refusal),
    }
}

fn with_fourth(told: Told, fourth: usize) -> Told
    ensures { result ≡ with_fourth told fourth }
{
    let mut answer = told.answer;
    answer[3] = fourth as u64;
    Told {
        number: told.number,
        answer,
    }
}

// Accepted or refused, with the keys that were compared.
pub fn of_judged(judged: Judged) -> Told
    ensures { result ≡ told_of (judged_numbers judged) }
{
    match judged {
        Judged::Accepted(taken, old, heartbeats, compared) => {
            with_fourth(of_numbers(0, taken, old, heartbeats), compared)
        }
        Judged::Refused(refusal, compared) => with_fourth(of_refusal(refusal), compared),
    }
}

pub fn of_listed(listed: Result<GapsListed, Refusal>) -> Told
    ensures { result ≡ told_of (listed_numbers listed) }
{
    match listed {
        Ok(gaps) => of_numbers(0, gaps.highest as usize, gaps.runs, 0),
        Err(refusal) => of_refusal(refusal),
    }
}

pub fn of_written_off(written_off: Result<Run, Refusal>) -> Told
    ensures { result ≡ told_of (written_off_numbers written_off) }
{
    match written_off {
        Ok(run) => of_numbers(0, run.first as usize, run.last as usize, 0),
        Err(refusal) => of_refusal(refusal),
    }
}

// 1 for a record, whose number and session stand among the values.
pub fn of_recorded(recorded: Recorded) -> Told
    ensures { result ≡ told_of (record_numbers recorded) }
{
    match recorded {
        Recorded::Record(_, _) => of_numbers(0, 1, 0, 0),
        Recorded::NoRecord => of_numbers(0, 0, 0, 0),
        Recorded::Refused(refusal) => of_refusal(refusal),
    }
}

pub fn of_written(written: Result<usize, Refusal>) -> Told
    ensures { result ≡ told_of (written_numbers written) }
{
    match written {
        Ok(length) => of_numbers(0, length, 0, 0),
        Err(refusal) => of_refusal(refusal),
    }
}

pub fn tell(told: Told, answer: &mut [u64; 4]) -> u32
    ensures { (result ≡ told.number) × (answer.new ≡ told.answer) }
{
    let cells = told.answer;
    *answer = cells;
    told.number
}
