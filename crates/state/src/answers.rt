// What each public call answers.
use crate::refusal::Refusal;
use layout::Session;

// Of a batch: how many messages were taken, old and heartbeats, or the refusal; and how many keys its lookups compared.
#[derive(Clone, Copy)]
pub enum Judged {
    Accepted(usize, usize, usize, usize),
    Refused(Refusal, usize),
}

// A record's number, which is its update's, and the session of the update that wrote it.
#[derive(Clone, Copy)]
pub enum Recorded {
    Record(u64, Session),
    NoRecord,
    Refused(Refusal),
}
