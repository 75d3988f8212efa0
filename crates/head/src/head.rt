// The checks 5 to 10: all of a message but its data.
ghost use Rattle.std.specs.Prelude.{◌≡◌, true, [], ◌∷◌};
ghost use Rattle.lookup.specs.Answers.{place_of};
ghost use Rattle.head.specs.GoodHead.{Framed};
ghost use Rattle.head.specs.Fields.{length_of, form_in, sum_sent, right_sum};
ghost use Rattle.head.specs.Head.{frame_rules, form_rules};
ghost use Rattle.head.specs.Tests.{framed, is_capital, is_pre_open, is_code, coded, trailed, takes_length, summed, numbers_subject, takes_number, is_heartbeat, same_bytes};
ghost use Rattle.head.specs.Faults.{head_numbers, row_fault};
ghost use Rattle.head.specs.Rules.{first_fault};

use crate::fields;
use layout::{BadRow, Named, Subject, Sum};

const END: u8 = 13;

// What is wrong with a message: the refusals 5 to 13, with the row where there is one.
#[derive(Clone, Copy)]
pub enum Fault {
    Frame,
    Code,
    Trailer,
    Length,
    Checksum,
    Numbering,
    Field(usize),
    Range(usize),
    Contract,
}

impl From<BadRow> for Fault {
    ghost from_gives = { λ bad fault. fault ≡ row_fault bad };

    fn from(bad: BadRow) -> Fault {
        match bad {
            BadRow::Field(row) => Fault::Field(row),
            BadRow::Range(row) => Fault::Range(row),
        }
    }
}

#[tactic(auto, unfolding(crate::specs::Tests::framed))]
fn framed(bytes: &[u8]) -> bool
    ensures { result ≡ framed bytes.now }
{
    if bytes.len() < fields::DATA {
        return false;
    }
    let whole = fields::length_of(bytes);
    if whole < layout::BARE {
        return false;
    }
    whole <= bytes.len()
}

fn is_capital(second: u8) -> bool
    ensures { result ≡ is_capital second }
{
    second.is_ascii_uppercase()
}

// The P codes that the paper prints.
fn is_pre_open(second: u8) -> bool
    ensures { result ≡ is_pre_open second }
{
    matches!(second, b'N' | b'O' | b'C')
}

fn is_code(letter: u8, second: u8) -> bool
    ensures { result ≡ is_code letter second }
{
    if letter == fields::PRE_OPEN {
        return is_pre_open(second);
    }
    is_capital(second)
}

// The letter's segment was looked up once for the batch.
#[tactic(auto, unfolding(crate::specs::Tests::coded))]
fn coded(letter: u8, segment: Option<usize>, bytes: &[u8]) -> bool
    ensures { result ≡ coded letter (place_of segment) bytes.now }
{
    if fields::segment_letter_of(bytes) != letter {
        return false;
    }
    if !is_code(fields::letter_of(bytes), fields::second_of(bytes)) {
        return false;
    }
    segment.is_some()
}

// A message whose frame is good, and its length.
#[derive(Clone, Copy)]
struct Whole<'a> {
    bytes: &'a [u8],
    length: usize,
    ghost framed: { Framed bytes.now × (length ≡ length_of bytes.now) },
}

impl<'a> Whole<'a> {
    #[tactic(auto, using(crate::specs::HeadLaws::framed_exact))]
    fn of(bytes: &'a [u8]) -> Whole<'a>
        requires { framed bytes.now ≡ true }
        ensures { result.bytes.now ≡ bytes.now }
    {
        Whole {
            bytes,
            length: fields::length_of(bytes),
        }
    }

    #[tactic(auto, unfolding(crate::specs::Tests::trailed, crate::specs::Fields::end_byte))]
    fn trailed(&self) -> bool
        ensures { result ≡ trailed self.now.bytes.now }
    {
        wire::u8_at(self.bytes, self.length - 1) == END
    }

    // Whether these two bytes are sent as the sum.
    #[tactic(auto, unfolding(crate::specs::Fields::sum_sent))]
    fn carries(&self, first: u8, second: u8) -> bool
        ensures { result ≡ same_bytes (sum_sent self.now.bytes.now) (first ∷ second ∷ []) }
    {
        if wire::u8_at(self.bytes, self.length - fields::TRAILER) != first {
            return false;
        }
        wire::u8_at(self.bytes, self.length - 2) == second
    }

    #[tactic(auto, unfolding(crate::specs::Fields::right_sum))]
    fn carries_right(&self) -> bool
        ensures { result ≡ same_bytes (sum_sent self.now.bytes.now) (right_sum self.now.bytes.now) }
    {
        let end = self.length - fields::TRAILER;
        let sent = checksum::sent(checksum::sum(&self.bytes[..end]));
        self.carries(sent[0], sent[1])
    }

    // By the rule of its code. The sum is worked out only where zero doesn't settle it.
    #[tactic(auto, unfolding(crate::specs::Tests::summed, crate::specs::Fields::sum_in))]
    fn summed(&self) -> bool
        ensures { result ≡ summed self.now.bytes.now }
    {
        match layout::sum_rule(fields::letter_of(self.bytes), fields::second_of(self.bytes)) {
            Sum::Zero => self.carries(0, 0),
            Sum::Right => self.carries_right(),
            Sum::RightOrZero => {
                if self.carries(0, 0) {
                    return true;
                }
                self.carries_right()
            }
        }
    }
}

fn takes_length(named: Named) -> bool
    ensures { result ≡ takes_length named }
{
    !matches!(named, Named::NoLength)
}

// A message that tells of nothing is a heartbeat.
fn numbers_subject(subject: Subject, number: u32) -> bool
    ensures { result ≡ numbers_subject subject number }
{
    match subject {
        Subject::Nothing => number == 0,
        Subject::Of(_, _) => 1 <= number,
    }
}

pub fn takes_number(named: Named, number: u32) -> bool
    ensures { result ≡ takes_number named number }
{
    match named {
        Named::Form(form) => numbers_subject(layout::subject_of(form), number),
        Named::NoLength | Named::PassedOver => 1 <= number,
    }
}

pub fn is_heartbeat(named: Named) -> bool
    ensures { result ≡ is_heartbeat named }
{
    match named {
        Named::Form(form) => matches!(layout::subject_of(form), Subject::Nothing),
        Named::NoLength | Named::PassedOver => false,
    }
}

// The rules 5 to 7 in turn: the first broken one decides.
pub fn judge_frame(letter: u8, segment: Option<usize>, bytes: &[u8]) -> Result<(), Fault>
    ensures { head_numbers result ≡ head_numbers (first_fault (frame_rules letter (place_of segment) bytes.now)) }
{
    if !framed(bytes) {
        return Err(Fault::Frame);
    }
    if !coded(letter, segment, bytes) {
        return Err(Fault::Code);
    }
    if !Whole::of(bytes).trailed() {
        return Err(Fault::Trailer);
    }
    Ok(())
}

// Where these hold, the rules 8 to 10 in turn.
pub fn judge_form(bytes: &[u8], named: Named) -> Result<(), Fault>
    requires { (framed bytes.now ≡ true) × (named ≡ form_in bytes.now) }
    ensures { head_numbers result ≡ head_numbers (first_fault (form_rules bytes.now)) }
{
    if !takes_length(named) {
        return Err(Fault::Length);
    }
    if !Whole::of(bytes).summed() {
        return Err(Fault::Checksum);
    }
    if !takes_number(named, fields::number_of(bytes)) {
        return Err(Fault::Numbering);
    }
    Ok(())
}

// The same for a heartbeat, of which both sum and number are zero: it needs no other word of the table.
#[tactic(auto, using(crate::specs::HeadLaws::heartbeat_length, crate::specs::HeadLaws::heartbeat_sum, crate::specs::HeadLaws::heartbeat_number))]
pub fn judge_heartbeat(bytes: &[u8]) -> Result<(), Fault>
    requires { (framed bytes.now ≡ true) × (is_heartbeat (form_in bytes.now) ≡ true) }
    ensures { head_numbers result ≡ head_numbers (first_fault (form_rules bytes.now)) }
{
    if !Whole::of(bytes).carries(0, 0) {
        return Err(Fault::Checksum);
    }
    if fields::number_of(bytes) != 0 {
        return Err(Fault::Numbering);
    }
    Ok(())
}
