// Judging the messages of a batch in turn, on a copy of their segment's gap row. What they store is kept for later.
ghost use Rattle.std.specs.Prelude.{◌≡◌, true, ◌<◌, length};
ghost use Rattle.lookup.specs.Answers.{place_of};
ghost use Rattle.pairs.specs.Lists.{lists};
ghost use Rattle.sequence.specs.RowLaid.{sound_gap_row};
ghost use Rattle.turns.specs.Acts.{act_of, counted, is_taken, none, total, Ready, NumberActs, MessageActs, JudgedMessages, Turned};

use layout::MOST_ROWS;
use message::What;
use slots::Fronts;
use state::{Judged, Refusal};
use taking::Taken;

// What becomes of a message.
#[derive(Clone, Copy)]
pub enum Act {
    Taken,
    Old,
    Heartbeat,
}

// What all messages of a batch are judged by: the lists, their letter, where that is listed, and where its segment's records begin.
#[derive(Clone, Copy)]
struct Lists<'a> {
    list: &'a [u8],
    spreads: &'a [u8],
    letter: u8,
    segment: Option<usize>,
    fronts: Fronts,
}

// With the message's length, how many stores are kept behind it, and how many keys its lookup compared.
#[derive(Clone, Copy)]
pub struct Step {
    pub act: Result<Act, Refusal>,
    pub length: usize,
    pub kept: usize,
    pub compared: usize,
}

// What the messages of a batch are answered, and how many stores are kept.
#[derive(Clone, Copy)]
pub struct InTurn {
    pub answer: Judged,
    pub kept: usize,
}

// How many messages were taken, old and heartbeats.
#[derive(Clone, Copy)]
pub struct Counts {
    pub taken: usize,
    pub old: usize,
    pub heartbeats: usize,
}

impl From<Taken> for Act {
    ghost from_gives = { λ taken act. act ≡ act_of taken };

    fn from(taken: Taken) -> Act {
        match taken {
            Taken::Taken => Act::Taken,
            Taken::Old => Act::Old,
        }
    }
}

fn number_acts(row: &mut [u32; sequence::CELLS], i: usize, number: u32) -> Result<Act, Refusal>
    requires { sound_gap_row row.old ≡ true }
    ensures { NumberActs row.old i number result row.new }
{
    match taking::take(row, number) {
        Ok(taken) => Ok(Act::from(taken)),
        Err(_) => Err(Refusal::Gaps(i)),
    }
}

fn is_taken(act: Result<Act, Refusal>) -> bool
    ensures { result ≡ is_taken act }
{
    matches!(act, Ok(Act::Taken))
}

// Message i, which begins here; `cells` is for its rows.
fn message_acts(
    there: &Lists,
    row: &mut [u32; sequence::CELLS],
    stores: &mut [u64],
    kept: usize,
    i: usize,
    bytes: &[u8],
    cells: &mut [u64; MOST_ROWS],
) -> Step
    requires { Ready (lists there.now.list.now there.now.spreads.now) there.now.letter (place_of there.now.segment) there.now.fronts row.old stores.old kept }
    ensures { MessageActs (lists there.now.list.now there.now.spreads.now) there.now.letter row.old stores.old kept i bytes.now result row.new stores.new }
{
    let message = message::read(
        there.list,
        there.spreads,
        there.letter,
        there.segment,
        bytes,
        cells,
    );
    let length = message.length;
    let what = message.what;
    let mut kept = kept;
    let act = match what {
        Ok(what) => match what {
            What::Heartbeat => Ok(Act::Heartbeat),
            What::PassedOver(number) => number_acts(row, i, number),
            What::Update(number, form, place) => {
                let act = number_acts(row, i, number);
                if is_taken(act) {
                    kept = stores::keep_update(
                        stores,
                        kept,
                        there.fronts,
                        place,
                        form,
                        number,
                        cells,
                    );
                }
                act
            }
        },
        Err(fault) => Err(state::of_fault(fault, i)),
    };
    Step {
        act,
        length,
        kept,
        compared: message.compared,
    }
}

fn counted(counts: Counts, act: Act) -> Counts
    requires { total counts < 65536 }
    ensures { result ≡ counted (Ok act) counts }
{
    let taken = counts.taken;
    let old = counts.old;
    let heartbeats = counts.heartbeats;
    match act {
        Act::Taken => Counts {
            taken: taken + 1,
            old,
            heartbeats,
        },
        Act::Old => Counts {
            taken,
            old: old + 1,
            heartbeats,
        },
        Act::Heartbeat => Counts {
            taken,
            old,
            heartbeats: heartbeats + 1,
        },
    }
}

fn answered(answer: Judged, kept: usize) -> InTurn
    ensures { Turned answer kept result }
{
    InTurn { answer, kept }
}

// Before the first message.
fn none() -> Counts
    ensures { result ≡ none }
{
    Counts {
        taken: 0,
        old: 0,
        heartbeats: 0,
    }
}

// The messages in turn, each where the one before it ends; last, bytes left over (4). Of a refused batch no store is kept.
pub fn judge_messages(
    list: &[u8],
    spreads: &[u8],
    letter: u8,
    segment: Option<usize>,
    fronts: Fronts,
    row: &mut [u32; sequence::CELLS],
    stores: &mut [u64],
    data: &[u8],
    count: usize,
) -> InTurn
    requires { Ready (lists list.now spreads.now) letter (place_of segment) fronts row.old stores.old 0 × (count < 65536) }
    ensures { JudgedMessages (lists list.now spreads.now) letter row.old (length stores.old) «data».now count result row.new stores.new }
{
    let there = Lists {
        list,
        spreads,
        letter,
        segment,
        fronts,
    };
    let mut cells = [0u64; MOST_ROWS];
    let mut counts = none();
    let mut kept = 0;
    let mut compared = 0;
    let mut at = 0;
    for i in 0..count {
        let part = &data[at..];
        let step = message_acts(&there, row, stores, kept, i, part, &mut cells);
        compared += step.compared;
        let act = match step.act {
            Ok(act) => act,
            Err(refusal) => return answered(Judged::Refused(refusal, compared), 0),
        };
        counts = counted(counts, act);
        kept = step.kept;
        at += step.length;
    }
    if at < data.len() {
        return answered(Judged::Refused(Refusal::Count, compared), 0);
    }
    let accepted = Judged::Accepted(counts.taken, counts.old, counts.heartbeats, compared);
    answered(accepted, kept)
}
