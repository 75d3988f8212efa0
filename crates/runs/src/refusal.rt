// Answers of the calls over numbers, with 15 for gap rows in runs.
ghost use Rattle.std.specs.Prelude.{◌≡◌};
ghost use Rattle.state.specs.Refusals.{refusal_numbers};
ghost use Rattle.state.specs.Answers.{started_numbers, judged_numbers, listed_numbers, written_off_numbers, recorded_numbers};
ghost use Rattle.runs.specs.Wanted.{in_runs};

use quotebox::{GapsListed, Judged, Recorded, Refusal, Run};

fn in_runs(list: &[u8], lent: usize, refusal: Refusal) -> Refusal
    ensures { refusal_numbers result ≡ in_runs list.now lent (refusal_numbers refusal) }
{
    let wanted = copies::ROW * files::segments(list);
    if let Refusal::Memory(_) = refusal {
        if lent < wanted {
            return Refusal::Memory(wanted);
        }
    }
    refusal
}

#[tactic(auto, unfolding(crate::specs::Wanted::in_runs))]
pub(crate) fn started(list: &[u8], lent: usize, answer: Result<(), Refusal>) -> Result<(), Refusal>
    ensures { started_numbers result ≡ in_runs list.now lent (started_numbers answer) }
{
    answer.map_err(|refusal| in_runs(list, lent, refusal))
}

#[tactic(auto, unfolding(crate::specs::Wanted::in_runs))]
pub(crate) fn judged(list: &[u8], lent: usize, answer: Judged) -> Judged
    ensures { judged_numbers result ≡ in_runs list.now lent (judged_numbers answer) }
{
    match answer {
        Judged::Accepted(taken, old, heartbeats, compared) => {
            Judged::Accepted(taken, old, heartbeats, compared)
        }
        Judged::Refused(refusal, compared) => {
            Judged::Refused(in_runs(list, lent, refusal), compared)
        }
    }
}

#[tactic(auto, unfolding(crate::specs::Wanted::in_runs))]
pub(crate) fn listed(
    list: &[u8],
    lent: usize,
    answer: Result<GapsListed, Refusal>,
) -> Result<GapsListed, Refusal>
    ensures { listed_numbers result ≡ in_runs list.now lent (listed_numbers answer) }
{
    answer.map_err(|refusal| in_runs(list, lent, refusal))
}

#[tactic(auto, unfolding(crate::specs::Wanted::in_runs))]
pub(crate) fn written_off(
    list: &[u8],
    lent: usize,
    answer: Result<Run, Refusal>,
) -> Result<Run, Refusal>
    ensures { written_off_numbers result ≡ in_runs list.now lent (written_off_numbers answer) }
{
    answer.map_err(|refusal| in_runs(list, lent, refusal))
}

#[tactic(auto, unfolding(crate::specs::Wanted::in_runs))]
pub(crate) fn recorded(list: &[u8], lent: usize, answer: Recorded) -> Recorded
    ensures { recorded_numbers result ≡ in_runs list.now lent (recorded_numbers answer) }
{
    match answer {
        Recorded::Record(number, session) => Recorded::Record(number, session),
        Recorded::NoRecord => Recorded::NoRecord,
        Recorded::Refused(refusal) => Recorded::Refused(in_runs(list, lent, refusal)),
    }
}
