// What a program lends to the calls over runs, with a row of its own.
#![tactic(auto)]

ghost use Rattle.pairs.specs.Lists.{lists};
ghost use Rattle.runs.specs.Promises.{StartedRuns, TookRuns, ListedGaps};
ghost use Rattle.lent.specs.Lists.{SameLists};

use quotebox::{GapsListed, Judged, Refusal};
use runs::Run;

// The runs of the gap rows of as many segments as a list may have.
pub const RUNS: usize = runs::MOST;

#[derive(Drop)]
pub struct Lent<'a> {
    pub list: &'a [u8],
    pub spreads: &'a [u8],
    pub rows: [Run; RUNS],
    pub records: &'a mut [u64],
}

impl<'a> Lent<'a> {
    pub fn start(&mut self, starts: &[u32]) -> Result<(), Refusal>
        ensures starts { StartedRuns (lists self.old.list.now self.old.spreads.now) starts.now self.old.rows self.old.records.now result self.new.rows self.new.records.now }
        ensures lists { SameLists self.old self.new }
    {
        let list = self.list;
        let spreads = self.spreads;
        runs::start(list, spreads, starts, &mut self.rows, self.records)
    }

    pub fn take(&mut self, batch: &[u8]) -> Judged
        ensures takes { TookRuns (lists self.old.list.now self.old.spreads.now) self.old.rows self.old.records.now batch.now result self.new.rows self.new.records.now }
        ensures lists { SameLists self.old self.new }
    {
        let list = self.list;
        let spreads = self.spreads;
        let records = &mut *self.records;
        runs::take(list, spreads, &mut self.rows, records, batch)
    }

    pub fn list_gaps(&self, letter: u8, cells: &mut [u32]) -> Result<GapsListed, Refusal>
        ensures { ListedGaps (lists self.now.list.now self.now.spreads.now) self.now.rows self.now.records.now letter cells.old result cells.new }
    {
        runs::list_gaps(
            self.list,
            self.spreads,
            &self.rows,
            self.records,
            letter,
            cells,
        )
    }
}
