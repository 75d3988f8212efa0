// A command's call, made with what is lent, and the line that answers it.
#![tactic(auto)]

mod gaps;
mod messages;
mod records;

ghost use Rattle.answers.specs.Room.{SameRoom};

use commands::Command;
pub use messages::beside;
use std::io::{Result, Write};

// What is lent to a call: the two lists, the gap rows and the records.
#[derive(Drop)]
pub struct Lent<'a> {
    pub list: &'a [u8],
    pub spreads: &'a [u8],
    pub rows: &'a mut [u32],
    pub records: &'a mut [u64],
}

fn start(page: &mut impl Write, bytes: &[u8], lent: &mut Lent) -> Result<()>
    ensures { SameRoom lent.old lent.new }
{
    let starts = commands::starts_in(bytes);
    let count = wire::u8_at(bytes, 1) as usize;
    let starts = &starts[..count];
    let list = lent.list;
    let spreads = lent.spreads;
    let started = quotebox::start(list, spreads, starts, lent.rows, lent.records);
    lines::put_started(page, started)
}

fn judge(page: &mut impl Write, bytes: &[u8], lent: &Lent) -> Result<()> {
    let batch = commands::batch_in(bytes);
    let judged = quotebox::judge(lent.list, lent.spreads, lent.rows, lent.records, batch);
    lines::put_judged(page, b"judge", judged)
}

fn take(page: &mut impl Write, bytes: &[u8], lent: &mut Lent) -> Result<()>
    ensures { SameRoom lent.old lent.new }
{
    let batch = commands::batch_in(bytes);
    let list = lent.list;
    let spreads = lent.spreads;
    let judged = quotebox::take(list, spreads, lent.rows, lent.records, batch);
    lines::put_judged(page, b"take", judged)
}

// By the command's letter; another letter, and a command that makes no call, has no line.
pub fn answer(page: &mut impl Write, bytes: &[u8], lent: &mut Lent) -> Result<()>
    ensures { SameRoom lent.old lent.new }
{
    let Some(command) = Command::of(wire::u8_at(bytes, 0)) else {
        return Ok(());
    };
    match command {
        Command::Start => start(page, bytes, lent),
        Command::Judge => judge(page, bytes, lent),
        Command::Take => take(page, bytes, lent),
        Command::Gaps => gaps::list(page, bytes, lent),
        Command::Off => gaps::off(page, bytes, lent),
        Command::Read(item) => records::read(page, bytes, item, lent),
        Command::Write(item) => messages::write(page, bytes, item),
        Command::Lend | Command::List | Command::Spreads | Command::Store => Ok(()),
    }
}
