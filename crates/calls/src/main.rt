// The test bench: makes the calls that it is told from standard input, and prints what each answers.
#![tactic(auto)]

mod memory;

use commands::Command;
use console::{Page, Room};
use memory::Memory;
use std::io::{Read, Result, Write};

// What a command tells is kept, and its call is made with what is then lent.
fn obey(page: &mut impl Write, command: Command, bytes: &[u8], memory: &mut Memory) -> Result<()> {
    memory.keep(command, bytes);
    answers::answer(page, bytes, &mut memory.lent())
}

// Every command. A proved loop has to end, so the commands are counted, up to a number that no run reaches.
fn run<R: Read, P: Print, const M: usize>(
    input: &mut R,
    page: &mut Page<'_, P, M>,
    memory: &mut Memory,
) -> Result<()> {
    let mut room: Room<65536> = Room::new();
    for _ in 0..u64::MAX {
        let Some((command, length)) = commands::next_beside(input, &mut room, page)? else {
            break;
        };
        obey(page, command, &room.unread()[..length], memory)?;
        room.consume(length);
    }
    Ok(())
}

fn main(rt: HostRuntime) -> Result<()> {
    let mut page: Page<HostRuntime, 4096> = Page::new(&rt);
    run(&mut rt.reader(), &mut page, &mut Memory::new(&rt))?;
    writeln!(page, "end")?;
    page.flush()
}
