// The program's memory, what of it is lent to the calls, and the commands that make no call.
ghost use Rattle.std.specs.Prelude.{◌≤◌};

use answers::Lent;
use commands::Command;
use std::rt::Files;

// A gap row for each of as many segments as a list may have.
const ROW_CELLS: usize = contracts::MOST_SEGMENTS * sequence::CELLS;

// The records of 128 contracts, and of 64 pairs.
const RECORD_CELLS: usize = 128 * slots::CONTRACT + 64 * slots::PAIR;

// Cells of which so many, from the first on, are handed to the calls.
#[derive(Drop)]
struct Cells<T: Copy + Drop, const N: usize> {
    all: [T; N],
    lent: usize,
    ghost within: { lent ≤ N },
}

impl<T: Copy + Drop, const N: usize> Cells<T, N> {
    fn lend(&mut self, count: usize) {
        self.lent = count.min(N);
    }

    fn keep(&mut self, text: &[T]) {
        let size = text.len().min(N);
        let all = &mut self.all[..];
        all[..size].copy_from_slice(&text[..size]);
        self.lent = size;
    }

    fn lent(&self) -> &[T] {
        &self.all[..self.lent]
    }

    fn lent_mut(&mut self) -> &mut [T] {
        let lent = self.lent;
        let all = &mut self.all;
        let all = &mut all[..];
        &mut all[..lent]
    }
}

#[derive(Drop)]
pub struct Memory {
    list: Cells<u8, { console::FILE_ROOM }>,
    spreads: Cells<u8, { console::MOST_LIST }>,
    rows: Cells<u32, ROW_CELLS>,
    records: Cells<u64, RECORD_CELLS>,
}

impl Memory {
    // All of it is lent at first, beside the file `contracts` as the list; one that is too long counts as an empty list. Each array is
    // made in its place: handed on by value they took another 129 KiB of stack.
    pub fn new(rt: &impl Files) -> Self {
        let mut memory = Memory {
            list: Cells {
                all: [0; console::FILE_ROOM],
                lent: 0,
            },
            spreads: Cells {
                all: [0; console::MOST_LIST],
                lent: 0,
            },
            rows: Cells {
                all: [0; ROW_CELLS],
                lent: ROW_CELLS,
            },
            records: Cells {
                all: [0; RECORD_CELLS],
                lent: RECORD_CELLS,
            },
        };
        let size = console::read_contracts(rt, &mut memory.list.all);
        let size = if console::MOST_LIST < size { 0 } else { size };
        memory.list.lend(size);
        memory.go_beside();
        memory
    }

    // The spread list that is handed over with a contract list until one is told.
    fn go_beside(&mut self) {
        let size = answers::beside(self.list.lent(), &mut self.spreads.all);
        self.spreads.lend(size);
    }

    fn store(&mut self, bytes: &[u8]) {
        let cell = wire::u32_at(bytes, 1) as usize;
        if cell < ROW_CELLS {
            self.rows.all[cell] = wire::u32_at(bytes, 5);
        }
    }

    pub fn keep(&mut self, command: Command, bytes: &[u8]) {
        match command {
            Command::Lend => {
                self.rows.lend(wire::u32_at(bytes, 1) as usize);
                self.records.lend(wire::u32_at(bytes, 5) as usize);
            }
            Command::List => {
                self.list.keep(commands::batch_in(bytes));
                self.go_beside();
            }
            Command::Spreads => self.spreads.keep(commands::batch_in(bytes)),
            Command::Store => self.store(bytes),
            _ => (),
        }
    }

    pub fn lent(&mut self) -> Lent<'_> {
        Lent {
            list: self.list.lent(),
            spreads: self.spreads.lent(),
            rows: self.rows.lent_mut(),
            records: self.records.lent_mut(),
        }
    }
}
