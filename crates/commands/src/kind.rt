// The commands of the test bench, each by its letter.
ghost use Rattle.std.specs.Prelude.{◌≡◌};
ghost use Rattle.commands.specs.Letters.{command_of};

use layout::Item;

#[derive(Clone, Copy)]
pub enum Command {
    // Calls of the box.
    Start,
    Judge,
    Take,
    Gaps,
    Off,
    Read(Item),
    Write(Item),
    // What of the memory is lent, which lists are handed over, and a gap-row cell stored.
    Lend,
    List,
    Spreads,
    Store,
}

impl Command {
    pub fn of(letter: u8) -> Option<Command>
        ensures { result ≡ command_of letter }
    {
        match letter {
            b'S' => Some(Command::Start),
            b'J' => Some(Command::Judge),
            b'K' => Some(Command::Take),
            b'G' => Some(Command::Gaps),
            b'O' => Some(Command::Off),
            b'R' => Some(Command::Read(Item::Contract)),
            b'Q' => Some(Command::Read(Item::Pair)),
            b'W' => Some(Command::Write(Item::Contract)),
            b'V' => Some(Command::Write(Item::Pair)),
            b'M' => Some(Command::Lend),
            b'L' => Some(Command::List),
            b'X' => Some(Command::Spreads),
            b'P' => Some(Command::Store),
            _ => None,
        }
    }
}
