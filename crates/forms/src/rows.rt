ghost use Rattle.std.specs.Prelude.{◌≡◌};
ghost use Rattle.forms.specs.Rows.{width_of};

// The market types that a row takes: that of the normal market alone, or every one that the papers print.
#[derive(Clone, Copy)]
pub enum Markets {
    Normal,
    Any,
}

// A row of the data: its kind, and its width where the kind does not fix it.
#[derive(Clone, Copy)]
pub enum Row {
    Key(usize),
    MarketType(Markets),
    Status,
    Price(usize),
    // A difference of prices, which may be below zero.
    Difference(usize),
    Quantity(usize),
    Turnover(usize),
}

#[derive(Clone, Copy)]
pub enum Level {
    One,
    Two,
}

pub fn width_of(row: Row) -> usize
    ensures { result ≡ width_of row }
{
    match row {
        Row::MarketType(_) | Row::Status => 1,
        Row::Key(width)
        | Row::Price(width)
        | Row::Difference(width)
        | Row::Quantity(width)
        | Row::Turnover(width) => width,
    }
}
