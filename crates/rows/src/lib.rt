// The rows of each form, as data.
#![tactic(auto)]

ghost use Rattle.std.specs.Prelude.{◌≡◌, length};
ghost use Rattle.forms.specs.Forms.{rows_of};

use forms::{Form, Markets, Row};

// The papers' widths.
const PRICE: Row = Row::Price(17);

const NARROW_PRICE: Row = Row::Price(10);

const DIFFERENCE: Row = Row::Difference(17);

const QUANTITY: Row = Row::Quantity(12);

const TIME_STAMP: Row = Row::Quantity(11);

const TURNOVER: Row = Row::Turnover(25);

// 000 section 4.4 and 003 section 4.5.
const LEVEL_ONE: &[Row] = &[
    Row::Key(6),
    Row::Key(10),
    Row::Key(11),
    Row::Key(10),
    Row::Key(2),
    Row::MarketType(Markets::Normal),
    PRICE,
    QUANTITY,
    PRICE,
    QUANTITY,
    PRICE,
    QUANTITY,
    Row::Status,
    PRICE,
    PRICE,
    PRICE,
    PRICE,
    PRICE,
    TURNOVER,
];

// 000 section 4.5 and 003 section 4.6.
const LEVEL_TWO: &[Row] = &[
    Row::Key(6),
    Row::Key(10),
    Row::Key(11),
    Row::Key(10),
    Row::Key(2),
    Row::MarketType(Markets::Normal),
    PRICE,
    QUANTITY,
    PRICE,
    QUANTITY,
    PRICE,
    QUANTITY,
    PRICE,
    QUANTITY,
    PRICE,
    QUANTITY,
    PRICE,
    QUANTITY,
    PRICE,
    QUANTITY,
    PRICE,
    QUANTITY,
    PRICE,
    QUANTITY,
    PRICE,
    QUANTITY,
    PRICE,
    QUANTITY,
    Row::Status,
    PRICE,
    PRICE,
    PRICE,
    PRICE,
    PRICE,
    QUANTITY,
    QUANTITY,
    TURNOVER,
];

// 000 section 4.6 and 003 section 4.3.
const PAIR_ONE: &[Row] = &[
    Row::Key(6),
    Row::Key(10),
    Row::Key(11),
    Row::Key(10),
    Row::Key(2),
    Row::Key(6),
    Row::Key(10),
    Row::Key(11),
    Row::Key(10),
    Row::Key(2),
    DIFFERENCE,
    QUANTITY,
    DIFFERENCE,
    QUANTITY,
    DIFFERENCE,
    QUANTITY,
    DIFFERENCE,
    DIFFERENCE,
    DIFFERENCE,
];

// 000 section 4.7 and 003 section 4.4.
const PAIR_TWO: &[Row] = &[
    Row::Key(6),
    Row::Key(10),
    Row::Key(11),
    Row::Key(10),
    Row::Key(2),
    Row::Key(6),
    Row::Key(10),
    Row::Key(11),
    Row::Key(10),
    Row::Key(2),
    DIFFERENCE,
    QUANTITY,
    DIFFERENCE,
    QUANTITY,
    DIFFERENCE,
    QUANTITY,
    DIFFERENCE,
    QUANTITY,
    DIFFERENCE,
    QUANTITY,
    DIFFERENCE,
    QUANTITY,
    DIFFERENCE,
    QUANTITY,
    DIFFERENCE,
    QUANTITY,
    DIFFERENCE,
    QUANTITY,
    DIFFERENCE,
    QUANTITY,
    DIFFERENCE,
    QUANTITY,
    DIFFERENCE,
    DIFFERENCE,
    DIFFERENCE,
    QUANTITY,
    QUANTITY,
];

// 002 section 4.4.
const FUTURE_ONE: &[Row] = &[
    Row::Key(6),
    Row::Key(10),
    Row::Key(11),
    Row::Key(10),
    Row::Key(2),
    Row::MarketType(Markets::Any),
    TIME_STAMP,
    NARROW_PRICE,
    QUANTITY,
    NARROW_PRICE,
    QUANTITY,
    NARROW_PRICE,
    QUANTITY,
    Row::Status,
    NARROW_PRICE,
    NARROW_PRICE,
    NARROW_PRICE,
    NARROW_PRICE,
    NARROW_PRICE,
    TURNOVER,
];

// 002 section 4.5.
const FUTURE_TWO: &[Row] = &[
    Row::Key(6),
    Row::Key(10),
    Row::Key(11),
    Row::Key(10),
    Row::Key(2),
    Row::MarketType(Markets::Any),
    TIME_STAMP,
    NARROW_PRICE,
    QUANTITY,
    NARROW_PRICE,
    QUANTITY,
    NARROW_PRICE,
    QUANTITY,
    NARROW_PRICE,
    QUANTITY,
    NARROW_PRICE,
    QUANTITY,
    NARROW_PRICE,
    QUANTITY,
    NARROW_PRICE,
    QUANTITY,
    NARROW_PRICE,
    QUANTITY,
    NARROW_PRICE,
    QUANTITY,
    NARROW_PRICE,
    QUANTITY,
    NARROW_PRICE,
    QUANTITY,
    Row::Status,
    NARROW_PRICE,
    NARROW_PRICE,
    NARROW_PRICE,
    NARROW_PRICE,
    NARROW_PRICE,
    QUANTITY,
    QUANTITY,
    TURNOVER,
];

#[tactic(auto, unfolding(forms::specs::Forms::rows_of, forms::specs::Forms::named_rows))]
pub fn rows_of(form: Form) -> &'static [Row]
    ensures { result.now ≡ rows_of form }
{
    match form {
        Form::Heartbeat => &[],
        Form::LevelOne => LEVEL_ONE,
        Form::LevelTwo => LEVEL_TWO,
        Form::PairOne => PAIR_ONE,
        Form::PairTwo => PAIR_TWO,
        Form::FutureOne | Form::PreOpenOne => FUTURE_ONE,
        Form::FutureTwo | Form::PreOpenTwo => FUTURE_TWO,
    }
}

pub fn count_of(form: Form) -> usize
    ensures { result ≡ length (rows_of form) }
{
    rows_of(form).len()
}
