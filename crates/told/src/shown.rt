// The record that is read, among the values that a host lends: its number, a contract's session, then one value a row behind the key.
// Only a record is shown.
ghost use Rattle.std.specs.Prelude.{◌≡◌};
ghost use Rattle.forms.specs.declared.forms.Item.TheVariants.{Contract, Pair};
ghost use Rattle.values.specs.Values.{row_values, spread_values};
ghost use Rattle.told.specs.Shown.{values_after};

use layout::Level;
use quote::Quote;
use quotebox::Recorded;
use spread::SpreadQuote;

pub fn show(recorded: Recorded, level: Level, quote: Quote, values: &mut [u64; values::MOST])
    ensures { values.new ≡ values_after Contract recorded (row_values level quote) values.old }
{
    match recorded {
        Recorded::Record(number, session) => {
            values[0] = number;
            values[1] = layout::session_cell(session);
            values::put(level, quote, values);
        }
        Recorded::NoRecord => {}
        Recorded::Refused(_) => {}
    }
}

pub fn show_spread(
    recorded: Recorded,
    level: Level,
    quote: SpreadQuote,
    values: &mut [u64; values::MOST],
)
    ensures { values.new ≡ values_after Pair recorded (spread_values level quote) values.old }
{
    match recorded {
        Recorded::Record(number, _) => {
            values[0] = number;
            values::put_spread(level, quote, values);
        }
        Recorded::NoRecord => {}
        Recorded::Refused(_) => {}
    }
}
