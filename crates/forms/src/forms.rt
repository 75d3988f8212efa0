// The forms of messages as data: which code and length name which form, and what a form has.
ghost use Rattle.std.specs.Prelude.{◌≡◌, [], ◌∷◌};
ghost use Rattle.forms.specs.Answers.{Tells, subject_numbers, named_numbers, form_named, chosen_numbers, form_chosen};
ghost use Rattle.forms.specs.Rows.{data_length, message_length};
ghost use Rattle.forms.specs.Forms.{rows_of, subject_of, key_rows_of, key_bytes_of, record_form, session_of, is_stamped, at_level, meaning_of, named_by, form_of, sum_rule, written_form};
ghost use Rattle.forms.specs.Inner.{family_meaning};

use crate::rows::Level;

// What the longest form has, a contract key, and the two keys of a pair.
pub const MOST_ROWS: usize = 38;

pub const MOST_DATA: usize = 494;

pub const KEY_ROWS: usize = 5;

pub const KEY_BYTES: usize = 39;

pub const PAIR_ROWS: usize = 10;

pub const PAIR_BYTES: usize = 78;

// What a message has beside its data.
pub const BARE: usize = 11;

// Level 1 has less data than level 2; that of a contract has the most data.
const LEVEL_ONE_DATA: usize = 238;

const PAIR_ONE_DATA: usize = 216;

const PAIR_TWO_DATA: usize = 472;

// Futures and options: the prices are narrower, and a time stamp stands before them.
const FUTURE_ONE_DATA: usize = 193;

const FUTURE_TWO_DATA: usize = 393;

#[derive(Clone, Copy)]
pub enum Form {
    Heartbeat,
    LevelOne,
    LevelTwo,
    PairOne,
    PairTwo,
    // Futures and options in the normal market, and in pre-open: the same rows.
    FutureOne,
    FutureTwo,
    PreOpenOne,
    PreOpenTwo,
}

// The market's session in which an update was sent.
#[derive(Clone, Copy)]
pub enum Session {
    Normal,
    PreOpen,
}

// What the house files list: contracts, and spreads, which are pairs of them.
#[derive(Clone, Copy)]
pub enum Item {
    Contract,
    Pair,
}

// What a form tells of: nothing, or one that is listed, at a level.
#[derive(Clone, Copy)]
pub enum Subject {
    Nothing,
    Of(Item, Level),
}

// What the two bytes of the sum may be.
#[derive(Clone, Copy)]
pub enum Sum {
    Zero,
    Right,
    RightOrZero,
}

// What a code and a length name.
#[derive(Clone, Copy)]
pub enum Named {
    Form(Form),
    // A code of the table with none of its lengths.
    NoLength,
    // Framed, checked and counted, with no field looked at.
    PassedOver,
}

// The codes that mean the same: they have the same forms and the same rule for their sum.
#[derive(Clone, Copy)]
enum Family {
    Heartbeat,
    Contract,
    Pair,
    Future,
    PreOpen,
    // Passed over, with a sum that the papers say isn't calculated.
    Unsummed,
    // Passed over, with its true sum.
    Outside,
}

#[tactic(auto, unfolding(crate::specs::Forms::rows_of, crate::specs::Forms::named_rows))]
pub fn data_length(form: Form) -> usize
    ensures { result ≡ data_length (rows_of form) }
{
    match form {
        Form::Heartbeat => 0,
        Form::LevelOne => LEVEL_ONE_DATA,
        Form::LevelTwo => MOST_DATA,
        Form::PairOne => PAIR_ONE_DATA,
        Form::PairTwo => PAIR_TWO_DATA,
        Form::FutureOne | Form::PreOpenOne => FUTURE_ONE_DATA,
        Form::FutureTwo | Form::PreOpenTwo => FUTURE_TWO_DATA,
    }
}

pub fn subject_of(form: Form) -> Subject
    ensures { subject_numbers result ≡ subject_numbers (subject_of form) }
{
    match form {
        Form::Heartbeat => Subject::Nothing,
        Form::LevelOne | Form::FutureOne | Form::PreOpenOne => {
            Subject::Of(Item::Contract, Level::One)
        }
        Form::LevelTwo | Form::FutureTwo | Form::PreOpenTwo => {
            Subject::Of(Item::Contract, Level::Two)
        }
        Form::PairOne => Subject::Of(Item::Pair, Level::One),
        Form::PairTwo => Subject::Of(Item::Pair, Level::Two),
    }
}

// Pre-open updates have forms of their own, so that a form tells its session.
pub fn session_of(form: Form) -> Session
    ensures { result ≡ session_of form }
{
    match form {
        Form::PreOpenOne | Form::PreOpenTwo => Session::PreOpen,
        _ => Session::Normal,
    }
}

// Whether a form has a time stamp.
pub fn is_stamped(form: Form) -> bool
    ensures { result ≡ is_stamped form }
{
    matches!(
        form,
        Form::FutureOne | Form::FutureTwo | Form::PreOpenOne | Form::PreOpenTwo
    )
}

// The rows and the bytes of the key of what is listed.
pub fn key_rows_of(item: Item) -> usize
    ensures { result ≡ key_rows_of item }
{
    match item {
        Item::Contract => KEY_ROWS,
        Item::Pair => PAIR_ROWS,
    }
}

pub fn key_bytes_of(item: Item) -> usize
    ensures { result ≡ key_bytes_of item }
{
    match item {
        Item::Contract => KEY_BYTES,
        Item::Pair => PAIR_BYTES,
    }
}

// The one of two forms that has the level.
fn at_level(level: Level, one: Form, two: Form) -> Form
    ensures { result ≡ at_level level one two }
{
    match level {
        Level::One => one,
        Level::Two => two,
    }
}

// The form with every row that a record of that level keeps.
pub fn record_form(item: Item, level: Level) -> Form
    ensures { result ≡ record_form item level }
{
    match item {
        Item::Contract => at_level(level, Form::FutureOne, Form::FutureTwo),
        Item::Pair => at_level(level, Form::PairOne, Form::PairTwo),
    }
}

#[tactic(auto, unfolding(crate::specs::Forms::meaning_of))]
fn family_of(letter: u8, second: u8) -> Family
    ensures { family_meaning result ≡ meaning_of letter second }
{
    // Most messages of a quiet line are heartbeats, and theirs is the short way. P has none.
    // Kept: in one match of both bytes a heartbeat takes a tenth longer.
    if second == b'H' {
        return match letter {
            b'D' | b'T' | b'F' => Family::Heartbeat,
            _ => Family::Outside,
        };
    }
    match (letter, second) {
        (b'D' | b'T', b'N') => Family::Contract,
        (b'D' | b'T', b'P') => Family::Pair,
        (b'F', b'N') => Family::Future,
        (b'P', b'N') => Family::PreOpen,
        // Market status.
        (b'D' | b'T' | b'F' | b'P', b'O' | b'C') => Family::Unsummed,
        // End of feed, and the counts of messages.
        (b'D' | b'T' | b'F', b'E') => Family::Unsummed,
        (b'F', b'Z') => Family::Unsummed,
        _ => Family::Outside,
    }
}

fn length_of(form: Form) -> usize
    ensures { result ≡ message_length (rows_of form) }
{
    data_length(form) + BARE
}

// Where both levels print one code, the length tells them apart.
fn of_length(one: Form, two: Form, length: usize) -> Named
    ensures { Tells named_numbers form_named (named_by (one ∷ two ∷ []) length) result }
{
    if length == length_of(one) {
        return Named::Form(one);
    }
    if length == length_of(two) {
        return Named::Form(two);
    }
    Named::NoLength
}

#[tactic(auto, using(crate::specs::AnswersLaws::tells), unfolding(crate::specs::Forms::form_of, crate::specs::Forms::rows_of, crate::specs::Forms::named_rows))]
pub fn form_of(letter: u8, second: u8, length: usize) -> Named
    ensures { Tells named_numbers form_named (form_of letter second length) result }
{
    match family_of(letter, second) {
        Family::Heartbeat => match length {
            BARE => Named::Form(Form::Heartbeat),
            _ => Named::NoLength,
        },
        Family::Contract => of_length(Form::LevelOne, Form::LevelTwo, length),
        Family::Pair => of_length(Form::PairOne, Form::PairTwo, length),
        Family::Future => of_length(Form::FutureOne, Form::FutureTwo, length),
        Family::PreOpen => of_length(Form::PreOpenOne, Form::PreOpenTwo, length),
        Family::Unsummed | Family::Outside => Named::PassedOver,
    }
}

// The code alone decides, and not the length.
pub fn sum_rule(letter: u8, second: u8) -> Sum
    ensures { result ≡ sum_rule letter second }
{
    match family_of(letter, second) {
        Family::Heartbeat => Sum::Zero,
        Family::Contract | Family::Pair | Family::Future | Family::PreOpen => Sum::Right,
        Family::Outside => Sum::Right,
        Family::Unsummed => Sum::RightOrZero,
    }
}

// The form that is written for a code and what is asked for. A heartbeat tells of nothing; it is written beside contracts.
#[tactic(auto, using(crate::specs::AnswersLaws::tells, crate::specs::FormsLaws::asked_written), unfolding(crate::specs::Forms::written_form))]
pub fn written_form(letter: u8, second: u8, item: Item, level: Level) -> Option<Form>
    ensures { Tells chosen_numbers form_chosen (written_form letter second item level) result }
{
    match (item, family_of(letter, second)) {
        (Item::Contract, Family::Heartbeat) => Some(Form::Heartbeat),
        (Item::Contract, Family::Contract) => Some(at_level(level, Form::LevelOne, Form::LevelTwo)),
        (Item::Contract, Family::Future) => Some(at_level(level, Form::FutureOne, Form::FutureTwo)),
        (Item::Contract, Family::PreOpen) => {
            Some(at_level(level, Form::PreOpenOne, Form::PreOpenTwo))
        }
        (Item::Pair, Family::Pair) => Some(at_level(level, Form::PairOne, Form::PairTwo)),
        _ => None,
    }
}
