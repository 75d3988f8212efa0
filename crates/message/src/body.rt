// What a message is: all of its checks, 5 to 13.
ghost use Rattle.std.specs.Prelude.{◌≡◌, List, ℕ, take, true, false};
ghost use Rattle.std.proofs.Math.Option.{Option};
ghost use Rattle.lookup.specs.Answers.{place_of};
ghost use Rattle.pairs.specs.Lists.{lists};
ghost use Rattle.lookup.specs.Lookup.{segment_of};
ghost use Rattle.forms.specs.Forms.{key_bytes_of};
ghost use Rattle.head.specs.GoodHead.{Framed};
ghost use Rattle.head.specs.Fields.{length_of, form_in};
ghost use Rattle.head.specs.Tests.{framed, is_heartbeat};
ghost use Rattle.message.specs.Message.{TellsOf, place_there, places_in, places_there, market_in, updates, acting, acts_as, of_place, of_named};
ghost use Rattle.message.specs.Compared.{compared_there, keys_in, keys_there, compared_as, message_compared, key_sought, Seeks};
ghost use Rattle.message.specs.Reads.{rows_read, cells_read, contents_by, bare, message_of, Outlines, ReadsMessage, ReadsFormed};

use head::Fault;
use layout::{Form, Item, MOST_ROWS, Named, Subject};
use lookup::Sought;

#[derive(Clone, Copy)]
pub enum What {
    Heartbeat,
    // With its number.
    PassedOver(u32),
    // With its number, its form and its key's place in the segment.
    Update(u32, Form, usize),
}

// What a message is, how long it is, and how many keys were compared with its own. The cells of its rows are stored where the
// caller lends them, so that a message with no rows is handed on by these few bytes.
#[derive(Clone, Copy)]
pub struct Outline {
    pub what: Result<What, Fault>,
    pub length: usize,
    pub compared: usize,
}

// Where a message's key is looked up: the lists, and the segment of its batch's letter, where that is listed.
#[derive(Clone, Copy)]
struct Lists<'a> {
    list: &'a [u8],
    spreads: &'a [u8],
    segment: Option<usize>,
}

// The place of a key in a segment of its file, where there is one.
pub fn find(list: &[u8], spreads: &[u8], item: Item, segment: Option<usize>, key: &[u8]) -> Sought
    ensures { Seeks item (lists list.now spreads.now) key.now (place_of segment) result }
{
    match segment {
        Some(place) => match item {
            Item::Contract => lookup::place_of(list, files::CONTRACTS, place, key),
            Item::Pair => lookup::place_of(spreads, pairs::PAIRS, place, key),
        },
        None => Sought {
            found: None,
            compared: 0,
        },
    }
}

fn key_of(item: Item, data: &[u8]) -> &[u8]
    ensures { result.now ≡ take (key_bytes_of item) «data».now }
{
    let size = layout::key_bytes_of(item).min(data.len());
    &data[..size]
}

// 13, once the rows are good.
fn placed(there: &Lists, data: &[u8], whole: usize, number: u32, form: Form, item: Item) -> Outline
    ensures { Outlines (bare (of_place number form (place_there item (lists there.now.list.now there.now.spreads.now) (take (key_bytes_of item) «data».now) (place_of there.now.segment))) whole) (compared_there item (lists there.now.list.now there.now.spreads.now) (take (key_bytes_of item) «data».now) (place_of there.now.segment)) result }
{
    let sought = find(
        there.list,
        there.spreads,
        item,
        there.segment,
        key_of(item, data),
    );
    let found = sought.found;
    let what = match found {
        Some(place) => Ok(What::Update(number, form, place)),
        None => Err(Fault::Contract),
    };
    Outline {
        what,
        length: whole,
        compared: sought.compared,
    }
}

// Of a contract only the normal market's updates; a pair has no market type.
fn updates(item: Item, data: &[u8]) -> bool
    ensures { result ≡ updates item (market_in «data».now) }
{
    match item {
        Item::Contract => wire::u8_at(data, layout::KEY_BYTES) == b'N',
        Item::Pair => true,
    }
}

// An update with good rows: another market's is passed over, and its key isn't looked up.
fn acted(there: &Lists, data: &[u8], whole: usize, number: u32, form: Form, item: Item) -> Outline
    requires { TellsOf item form }
    ensures { Outlines (bare (of_named (acting (Named.Form form) (market_in «data».now)) number (places_in (lists there.now.list.now there.now.spreads.now) «data».now (place_of there.now.segment))) whole) (compared_as (acting (Named.Form form) (market_in «data».now)) (keys_in (lists there.now.list.now there.now.spreads.now) «data».now (place_of there.now.segment))) result }
{
    if updates(item, data) {
        return placed(there, data, whole, number, form, item);
    }
    Outline {
        what: Ok(What::PassedOver(number)),
        length: whole,
        compared: 0,
    }
}

// A fault before 13: no key was looked up.
fn bad(fault: Fault, bytes: &[u8]) -> Outline
    requires { key_sought fault ≡ false }
    ensures { (compared : ℕ) → Outlines (bare (Err fault) (length_of bytes.now)) compared result }
{
    Outline {
        what: Err(fault),
        length: head::length_of(bytes),
        compared: 0,
    }
}

// An update: its first bad row, and then its key.
fn update(
    there: &Lists,
    bytes: &[u8],
    whole: usize,
    form: Form,
    item: Item,
    cells: &mut [u64; MOST_ROWS],
) -> Outline
    requires { Framed bytes.now × (whole ≡ length_of bytes.now) × (form_in bytes.now ≡ Named.Form form) × TellsOf item form }
    ensures { ReadsMessage (contents_by (places_there (lists there.now.list.now there.now.spreads.now) bytes.now (place_of there.now.segment)) bytes.now) (compared_as (acts_as bytes.now) (keys_there (lists there.now.list.now there.now.spreads.now) bytes.now (place_of there.now.segment))) (rows_read bytes.now).cells cells.old result cells.new }
{
    let number = head::number_of(bytes);
    let end = whole - head::TRAILER;
    let data = &bytes[head::DATA..end];
    match layout::read_update(form, data, cells) {
        Ok(()) => acted(there, data, whole, number, form, item),
        Err(bad_row) => bad(Fault::from(bad_row), bytes),
    }
}

// What a message with a good head is.
// Kept: the frame is known and the form named in `formed` too; a struct for these two would be built and taken apart once.
fn contents(there: &Lists, bytes: &[u8], named: Named, cells: &mut [u64; MOST_ROWS]) -> Outline
    requires { (framed bytes.now ≡ true) × (named ≡ form_in bytes.now) }
    ensures { ReadsMessage (contents_by (places_there (lists there.now.list.now there.now.spreads.now) bytes.now (place_of there.now.segment)) bytes.now) (compared_as (acts_as bytes.now) (keys_there (lists there.now.list.now there.now.spreads.now) bytes.now (place_of there.now.segment))) (rows_read bytes.now).cells cells.old result cells.new }
{
    let whole = head::length_of(bytes);
    match named {
        Named::Form(form) => match layout::subject_of(form) {
            Subject::Nothing => Outline {
                what: Ok(What::Heartbeat),
                length: whole,
                compared: 0,
            },
            Subject::Of(item, _) => { update(there, bytes, whole, form, item, cells) }
        },
        Named::NoLength | Named::PassedOver => Outline {
            what: Ok(What::PassedOver(head::number_of(bytes))),
            length: whole,
            compared: 0,
        },
    }
}

// A heartbeat with a good frame, code and trailer: nothing is stored.
fn heartbeat(bytes: &[u8]) -> Outline
    requires { (framed bytes.now ≡ true) × (is_heartbeat (form_in bytes.now) ≡ true) }
    ensures { (place : Item → Option ℕ) (keys : Item → ℕ) (cells : List ℕ) → ReadsFormed place keys bytes.now cells result cells }
{
    match head::judge_heartbeat(bytes) {
        Ok(()) => Outline {
            what: Ok(What::Heartbeat),
            length: head::length_of(bytes),
            compared: 0,
        },
        Err(fault) => bad(fault, bytes),
    }
}

// A message with a good frame, code and trailer, by its form. Most messages of a quiet line are heartbeats, and theirs is the short way.
fn formed(there: &Lists, bytes: &[u8], named: Named, cells: &mut [u64; MOST_ROWS]) -> Outline
    requires { (framed bytes.now ≡ true) × (named ≡ form_in bytes.now) }
    ensures { ReadsFormed (places_there (lists there.now.list.now there.now.spreads.now) bytes.now (place_of there.now.segment)) (keys_there (lists there.now.list.now there.now.spreads.now) bytes.now (place_of there.now.segment)) bytes.now cells.old result cells.new }
{
    if head::is_heartbeat(named) {
        return heartbeat(bytes);
    }
    match head::judge_form(bytes, named) {
        Ok(()) => contents(there, bytes, named, cells),
        Err(fault) => bad(fault, bytes),
    }
}

// The message that begins here; `letter` is the letter of its batch's first message, and `segment` where that is listed. The
// table of forms is asked once the frame is known: no field is held against the end again, and what follows hangs on the form alone.
pub fn read(
    list: &[u8],
    spreads: &[u8],
    letter: u8,
    segment: Option<usize>,
    bytes: &[u8],
    cells: &mut [u64; MOST_ROWS],
) -> Outline
    requires { place_of segment ≡ segment_of list.now letter }
    ensures { ReadsMessage (message_of (lists list.now spreads.now) letter bytes.now) (message_compared (lists list.now spreads.now) letter bytes.now) (cells_read (lists list.now spreads.now) letter bytes.now) cells.old result cells.new }
{
    match head::judge_frame(letter, segment, bytes) {
        Ok(()) => {
            let there = Lists {
                list,
                spreads,
                segment,
            };
            formed(&there, bytes, head::form_in(bytes), cells)
        }
        Err(fault) => bad(fault, bytes),
    }
}
