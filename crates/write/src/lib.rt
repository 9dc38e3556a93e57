// The v8 file of a sheet, in two passes. The codes are written where they fit, so the
// same pass measures when it is lent no bytes.
#![tactic(auto)]

ghost use Rattle.std.specs.Prelude.{◌≡◌, ◌≤◌, ◌<◌, length, drop};
ghost use Rattle.format.specs.Sheet.{records_of, front_header, sheet_result};
ghost use Rattle.format.specs.Answers.{answer_of};
ghost use Rattle.format.specs.Writing.{v8, write_outcome, write_buffer};
ghost use Rattle.counts.specs.Tallies.{Rest, Passed};
ghost use Rattle.write.specs.Passing.{setting_in, hand_of, hand_after, Named, EnteredTold};

use format::{Done, Fault, Fields, Point, Refusal, Setting};

// ---- the records of a sheet

// What the codes of a record find, but for the position: style and date, their mark, and
// where in the sheet the previous label stands.
#[derive(Clone, Copy)]
struct Hand {
    style: u8,
    date: format::Dated,
    mark: u64,
    from: usize,
    to: usize,
}

fn hand_of(setting: Setting, from: usize, to: usize) -> Hand
    ensures { result ≡ hand_of setting from to }
{
    let style = setting.style;
    let date = setting.date;
    let mark = plain::mark_of(style, date);
    Hand {
        style,
        date,
        mark,
        from,
        to,
    }
}

// What a record leaves together with this setting, whose label stands from `from` to
// `to`.
fn hand_after(hand: Hand, setting: Setting, fields: Fields, from: usize, to: usize) -> Hand
    ensures { result ≡ hand_after hand setting fields from to }
{
    match fields {
        Fields::Leg { .. } | Fields::Station { .. } | Fields::Section { .. } => {
            hand_of(setting, from, to)
        }
        Fields::Error { .. } => hand,
    }
}

// What a well-formed record of so many bytes comes to: its fields, how many bytes its
// codes take, and what it leaves.
#[derive(Clone, Copy)]
struct Coded {
    size: usize,
    fields: Fields,
    bytes: usize,
    hand: Hand,
    position: Option<Point>,
}

// The codes of the record at `at`, written over the front of out where they fit.
fn put_entry(
    sheet: &[u8],
    version: u8,
    at: usize,
    hand: Hand,
    position: Option<Point>,
    out: &mut [u8],
) -> Option<Coded>
    requires { (at < length sheet.now) × Named sheet.now hand }
    ensures { EnteredTold result version sheet.now at hand position out.old out.new }
{
    let sheet::Entry { size, fields, from } = sheet::read_entry(&sheet[at..], version)?;
    let name = at + from;
    let end = at + size;
    let first = hand.from;
    let last = hand.to;
    let setting = Setting {
        style: hand.style,
        date: hand.date,
        position,
    };
    let bytes = codes::put_record(out, setting, &sheet[first..last], &sheet[name..end], fields);
    let after = counts::setting_after(setting, fields);
    Some(Coded {
        size,
        fields,
        bytes,
        hand: hand_after(hand, after, fields, name, end),
        position: after.position,
    })
}

// The records of a sheet of the version from `begin` on and the closing codes, written
// where they fit into out from `head` on: the answer, for room enough.
fn put_records(
    sheet: &[u8],
    version: u8,
    begin: usize,
    out: &mut [u8],
    head: usize,
) -> Result<Done, Refusal>
    requires { (begin ≤ length sheet.now) × (head ≤ 8192) }
    ensures { Rest v8 (records_of version (drop begin sheet.now)) head out.old out.new result }
{
    let mut at = begin;
    let mut total = head;
    let mut number: usize = 0;
    let mut fault = Ok(());
    let mut position = None;
    let mut hand = hand_of(format::start_setting(), 0, 0);
    // Records differ in size: each turn moves the place on by its own record.
    while at < sheet.len() {
        let room = counts::within(total, out.len());
        let s = &sheet[at..];
        let first = hand.from;
        let last = hand.to;
        let found = plain::find(s, version, hand.mark, position, &sheet[first..last]);
        if let Some(item) = found {
            let n = plain::put(&mut out[room..], item, last - first, s);
            let form = item.form;
            total = counts::more(total, n);
            position = plain::position_after(form, s, position);
            hand.from = at + plain::label_at(form);
            at += item.size;
            hand.to = at;
            number += 1;
            continue;
        }
        let entered = put_entry(sheet, version, at, hand, position, &mut out[room..]);
        let Some(coded) = entered else {
            return Err(Fault::BrokenLayout.at(number));
        };
        total = counts::more(total, coded.bytes);
        fault = counts::first_fault(fault, hand.style, coded.fields, number);
        position = coded.position;
        hand = coded.hand;
        number += 1;
        at += coded.size;
    }
    counts::finish(out, hand.style, total, number, fault)
}

// A pass over the sheet: the answer, for room enough, and each piece written where
// it fits.
fn pass(sheet: &[u8], out: &mut [u8]) -> Result<Done, Refusal>
    ensures { Passed v8 (front_header sheet.now) (sheet_result sheet.now) out.old out.new result }
{
    let version = sheet::version_of(sheet);
    let Some(front) = sheet::read_front(sheet, version) else {
        return Err(Fault::BrokenLayout.at(0));
    };
    let middle = 7 + front.title;
    let begin = middle + front.time;
    let head = frame::put_header(
        out,
        front.extended,
        &sheet[7..middle],
        &sheet[middle..begin],
    );
    put_records(sheet, version, begin, out, head)
}

// Writes the v8 file of a sheet to the front of out.
pub fn write(sheet: &[u8], out: &mut [u8]) -> Result<Done, Refusal>
    ensures answer { answer_of result ≡ write_outcome v8 sheet.now (length out.old) }
    ensures file { out.new ≡ write_buffer v8 sheet.now out.old }
{
    counts::in_two_passes(out, |room: &mut [u8]| pass(sheet, room))
}
