// The v7 file of a sheet, in two passes, as the v8 file is written: what differs are the
// codes, the closing and what cannot be written.
#![tactic(auto)]

ghost use Rattle.std.specs.Prelude.{◌≡◌, ◌∷◌, ◌++◌, ◌+◌, ◌≤◌, ◌<◌, eqb, length, drop};
ghost use Rattle.format.specs.Answers.{answer_of};
ghost use Rattle.format.specs.Header.{file_limit};
ghost use Rattle.format.specs.Sheet.{records_of, front_header, sheet_result};
ghost use Rattle.format.specs.V7Codes.{v7_codes_limit, v7_closing};
ghost use Rattle.format.specs.Writing.{v7, headed_by, headed, write_outcome, write_buffer};
ghost use Rattle.part.specs.Lays.{Lays};
ghost use Rattle.plain.specs.Plainly.{label_at, tail_of, v7_code};
ghost use Rattle.plain.specs.Placed.{Placed};
ghost use Rattle.counts.specs.Tallies.{Finished, Rest, Passed};
ghost use Rattle.write_v7.specs.Passing.{hand_of, carried_style, hand_after, hand_found, state_in, Named, TurnedTold};

use format::{Done, Fault, Fields, Refusal, Setting};

// ---- the records of a sheet

// What the codes of a record find: a setting and the mark of its style and date, and where
// in the sheet the previous label stands. v7 has no styles: that of the setting is what
// legs are looked for with, normal or not said.
#[derive(Clone, Copy)]
struct Hand {
    setting: Setting,
    mark: u64,
    from: usize,
    to: usize,
}

fn hand_of(setting: Setting, from: usize, to: usize) -> Hand
    ensures { result ≡ hand_of setting from to }
{
    let mark = plain::mark_of(setting.style, setting.date);
    Hand {
        setting,
        mark,
        from,
        to,
    }
}

// The style of a leg, which v7 carries where it is normal or not said.
fn carried(style: u8) -> u8
    ensures { result ≡ carried_style style }
{
    if style == 0 {
        return 0;
    }
    format::NOT_SAID
}

// What a record leaves, whose label stands from `from` to `to`.
fn hand_after(hand: Hand, fields: Fields, from: usize, to: usize) -> Hand
    ensures { result ≡ hand_after hand fields from to }
{
    match fields {
        Fields::Leg {
            style,
            date,
            to: point,
            ..
        } => {
            let setting = Setting {
                style: carried(style),
                date,
                position: Some(point),
            };
            hand_of(setting, from, to)
        }
        Fields::Station { .. } => hand_of(hand.setting, from, to),
        Fields::Section { .. } => {
            let setting = counts::setting_after(hand.setting, fields);
            hand_of(setting, from, to)
        }
        Fields::Error { .. } => hand,
    }
}

// ---- one record

// What a well-formed record of so many bytes comes to: the bytes of its codes, whether v7
// cannot carry it, and what it leaves.
#[derive(Clone, Copy)]
struct Turned {
    size: usize,
    bytes: usize,
    bad: bool,
    hand: Hand,
}

// The codes of the record at `at`, written over the front of out where they fit.
fn put_entry(sheet: &[u8], version: u8, at: usize, hand: Hand, out: &mut [u8]) -> Option<Turned>
    requires { (at < length sheet.now) × Named sheet.now hand }
    ensures { TurnedTold result version sheet.now at hand out.old out.new }
{
    let sheet::Entry { size, fields, from } = sheet::read_entry(&sheet[at..], version)?;
    let name = at + from;
    let end = at + size;
    let first = hand.from;
    let last = hand.to;
    let bytes = v7::put_record(
        out,
        hand.setting,
        &sheet[first..last],
        &sheet[name..end],
        fields,
    );
    Some(Turned {
        size,
        bytes,
        bad: v7::unable(fields),
        hand: hand_after(hand, fields, name, end),
    })
}

// The code of a leg or a station in v7, by its code in v8.
fn old_code(form: plain::Form, code: u8) -> u8
    requires { (0x40 ≤ code) × (code ≤ 0x9f) }
    ensures { result ≡ v7_code form code }
{
    match form {
        plain::Form::Leg => code + 0x40,
        plain::Form::Station => code - 0x40,
        plain::Form::Narrow | plain::Form::Wide => code,
    }
}

// The item of the leg or station s with the bytes that are added to its label, written into
// out from `at` on where it fits; answers where it ends.
fn put_item(out: &mut [u8], at: usize, code: u8, added: &[u8], form: plain::Form, s: &[u8]) -> usize
    requires { (at ≤ 65536) × Placed form × (length added.now ≤ 15) × (label_at form ≤ length s.now) }
    ensures { Lays out.old out.new at (code ∷ length added.now ∷ (added.now ++ tail_of form s.now)) 33 result }
{
    let start = counts::within(at, out.len());
    let n = plain::put_placed(&mut out[start..], code, added, form, s);
    at + n
}

// What the leg or station s leaves, whose label stands from `from` to `to`.
fn hand_found(hand: Hand, form: plain::Form, s: &[u8], from: usize, to: usize) -> Hand
    requires { label_at form ≤ length s.now }
    ensures { result ≡ hand_found hand form s.now from to }
{
    let old = hand.setting;
    let setting = Setting {
        position: plain::position_after(form, s, old.position),
        ..old
    };
    Hand {
        setting,
        from,
        to,
        ..hand
    }
}

// As `put_entry`, but a leg or station that goes on is not taken apart.
fn put_next(sheet: &[u8], version: u8, at: usize, hand: Hand, out: &mut [u8]) -> Option<Turned>
    requires { (at < length sheet.now) × Named sheet.now hand }
    ensures { TurnedTold result version sheet.now at hand out.old out.new }
{
    let first = hand.from;
    let last = hand.to;
    let s = &sheet[at..];
    let found = plain::find_placed(s, hand.mark, hand.setting.position, &sheet[first..last]);
    let Some(item) = found else {
        return put_entry(sheet, version, at, hand, out);
    };
    let form = item.form;
    let size = item.size;
    let name = at + plain::label_at(form);
    let end = at + size;
    let added = &sheet[name + item.kept..end];
    let a = v7::put_shorten(out, 0, last - first, item.kept);
    let bytes = put_item(out, a, old_code(form, item.code), added, form, s);
    Some(Turned {
        size,
        bytes,
        bad: false,
        hand: hand_found(hand, form, s, name, end),
    })
}

// ---- all records

// The end of a file behind the previous label: the closing codes, written where they fit
// into out behind the bytes so far, and the answer, for room enough.
fn finish(
    sheet: &[u8],
    hand: Hand,
    out: &mut [u8],
    total: usize,
    number: usize,
    fault: Result<(), Refusal>,
) -> Result<Done, Refusal>
    requires { (total ≤ file_limit + v7_codes_limit) × Named sheet.now hand }
    ensures { Finished v7 out.old out.new (v7_closing (state_in sheet.now hand).label) (record { bytes = total; records = number; fault = fault }) result }
{
    let first = hand.from;
    let last = hand.to;
    let start = counts::within(total, out.len());
    let n = v7::put_closing(&mut out[start..], &sheet[first..last]);
    counts::settle(total + n, number, fault, 7)
}

// The records of a sheet of the version from `begin` on and the closing codes, written
// where they fit into out from `head` on: the answer, for room enough.
fn put_records(
    sheet: &[u8],
    version: u8,
    extended: u8,
    begin: usize,
    out: &mut [u8],
    head: usize,
) -> Result<Done, Refusal>
    requires { (begin ≤ length sheet.now) × (head ≤ 8192) }
    ensures { Rest v7 (headed_by (eqb extended 1) 23 (records_of version (drop begin sheet.now))) head out.old out.new result }
{
    let mut at = begin;
    let mut total = head;
    let mut number: usize = 0;
    let mut fault = Ok(());
    let mut hand = hand_of(format::start_setting(), 0, 0);
    // Records differ in size: each turn moves the place on by its own record.
    while at < sheet.len() {
        let room = counts::within(total, out.len());
        let Some(turned) = put_next(sheet, version, at, hand, &mut out[room..]) else {
            return Err(Fault::BrokenLayout.at(number));
        };
        total = counts::more(total, turned.bytes);
        fault = counts::first_at(fault, turned.bad, Fault::NotInV7.at(number));
        hand = turned.hand;
        number += 1;
        at += turned.size;
    }
    if extended == 1 {
        return Err(Fault::NotInV7.at(0));
    }
    finish(sheet, hand, out, total, number, fault)
}

// A pass over the sheet: the answer, for room enough, and each piece written where
// it fits.
fn pass(sheet: &[u8], out: &mut [u8]) -> Result<Done, Refusal>
    ensures { Passed v7 (front_header sheet.now) (headed v7 (front_header sheet.now) (sheet_result sheet.now)) out.old out.new result }
{
    let version = sheet::version_of(sheet);
    let Some(front) = sheet::read_front(sheet, version) else {
        return Err(Fault::BrokenLayout.at(0));
    };
    let middle = 7 + front.title;
    let begin = middle + front.time;
    let head = v7::put_header(out, &sheet[7..middle], &sheet[middle..begin]);
    put_records(sheet, version, front.extended, begin, out, head)
}

// Writes the v7 file of a sheet to the front of out.
pub fn write_v7(sheet: &[u8], out: &mut [u8]) -> Result<Done, Refusal>
    ensures answer { answer_of result ≡ write_outcome v7 sheet.now (length out.old) }
    ensures file { out.new ≡ write_buffer v7 sheet.now out.old }
{
    counts::in_two_passes(out, |room: &mut [u8]| pass(sheet, room))
}
