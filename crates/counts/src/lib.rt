// Writing one record after another: the codes of each go behind those before it, and
// bytes, records and the first fault are counted.
#![tactic(auto)]

ghost use Rattle.std.specs.Prelude.{◌≡◌, [], ◌+◌, ◌≤◌, length};
ghost use Rattle.format.specs.Fields.{record_of, state_of};
ghost use Rattle.format.specs.Refusals.{or_else, Good, Refusal as Refused, Result as Written};
ghost use Rattle.format.specs.WellFormed.{WellFormed};
ghost use Rattle.format.specs.Header.{file_limit, Header};
ghost use Rattle.format.specs.Bytes.{pick};
ghost use Rattle.format.specs.Codes.{codes_limit, unsayable, setting_after, closing};
ghost use Rattle.format.specs.Writing.{v8, Writer};
ghost use Rattle.format.specs.Answers.{answer_of, verdict_of};
ghost use Rattle.format.specs.Faults.{fault_number};
ghost use Rattle.counts.specs.Tallies.{bounded, settled, Fits, Adds, Finished, Passes, Writes};
ghost use Rattle.std.specs.Fn.{FnOnceReturnsAtMut};
ghost use Rattle.format.specs.Label.{label_limit};

use format::{Done, FILE_LIMIT, Fault, Fields, NOT_SAID, Refusal, Setting};

// The bytes so far, until they are over what refusal 16 allows; the records so far; and
// the refusal of the first record that cannot be written.
#[derive(Clone, Copy)]
pub struct Tally {
    pub bytes: usize,
    pub records: usize,
    pub fault: Result<(), Refusal>,
}

// The first fault so far, when a record has this one or none.
pub fn first_at(fault: Result<(), Refusal>, bad: bool, refusal: Refusal) -> Result<(), Refusal>
    ensures { verdict_of result ≡ or_else (verdict_of fault) (pick bad (Refused refusal.number refusal.place) Good) }
{
    fault?;
    if bad {
        return Err(refusal);
    }
    Ok(())
}

// Whether a record has style 5 after another style.
fn unsaid(old: u8, fields: Fields) -> bool
    ensures { result ≡ unsayable old (record_of fields []) }
{
    let Fields::Leg { style, .. } = fields else {
        return false;
    };
    style == NOT_SAID && old != NOT_SAID
}

// `old` is the style before the record with this number.
pub fn first_fault(
    fault: Result<(), Refusal>,
    old: u8,
    fields: Fields,
    number: usize,
) -> Result<(), Refusal>
    ensures { verdict_of result ≡ or_else (verdict_of fault) (pick (unsayable old (record_of fields [])) (Refused 13 number) Good) }
{
    first_at(fault, unsaid(old, fields), Fault::StyleUnsaid.at(number))
}

// The sum, until it is over what refusal 16 allows: then it stays.
pub fn more(total: usize, n: usize) -> usize
    requires { total + n ≤ 18446744073709551615 }
    ensures { result ≡ bounded total n }
{
    if FILE_LIMIT < total {
        return total;
    }
    total + n
}

// The index, or the length where it is past it.
pub fn within(index: usize, len: usize) -> usize
    ensures { (result ≤ len) × (index ≤ len → result ≡ index) × (len ≤ index → result ≡ len) }
{
    index.min(len)
}

// One record more: its codes are written into out behind the bytes so far, where they
// fit. `last` is the previous label and `name` the record's own.
pub fn put_next(
    out: &mut [u8],
    tally: Tally,
    setting: Setting,
    last: &[u8],
    name: &[u8],
    fields: Fields,
) -> Tally
    requires { Fits v8 tally × (length last.now ≤ label_limit) × WellFormed (record_of fields name.now) }
    ensures { Adds v8 (state_of setting last.now) (record_of fields name.now) out.old out.new tally result }
{
    let start = within(tally.bytes, out.len());
    let n = codes::put_record(&mut out[start..], setting, last, name, fields);
    let fault = tally.fault;
    Tally {
        bytes: more(tally.bytes, n),
        records: tally.records + 1,
        fault: first_fault(fault, setting.style, fields, tally.records),
    }
}

// The answer at the end of so many bytes and records, for room enough.
pub fn settle(
    bytes: usize,
    records: usize,
    fault: Result<(), Refusal>,
    version: u8,
) -> Result<Done, Refusal>
    ensures { answer_of result ≡ settled version (verdict_of fault) bytes records }
{
    fault?;
    if FILE_LIMIT < bytes {
        return Err(Fault::FileTooLong.at(0));
    }
    Ok(Done {
        bytes,
        records,
        version,
    })
}

// The end of a file: the closing codes, written where they fit into out behind the
// bytes so far, and the answer, for room enough.
pub fn finish(
    out: &mut [u8],
    style: u8,
    total: usize,
    number: usize,
    fault: Result<(), Refusal>,
) -> Result<Done, Refusal>
    requires { total ≤ file_limit + codes_limit }
    ensures { Finished v8 out.old out.new (closing style) (record { bytes = total; records = number; fault = fault }) result }
{
    let start = within(total, out.len());
    let n = frame::put_closing(&mut out[start..], style);
    settle(total + n, number, fault, 8)
}

// A file in two passes: the first, lent no bytes, gives the answer, and the second is
// lent just the bytes that are needed.
pub fn in_two_passes<F: Fn(&mut [u8]) -> Result<Done, Refusal>>(
    out: &mut [u8],
    pass: F,
) -> Result<Done, Refusal>
    requires { F.IsAlwaysCallable pass }
    ensures { (w : Writer) (h : Header) (x : Written) → Passes (FnOnceReturnsAtMut F.FnOnce pass) w h x → Writes w h x out.old out.new result }
{
    let done = pass(&mut out[..0])?;
    if out.len() < done.bytes {
        return Err(Fault::BufferTooSmall.at(done.bytes));
    }
    pass(&mut out[..done.bytes])
}

// ---- what a record leaves

// A leg changes style, date and position, a cross-section the date.
pub fn setting_after(setting: Setting, fields: Fields) -> Setting
    ensures { result ≡ setting_after setting (record_of fields []) }
{
    match fields {
        Fields::Leg {
            style,
            date,
            to,
            ..
        } => Setting {
            style,
            date,
            position: Some(to),
        },
        Fields::Section { date, .. } => Setting { date, ..setting },
        Fields::Station { .. } | Fields::Error { .. } => setting,
    }
}
