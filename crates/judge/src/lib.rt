// Whether a file is house-written (request #114's word for one that document 01's writing
// rules would have produced): its records are read one after another, and the codes of each
// are compared with the file's bytes.
// A label's bytes and its length stand apart: C lends the bytes and has the length in its stand.
#![tactic(auto)]

ghost use Rattle.std.specs.Prelude.{◌≡◌, ◌+◌, ◌-◌, ◌≤◌, length, take, drop, Ok};
ghost use Rattle.format.specs.Bytes.{same};
ghost use Rattle.format.specs.Fields.{record_of};
ghost use Rattle.format.specs.Header.{file_limit};
ghost use Rattle.format.specs.WellFormed.{WellFormed};
ghost use Rattle.format.specs.Codes.{codes, codes_limit, closing, header_codes, header_limit};
ghost use Rattle.format.specs.Label.{label_limit};
ghost use Rattle.part.specs.Lays.{Puts};
ghost use Rattle.scan.specs.Keeping.{Swaps, Keeps};
ghost use Rattle.scan.specs.Places.{state_at};
ghost use Rattle.judge.specs.Walking.{Ready, Met, Takes, Briefs, Passes, Stretches};
ghost use Rattle.judge.specs.Judging.{OldOpens, old_header, Begins, Fails, Judges, JudgesRest};

use format::{Fields, LABEL_LIMIT, Refusal, Setting};
use header::Head;
use scan::{Found, Place};

// A run of `count` records from `first` on.
#[derive(Clone, Copy)]
pub struct Run {
    pub first: usize,
    pub count: usize,
}

// What stands next: what the writing rules do not give; the end; or a record, and where
// reading then stands.
#[derive(Clone, Copy)]
pub enum Taken {
    Foreign,
    End,
    Record { place: Place, fields: Fields },
}

// The same of some records: the end comes after fewer, or they are passed.
#[derive(Clone, Copy)]
enum Stretch {
    Foreign,
    End { records: usize },
    Passed { place: Place },
}

// A file that is not house-written; one that is and has too few records; or where
// reading stands before the run and behind it, with so many records to follow.
#[derive(Clone, Copy)]
pub enum Judged {
    Foreign,
    Short {
        records: usize,
    },
    Cut {
        front: Place,
        back: Place,
        rest: usize,
    },
}

// The bytes of the longest header. No record has more codes.
pub const HEADER_LIMIT: usize = 4187;

// Room for the codes of the header or of a record.
pub fn room() -> [u8; HEADER_LIMIT]
    ensures { length result ≡ header_limit }
{
    [0; HEADER_LIMIT]
}

// Whether these codes stand in the file from `at` on.
fn stands(file: &[u8], at: usize, codes: &[u8]) -> bool
    requires { (at ≤ length file.now) × (length file.now ≤ file_limit) × (length codes.now ≤ header_limit) }
    ensures { result ≡ same (take (length codes.now) (drop at file.now)) codes.now }
{
    let end = at + codes.len();
    if file.len() < end {
        return false;
    }
    wire::same_bytes(&file[at..end], codes)
}

// ---- one record

// A label of len bytes, copied into another buffer.
fn copy_label(label: &[u8; LABEL_LIMIT], len: usize, spare: &mut [u8; LABEL_LIMIT]) -> usize
    requires { (len ≤ label_limit) × (length label.now ≡ label_limit) × (length spare.old ≡ label_limit) }
    ensures { Swaps spare.new (take len label.now) result }
{
    scan::swap_label(spare, 0, &label[..len])
}

// The codes of a record of this name, after what reading finds at `from`.
fn put_codes(
    room: &mut [u8],
    from: Place,
    last: &[u8; LABEL_LIMIT],
    name: &[u8],
    fields: Fields,
) -> usize
    requires { (from.len ≤ label_limit) × (length last.now ≡ label_limit) × WellFormed (record_of fields name.now) }
    ensures { Puts room.old room.new (codes (state_at from last.now) (record_of fields name.now)) codes_limit result }
{
    codes::put_record(room, from.setting, &last[..from.len], name, fields)
}

// The record that reading made, of this name, held to the writing rules.
fn take_made(
    file: &[u8],
    from: Place,
    label: &mut [u8; LABEL_LIMIT],
    name: &[u8],
    fields: Fields,
    room: &mut [u8],
) -> Taken
    requires { Ready file.now from label.old × Met file.now from label.old (record_of fields name.now) × (length name.now ≤ label_limit) × (length room.old ≡ header_limit) }
    ensures { Takes file.now from label.old (Ok result) label.new × (length room.new ≡ header_limit) }
{
    let size = put_codes(room, from, label, name, fields);
    if !stands(file, from.at, &room[..size]) {
        return Taken::Foreign;
    }
    let place = Place {
        at: from.at + size,
        len: scan::keep_label(label, from.len, name, fields),
        setting: counts::setting_after(from.setting, fields),
    };
    Taken::Record { place, fields }
}

// The end that reading met, held to the writing rules.
fn take_end(file: &[u8], from: Place, room: &mut [u8]) -> bool
    requires { (from.at ≤ length file.now) × (length room.old ≡ header_limit) }
    ensures { (result ≡ same (drop from.at file.now) (closing from.setting.style)) × (length room.new ≡ header_limit) }
{
    let size = frame::put_closing(room, from.setting.style);
    wire::same_bytes(&file[from.at..], &room[..size])
}

// The next record of a file that is as the writing rules give it up to here. The label's
// bytes are lent; so is a spare buffer, and room for a record's codes.
pub fn take_record(
    file: &[u8],
    from: Place,
    label: &mut [u8; LABEL_LIMIT],
    spare: &mut [u8; LABEL_LIMIT],
    room: &mut [u8],
) -> Result<Taken, Refusal>
    requires { Ready file.now from label.old × (length spare.old ≡ label_limit) × (length room.old ≡ header_limit) }
    ensures { Takes file.now from label.old result label.new × (length spare.new ≡ label_limit) × (length room.new ≡ header_limit) }
{
    let len = copy_label(label, from.len, spare);
    let found = scan::next_record(file, 8, Place { len, ..from }, spare)?;
    match found {
        Found::End => {
            if take_end(file, from, room) {
                return Ok(Taken::End);
            }
            Ok(Taken::Foreign)
        }
        Found::Record { place: to, fields } => {
            Ok(take_made(file, from, label, &spare[..to.len], fields, room))
        }
    }
}

// ---- the commonest record, without its codes

// A LINE whose label part is one byte, and which is as the writing rules give it: how
// many bytes of the label stay, and how many come.
#[derive(Clone, Copy)]
struct Brief {
    keep: usize,
    add: usize,
}

// The LINE at the front of s that is so, after a label of len bytes. No more of the label could have
// stayed where nothing is dropped, nothing comes, or the first bytes differ.
fn brief_line(s: &[u8], label: &[u8; LABEL_LIMIT], len: usize) -> Option<Brief>
    requires { (len ≤ label_limit) × (length label.now ≡ label_limit) }
    ensures { Briefs result s.now (take len label.now) }
{
    if s.len() < 29 {
        return None;
    }
    let code = s[0];
    if code < 0x40 {
        return None;
    }
    if 0x47 < code {
        return None;
    }
    let part = number::index(s[1]);
    let off = part / 16;
    let add = part % 16;
    if part == 0 {
        return None;
    }
    if len < off {
        return None;
    }
    let keep = len - off;
    if LABEL_LIMIT - 16 < keep {
        return None;
    }
    if off != 0 {
        if add != 0 {
            if label[keep] == s[2] {
                return None;
            }
        }
    }
    Some(Brief { keep, add })
}

// The leg that such a LINE makes where a position is set: where reading then stands.
fn take_brief(file: &[u8], from: Place, label: &mut [u8; LABEL_LIMIT]) -> Option<Place>
    requires { Ready file.now from label.old }
    ensures { Passes file.now from label.old result label.new }
{
    let at = from.at;
    let len = from.len;
    let setting = from.setting;
    let Some(_) = setting.position else {
        return None;
    };
    let rest = &file[at..];
    let line = brief_line(rest, label, len)?;
    let end = 2 + line.add;
    let m = scan::relabel(label, len, len - line.keep, &rest[2..end]);
    let point = decode::get_point(&rest[end..]);
    let after = Setting {
        position: Some(point),
        ..setting
    };
    Some(Place {
        at: at + 14 + line.add,
        len: m,
        setting: after,
    })
}

// ---- a stretch of records

// At most `limit` records from a place on, each held to the writing rules.
fn judge_records(
    file: &[u8],
    from: Place,
    label: &mut [u8; LABEL_LIMIT],
    limit: usize,
) -> Result<Stretch, Refusal>
    requires { Ready file.now from label.old }
    ensures { Stretches file.now from label.old limit result label.new }
{
    let mut room = room();
    let mut spare = label::blank();
    let mut place = from;
    for passed in 0..limit {
        if let Some(to) = take_brief(file, place, label) {
            place = to;
            continue;
        }
        let taken = take_record(file, place, label, &mut spare.bytes, &mut room)?;
        match taken {
            Taken::Foreign => return Ok(Stretch::Foreign),
            Taken::End => return Ok(Stretch::End { records: passed }),
            Taken::Record { place: to, .. } => place = to,
        }
    }
    Ok(Stretch::Passed { place })
}

// ---- a file whole

// Whether the header's codes are those that the writing rules give.
fn our_header(file: &[u8], old: Head) -> bool
    requires { OldOpens file.now old }
    ensures { result ≡ same (take old.place file.now) (header_codes (old_header file.now old)) }
{
    let ends = 24 + old.title;
    let from = ends + 1;
    let stops = from + old.time;
    let mut room = room();
    let n = frame::put_header(&mut room, old.extended, &file[24..ends], &file[from..stops]);
    wire::same_bytes(&file[..old.place], &room[..n])
}

// A file that is not house-written: the reader's refusal comes first.
fn foreign(file: &[u8], old: Head) -> Result<Judged, Refusal>
    requires { old.place ≤ length file.now }
    ensures { Fails file.now old result }
{
    let mut name = label::blank();
    let mut place = scan::first_place(old.place);
    // Records differ in size: reading gives the place of the next.
    loop {
        let found = scan::next_record(file, old.version, place, &mut name.bytes)?;
        match found {
            Found::End => return Ok(Judged::Foreign),
            Found::Record { place: to, .. } => place = to,
        }
    }
}

// The records behind the run: the file is house-written where they and its end are as
// the writing rules give them. A file has fewer records than bytes.
fn judge_rest(
    file: &[u8],
    old: Head,
    run: Run,
    front: Place,
    back: Place,
    behind: &[u8; LABEL_LIMIT],
) -> Result<Judged, Refusal>
    requires { Begins file.now old (run.first + run.count) back behind.now }
    ensures { JudgesRest file.now old run front result behind.now }
{
    let mut last = label::blank();
    let len = copy_label(behind, back.len, &mut last.bytes);
    let three = judge_records(file, Place { len, ..back }, &mut last.bytes, file.len())?;
    match three {
        Stretch::Foreign => foreign(file, old),
        Stretch::End { records: rest } => Ok(Judged::Cut { front, back, rest }),
        Stretch::Passed { .. } => foreign(file, old),
    }
}

// The run and what is behind it.
fn judge_run(
    file: &[u8],
    old: Head,
    run: Run,
    front: Place,
    before: &[u8; LABEL_LIMIT],
    behind: &mut [u8; LABEL_LIMIT],
) -> Result<Judged, Refusal>
    requires { Begins file.now old run.first front before.now × (length behind.old ≡ label_limit) }
    ensures { Judges file.now old run result before.now behind.new }
{
    let len = copy_label(before, front.len, behind);
    let two = judge_records(file, Place { len, ..front }, behind, run.count)?;
    match two {
        Stretch::Foreign => foreign(file, old),
        Stretch::End { records } => Ok(Judged::Short {
            records: run.first + records,
        }),
        Stretch::Passed { place: back } => judge_rest(file, old, run, front, back, behind),
    }
}

// Judges a file that was opened, and finds a run of its records: the labels before the
// run and behind it are left in the buffers.
pub fn judge(
    file: &[u8],
    old: Head,
    run: Run,
    before: &mut [u8; LABEL_LIMIT],
    behind: &mut [u8; LABEL_LIMIT],
) -> Result<Judged, Refusal>
    requires { OldOpens file.now old × (length before.old ≡ label_limit) × (length behind.old ≡ label_limit) }
    ensures { Judges file.now old run result before.new behind.new }
{
    if !our_header(file, old) {
        return foreign(file, old);
    }
    let start = scan::first_place(old.place);
    let one = judge_records(file, start, before, run.first)?;
    match one {
        Stretch::Foreign => foreign(file, old),
        Stretch::End { records } => Ok(Judged::Short { records }),
        Stretch::Passed { place: front } => judge_run(file, old, run, front, before, behind),
    }
}
