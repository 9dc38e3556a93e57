// Editing: a run of a house-written file's records is replaced. The edited file is the old
// bytes before the run, the replacement's codes, the records behind the run written anew
// until reading the old file and writing the new one are in the same state, and from
// there on the old bytes.
// A label's bytes and its length stand apart: C lends the bytes and has the length in its stand.
#![tactic(auto)]

ghost use Rattle.format.specs.Refusals.{Good};
ghost use Rattle.std.specs.Prelude.{◌≡◌, ◌↔◌, ◌+◌, ◌≤◌, IsTrue, length, take, drop};
ghost use Rattle.format.specs.Answers.{answer_of, verdict_of};
ghost use Rattle.format.specs.Codes.{codes_limit, closing};
ghost use Rattle.format.specs.Editing.{edit_outcome, edit_buffer};
ghost use Rattle.format.specs.Fields.{record_of, state_of};
ghost use Rattle.format.specs.Header.{file_limit};
ghost use Rattle.format.specs.Label.{label_limit};
ghost use Rattle.format.specs.Sheet.{sheet_version, records_of};
ghost use Rattle.format.specs.WellFormed.{WellFormed};
ghost use Rattle.format.specs.Writing.{v8};
ghost use Rattle.scan.specs.Places.{state_at};
ghost use Rattle.judge.specs.Judging.{old_header, OldOpens};
ghost use Rattle.counts.specs.Tallies.{Fits, Adds, Finished, Rest, Passed, Writes};
ghost use Rattle.wire.specs.Laid.{laid_if};
ghost use Rattle.edit.specs.Pens.{pen_state, PenFits, Emits, PutsNew, Behind, WentOn};
ghost use Rattle.edit.specs.Runs.{edited_at, CutAt, Spliced, FrontStands, Changed, Edits};

use counts::Tally;
use format::{Done, Fault, Fields, LABEL_LIMIT, Refusal, SHEET_VERSION, Setting};
use header::Head;
use judge::{Judged, Run, Taken};
use label::Label;
use scan::Place;

// What the codes of the next record find, with the counts so far. The label's bytes are
// lent beside it.
#[derive(Clone, Copy)]
struct Pen {
    count: Tally,
    setting: Setting,
    len: usize,
}

// Where reading the old file stands, with so many records to follow, and the pen.
#[derive(Clone, Copy)]
struct Went {
    place: Place,
    pen: Pen,
    left: usize,
}

// An old file with a run of its records: where reading stands before the run and behind
// it, with `rest` records to follow.
#[derive(Clone, Copy)]
struct Splice {
    old: Head,
    run: Run,
    front: Place,
    back: Place,
    rest: usize,
}

// ---- one record

// One record more, after the label that the pen has left in `last`.
fn put_after(
    out: &mut [u8],
    pen: Pen,
    last: &[u8; LABEL_LIMIT],
    name: &[u8],
    fields: Fields,
) -> Tally
    requires { PenFits pen last.now × Fits v8 pen.count × WellFormed (record_of fields name.now) }
    ensures { Adds v8 (pen_state pen last.now) (record_of fields name.now) out.old out.new pen.count result }
{
    counts::put_next(out, pen.count, pen.setting, &last[..pen.len], name, fields)
}

// One record more, and what it leaves.
fn put_one(
    out: &mut [u8],
    pen: Pen,
    last: &mut [u8; LABEL_LIMIT],
    name: &[u8],
    fields: Fields,
) -> Pen
    requires { PenFits pen last.old × Fits v8 pen.count × WellFormed (record_of fields name.now) × (length name.now ≤ label_limit) }
    ensures { Emits pen last.old (record_of fields name.now) out.old out.new result last.new }
{
    let count = put_after(out, pen, last, name, fields);
    Pen {
        count,
        setting: counts::setting_after(pen.setting, fields),
        len: scan::keep_label(last, pen.len, name, fields),
    }
}

// ---- the records behind the run

// Whether reading the old file and writing the new one are in the same state: style,
// date, position and label are all that a record finds.
fn level(place: Place, name: &[u8; LABEL_LIMIT], pen: Pen, last: &[u8; LABEL_LIMIT]) -> bool
    requires { (place.len ≤ label_limit) × (length name.now ≡ label_limit) × PenFits pen last.now }
    ensures { IsTrue result ↔ (state_at place name.now ≡ pen_state pen last.now) }
{
    let read = place.setting;
    let written = pen.setting;
    read.style == written.style
        && read.date == written.date
        && read.position == written.position
        && name[..place.len] == last[..pen.len]
}

// The records behind the run, written anew until the states are the same.
fn put_behind(
    file: &[u8],
    from: Went,
    name: &mut [u8; LABEL_LIMIT],
    out: &mut [u8],
    last: &mut [u8; LABEL_LIMIT],
) -> Went
    requires { Behind file.now from name.old last.old }
    ensures { WentOn file.now from name.old last.old out.old result name.new last.new out.new }
{
    let mut room = judge::room();
    let mut spare = label::blank();
    let mut place = from.place;
    let mut pen = from.pen;
    for done in 0..from.left {
        let left = from.left - done;
        if level(place, name, pen, last) {
            return Went { place, pen, left };
        }
        let taken = judge::take_record(file, place, name, &mut spare.bytes, &mut room).unwrap();
        let Taken::Record { place: to, fields } = taken else {
            unreachable!()
        };
        pen = put_one(out, pen, last, &name[..to.len], fields);
        place = to;
    }
    Went {
        place,
        pen,
        left: 0,
    }
}

// ---- the replacement

// The records of a replacement that is well-formed.
fn put_new(new: &[u8], out: &mut [u8], pen: Pen, last: &mut [u8; LABEL_LIMIT]) -> Pen
    requires { PenFits pen last.old × (pen.count.bytes ≤ file_limit + codes_limit) × (pen.count.records ≤ file_limit) × ((records_of sheet_version new.now).verdict ≡ Good) }
    ensures { PutsNew new.now pen last.old out.old result last.new out.new }
{
    let mut at: usize = 0;
    let mut next = pen;
    // Records differ in size: each turn moves the place on by its own record.
    while at < new.len() {
        let entry = sheet::read_entry(&new[at..], SHEET_VERSION).unwrap();
        let name = at + entry.from;
        let end = at + entry.size;
        next = put_one(out, next, last, &new[name..end], entry.fields);
        at = end;
    }
    next
}

// Refuses a replacement with 12 at its first bad record.
fn first_flaw(new: &[u8]) -> Result<(), Refusal>
    ensures { verdict_of result ≡ (records_of sheet_version new.now).verdict }
{
    let mut at: usize = 0;
    let mut number: usize = 0;
    // The same: the place moves on by each record's own size.
    while at < new.len() {
        let Some(entry) = sheet::read_entry(&new[at..], SHEET_VERSION) else {
            return Err(Fault::BrokenLayout.at(number));
        };
        number += 1;
        at += entry.size;
    }
    Ok(())
}

// ---- the edited file

// Bytes laid into out from `at` on, where they fit.
fn lay(out: &mut [u8], at: usize, s: &[u8])
    requires { (at ≤ file_limit + codes_limit) × (length s.now ≤ file_limit) }
    ensures { out.new ≡ laid_if out.old at s.now }
{
    let end = at + s.len();
    if out.len() < end {
        return;
    }
    wire::copy_words(s, &mut out[at..]);
}

// The end of the edited file: the old bytes from `at` on, which hold `left` records, and
// the answer, for room enough.
fn put_tail(
    file: &[u8],
    at: usize,
    out: &mut [u8],
    count: Tally,
    left: usize,
) -> Result<Done, Refusal>
    requires { (at ≤ length file.now) × (length file.now ≤ file_limit) × (count.bytes ≤ file_limit + codes_limit) × (count.records + left ≤ 18446744073709551615) }
    ensures { Finished v8 out.old out.new (drop at file.now) (record { bytes = count.bytes; records = count.records + left; fault = count.fault }) result }
{
    let tail = &file[at..];
    let bytes = count.bytes + tail.len();
    let records = count.records + left;
    lay(out, count.bytes, tail);
    counts::settle(bytes, records, count.fault, 8)
}

// The same where no record is left: the closing codes.
fn close(out: &mut [u8], pen: Pen) -> Result<Done, Refusal>
    requires { Fits v8 pen.count }
    ensures { Finished v8 out.old out.new (closing pen.setting.style) pen.count result }
{
    let count = pen.count;
    counts::finish(
        out,
        pen.setting.style,
        count.bytes,
        count.records,
        count.fault,
    )
}

// The replacement behind the old bytes before the run, and the records behind the run up
// to where the old bytes go on. `last` holds the label before the run, `name` the one
// behind it.
fn put_changed(
    file: &[u8],
    cut: Splice,
    new: &[u8],
    out: &mut [u8],
    last: &mut [u8; LABEL_LIMIT],
    name: &mut [u8; LABEL_LIMIT],
) -> Went
    requires { Spliced file.now cut new.now last.old name.old }
    ensures { Changed file.now cut new.now last.old name.old out.old result last.new name.new out.new }
{
    let front = cut.front;
    let count = Tally {
        bytes: front.at,
        records: cut.run.first,
        fault: Ok(()),
    };
    let pen = Pen {
        count,
        setting: front.setting,
        len: front.len,
    };
    let replaced = put_new(new, out, pen, last);
    let from = Went {
        place: cut.back,
        pen: replaced,
        left: cut.rest,
    };
    put_behind(file, from, name, out, last)
}

// The edited file from the run on, behind the old bytes before it.
fn put_edited(
    file: &[u8],
    cut: Splice,
    new: &[u8],
    out: &mut [u8],
    before: Label,
    behind: Label,
) -> Result<Done, Refusal>
    requires { Spliced file.now cut new.now before.bytes behind.bytes × FrontStands file.now cut.front.at out.old }
    ensures { Rest v8 (edited_at file.now cut new.now) cut.old.place out.old out.new result }
{
    let mut last = before;
    let mut name = behind;
    let met = put_changed(file, cut, new, out, &mut last.bytes, &mut name.bytes);
    if met.left == 0 {
        return close(out, met.pen);
    }
    put_tail(file, met.place.at, out, met.pen.count, met.left)
}

// A pass over the edited file: the answer, for room enough, and each piece written where
// it fits.
fn pass(
    file: &[u8],
    cut: Splice,
    new: &[u8],
    out: &mut [u8],
    before: Label,
    behind: Label,
) -> Result<Done, Refusal>
    requires { Spliced file.now cut new.now before.bytes behind.bytes }
    ensures { Passed v8 (old_header file.now cut.old) (edited_at file.now cut new.now) out.old out.new result }
{
    lay(out, 0, &file[..cut.front.at]);
    put_edited(file, cut, new, out, before, behind)
}

// Writes the edited file. The first pass, lent no bytes, gives the answer.
fn write_edited(
    file: &[u8],
    cut: Splice,
    new: &[u8],
    out: &mut [u8],
    before: Label,
    behind: Label,
) -> Result<Done, Refusal>
    requires { Spliced file.now cut new.now before.bytes behind.bytes }
    ensures { Writes v8 (old_header file.now cut.old) (edited_at file.now cut new.now) out.old out.new result }
{
    counts::in_two_passes(
        out,
        |room: &mut [u8]| pass(file, cut, new, room, before, behind),
    )
}

// The edit of a house-written file: 12 of the replacement comes before the writer's
// refusals.
fn edit_house(
    file: &[u8],
    cut: Splice,
    new: &[u8],
    out: &mut [u8],
    before: Label,
    behind: Label,
) -> Result<Done, Refusal>
    requires { CutAt file.now cut before.bytes behind.bytes }
    ensures { Edits file.now cut.run new.now out.old out.new result }
{
    first_flaw(new)?;
    write_edited(file, cut, new, out, before, behind)
}

// The edit of a file that was opened: the reader's refusals, 14 and 15 come first.
fn edit_opened(
    file: &[u8],
    old: Head,
    run: Run,
    new: &[u8],
    out: &mut [u8],
) -> Result<Done, Refusal>
    requires { OldOpens file.now old }
    ensures { Edits file.now run new.now out.old out.new result }
{
    let mut before = label::blank();
    let mut behind = label::blank();
    let judged = judge::judge(file, old, run, &mut before.bytes, &mut behind.bytes)?;
    match judged {
        Judged::Foreign => Err(Fault::NotHouseWritten.at(0)),
        Judged::Short { records } => Err(Fault::PastRecords.at(records)),
        Judged::Cut { front, back, rest } => {
            let cut = Splice {
                old,
                run,
                front,
                back,
                rest,
            };
            edit_house(file, cut, new, out, before, behind)
        }
    }
}

// Replaces `count` records of a house-written file, from `first` on, by those of `new`,
// and writes the edited file to the front of out.
pub fn edit(
    file: &[u8],
    first: usize,
    count: usize,
    new: &[u8],
    out: &mut [u8],
) -> Result<Done, Refusal>
    ensures answer { answer_of result ≡ edit_outcome file.now first count new.now (length out.old) }
    ensures file { out.new ≡ edit_buffer file.now first count new.now out.old }
{
    let head = header::opening(file)?;
    edit_opened(file, head, Run { first, count }, new, out)
}
