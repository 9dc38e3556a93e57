// Stepping through a file, an item at a time. Where a reader stands is a small value: the
// label's bytes stand in a buffer beside it, which is lent to each step and never copied.
// A label's bytes and its length stand apart: C lends the bytes and has the length in its stand.
#![tactic(auto)]

ghost use Rattle.std.specs.Prelude.{◌≡◌, ℕ, ◌+◌, ◌≤◌, length, take, Err};
ghost use Rattle.format.specs.Header.{opening_of};
ghost use Rattle.format.specs.Stepping.{open_stand, step_of, step_buffer};
ghost use Rattle.format.specs.Answers.{open_outcome, opened_of, stepped_of};
ghost use Rattle.format.specs.Fields.{state_of};
ghost use Rattle.format.specs.Label.{label_limit};
ghost use Rattle.format.specs.Reading.{next};
ghost use Rattle.step.specs.Standing.{lesser, slice_limit, Fresh, EndStepped, behind_item, room_for, Peeks, Recorded, Within, After, Opens, Steps};
ghost use Rattle.step.specs.Going.{Goes};
ghost use Rattle.step.specs.Shortly.{Shortly};
ghost use Rattle.laying.specs.Quickly.{Quickly};
ghost use Rattle.format.specs.Items.{item_of};
ghost use Rattle.short.specs.Brief.{Finds};
ghost use Rattle.format.specs.Outline.{drop_leaves};
ghost use Rattle.step.specs.declared.Phase.TheVariants.{Going, Refused};

use decode::{Item, get_point};
use format::{Fault, Fields, LABEL_LIMIT, Opened, Refusal, Setting, Stepped};
use item::{Step, section_at};
use laying::{Joint, Quick, lay_line, lay_place, lay_section};
use short::{Short, new_item, old_item, sides};

// Whether a reader goes on; or is at the end, or at a refusal, for good.
#[derive(Clone, Copy)]
pub enum Phase {
    Going,
    Ended,
    Refused { refusal: Refusal },
}

// Where a reader stands: its phase, the version, the next item's place, the label's
// length, and the rest of the state.
#[derive(Clone, Copy)]
pub struct Stand {
    pub phase: Phase,
    pub version: u8,
    pub place: usize,
    pub len: usize,
    pub setting: Setting,
}

// A step's answer, and where the reader then stands.
#[derive(Clone, Copy)]
pub struct Taken {
    pub answer: Result<Stepped, Refusal>,
    pub stand: Stand,
}

// A buffer of this size has room for every record.
const RECORD_LIMIT: usize = 34 + LABEL_LIMIT;

// What opening answers: the version and the first item's place, or the refusal.
pub fn opened(file: &[u8]) -> Result<Opened, Refusal>
    ensures { opened_of result ≡ open_outcome (opening_of file.now) }
{
    let head = header::opening(file)?;
    Ok(Opened {
        version: head.version,
        place: head.place,
    })
}

// The lesser of two numbers.
fn lesser(a: usize, b: usize) -> usize
    ensures { result ≡ lesser a b }
{
    a.min(b)
}

// The stand before an item, in the state at the start of a file.
fn fresh(phase: Phase, version: u8, place: usize) -> Stand
    ensures { Fresh result phase version place }
{
    let setting = format::start_setting();
    Stand {
        phase,
        version,
        place,
        len: 0,
        setting,
    }
}

// Where a reader of the file stands at first, whatever the label's buffer holds. After a
// refused opening every step answers that refusal.
pub fn open_at(file: &[u8]) -> Stand
    ensures { Opens result (open_stand file.now) }
{
    match opened(file) {
        Err(refusal) => fresh(Phase::Refused { refusal }, 0, 0),
        Ok(first) => fresh(Phase::Going, first.version, first.place),
    }
}

// A step after which the reader is halted: what it answers comes again.
fn last_step(stand: Stand, answer: Result<Stepped, Refusal>, phase: Phase) -> Taken
    ensures { (result.answer ≡ answer) × (result.stand.phase ≡ phase) }
{
    Taken {
        answer,
        stand: Stand { phase, ..stand },
    }
}

// The step that refuses.
fn refused_step(stand: Stand, refusal: Refusal) -> Taken
    ensures { (result.answer ≡ Err refusal) × (result.stand.phase ≡ Refused refusal) }
{
    last_step(stand, Err(refusal), Phase::Refused { refusal })
}

// A step at the end item, from which `left` bytes are left: 10 where others follow it.
fn end_step(stand: Stand, left: usize) -> Taken
    requires { stand.place ≤ slice_limit }
    ensures { EndStepped left stand result }
{
    if 1 < left {
        return refused_step(stand, Fault::BytesAfterEnd.at(stand.place + 1));
    }
    last_step(stand, Ok(Stepped::End), Phase::Ended)
}

// The stand behind an item of so many bytes.
fn behind(stand: Stand, size: usize, len: usize, setting: Setting) -> Stand
    requires { stand.place + size ≤ slice_limit }
    ensures { result ≡ behind_item stand size len setting }
{
    Stand {
        phase: Phase::Going,
        version: stand.version,
        place: stand.place + size,
        len,
        setting,
    }
}

// What the item at the front of s comes to, before the label is touched, where it makes a
// record or its label is refused. For any other the answer is one that makes no record.
fn peek(
    version: u8,
    s: &[u8],
    bytes: &[u8; LABEL_LIMIT],
    len: usize,
    setting: Setting,
) -> Result<Step, Fault>
    requires { (len ≤ label_limit) × (length bytes.now ≡ label_limit) }
    ensures { Peeks result (next version s.now (state_of setting (take len bytes.now))) }
{
    let it = decode::decode(version, s)?;
    match it {
        Item::Error { traverse } => Ok(Step::Made {
            size: 21,
            len,
            setting,
            fields: Fields::Error { traverse },
            kept: 0,
        }),
        Item::Relabel {
            size,
            cut,
            from: _,
            count,
            body,
        } => {
            let kept = label::kept_of(bytes, len, cut);
            let Some(keep) = kept else {
                return Err(Fault::LabelTooShort);
            };
            if LABEL_LIMIT - keep < count {
                return Err(Fault::LabelTooLong);
            }
            item::made_step(size, keep + count, setting, body, keep)
        }
        _ => Ok(Step::End),
    }
}

// Whether a buffer of so many bytes has room for the record of the item at the front of
// s, if it makes one; and else how many bytes that takes.
fn room_for(
    version: u8,
    s: &[u8],
    bytes: &[u8; LABEL_LIMIT],
    len: usize,
    setting: Setting,
    room: usize,
) -> Result<(), usize>
    requires { (len ≤ label_limit) × (length bytes.now ≡ label_limit) }
    ensures { result ≡ room_for (next version s.now (state_of setting (take len bytes.now))) room }
{
    if RECORD_LIMIT <= room {
        return Ok(());
    }
    let Ok(seen) = peek(version, s, bytes, len, setting) else {
        return Ok(());
    };
    let Step::Made {
        size: _,
        len: m,
        setting: _,
        fields,
        kept: _,
    } = seen
    else {
        return Ok(());
    };
    let n = layout::record_size(fields, m);
    if room < n {
        return Err(n);
    }
    Ok(())
}

// A step over an item for whose record there is room: the reader then stands at next.
fn record_step(
    next: Stand,
    bytes: &[u8; LABEL_LIMIT],
    out: &mut [u8],
    fields: Fields,
    kept: usize,
) -> Taken
    requires { (next.len ≤ label_limit) × (length bytes.now ≡ label_limit) }
    ensures { Recorded next bytes.now fields kept out.old result out.new }
{
    let len = next.len;
    let size = layout::record_size(fields, len);
    layout::lay_record(out, 0, fields, bytes, len);
    Taken {
        answer: Ok(Stepped::Record { bytes: size, kept }),
        stand: next,
    }
}

// A step over an item that came to `it`, from whose place on `left` bytes are left.
fn after_item(
    stand: Stand,
    it: Step,
    left: usize,
    bytes: &[u8; LABEL_LIMIT],
    out: &mut [u8],
) -> Taken
    requires { Within stand it × (length bytes.now ≡ label_limit) }
    ensures { After stand it left bytes.now out.old result out.new }
{
    match it {
        Step::End => end_step(stand, left),
        Step::On { size, len, setting } => {
            let next = behind(stand, size, len, setting);
            Taken {
                answer: Ok(Stepped::Nothing),
                stand: next,
            }
        }
        Step::Made {
            size,
            len,
            setting,
            fields,
            kept,
        } => {
            let next = behind(stand, size, len, setting);
            record_step(next, bytes, out, fields, kept)
        }
    }
}

// One step from a stand before an item. A place past the file finds no bytes, and a
// label's length past its buffer counts as all of it. Whether there is room is known
// before the label is touched.
fn step_item(file: &[u8], stand: Stand, bytes: &mut [u8; LABEL_LIMIT], out: &mut [u8]) -> Taken
    requires { (stand.phase ≡ Going) × (length bytes.old ≡ label_limit) }
    ensures { Steps stand bytes.old file.now out.old result bytes.new out.new }
{
    let at = lesser(stand.place, file.len());
    let old = lesser(stand.len, LABEL_LIMIT);
    let rest = &file[at..];
    let room = room_for(stand.version, rest, bytes, old, stand.setting, out.len());
    if let Err(needed) = room {
        return Taken {
            answer: Err(Fault::BufferTooSmall.at(needed)),
            stand,
        };
    }
    match item::take_item(stand.version, rest, bytes, old, stand.setting) {
        Err(fault) => refused_step(stand, fault.at(stand.place)),
        Ok(it) => after_item(stand, it, rest.len(), bytes, out),
    }
}

// An array's length, which its type says.
fn full(bytes: &[u8; LABEL_LIMIT]) -> usize
    ensures { (result ≡ label_limit) × (length bytes.now ≡ label_limit) }
{
    let whole = &bytes[..];
    whole.len()
}

// The item at the front of s, after a label of len bytes, where it is one of the commonest.
// (`short_item` has other callers, and so would not be joined to a step.)
fn find_short(version: u8, s: &[u8], len: usize) -> Option<Short>
    requires { len ≤ label_limit }
    ensures { Finds result version s.now len }
{
    if version < 8 {
        return old_item(version, s, len);
    }
    new_item(s, len)
}

// The item at the front of s, in the state of a setting and a label, where it is one of
// the commonest: its record, where it makes one, is laid over the front of `out`.
fn lay_short(
    version: u8,
    s: &[u8],
    bytes: &mut [u8; LABEL_LIMIT],
    len: usize,
    setting: Setting,
    out: &mut [u8],
) -> Option<Quick>
    requires { (len ≤ label_limit) × (length bytes.old ≡ label_limit) }
    ensures { Quickly result (next version s.now (state_of setting (take len bytes.old))) (drop_leaves (take len bytes.old) (item_of version s.now)) setting bytes.old bytes.new out.old out.new 0 }
{
    let it = find_short(version, s, len)?;
    match it {
        Short::Line { keep, add, flags } => {
            let joint = Joint {
                keep,
                add,
                size: 14 + add,
                out: 0,
            };
            lay_line(s, bytes, joint, flags, setting, out)
        }
        Short::Again { flags } => {
            let joint = Joint {
                keep: len,
                add: 0,
                size: 13,
                out: 0,
            };
            lay_line(s, bytes, joint, flags, setting, out)
        }
        Short::Place { keep, add, flags } => {
            let joint = Joint {
                keep,
                add,
                size: 14 + add,
                out: 0,
            };
            Some(lay_place(s, bytes, joint, flags, out))
        }
        Short::Section { keep, add, code } => {
            let joint = Joint {
                keep,
                add,
                size: 2 + add + sides(code),
                out: 0,
            };
            let section = section_at(s, 2 + add, code, setting);
            Some(lay_section(s, bytes, joint, section, out))
        }
        Short::Trim { len: m } => Some(Quick::Trim { len: m }),
        Short::Move => {
            let to = get_point(&s[1..]);
            Some(Quick::Move { len, to })
        }
    }
}

// One step over one of the commonest items, where there is room for every record: what it
// comes to, and how far the stand moves. For any other item, and where the reader is halted,
// nothing is touched.
pub fn short_at(
    file: &[u8],
    stand: Stand,
    bytes: &mut [u8; LABEL_LIMIT],
    out: &mut [u8],
) -> Option<Quick>
    ensures { Shortly result stand bytes.old file.now out.old bytes.new out.new }
{
    let phase = stand.phase;
    let Phase::Going = phase else {
        return None;
    };
    if out.len() < RECORD_LIMIT {
        return None;
    }
    full(bytes);
    let at = lesser(stand.place, file.len());
    let old = lesser(stand.len, LABEL_LIMIT);
    lay_short(stand.version, &file[at..], bytes, old, stand.setting, out)
}

// One step: exactly one item, or the end or the refusal again. 11 leaves the stand as it
// was.
pub fn step_at(file: &[u8], stand: Stand, bytes: &mut [u8; LABEL_LIMIT], out: &mut [u8]) -> Taken
    ensures { Steps stand bytes.old file.now out.old result bytes.new out.new }
{
    let phase = stand.phase;
    match phase {
        Phase::Going => {
            full(bytes);
            step_item(file, stand, bytes, out)
        }
        Phase::Ended => Taken {
            answer: Ok(Stepped::End),
            stand,
        },
        Phase::Refused { refusal } => Taken {
            answer: Err(refusal),
            stand,
        },
    }
}

// Steps on to the next record, the end or a refusal, and passes it straight on. Each item
// on the way takes a byte of the file, so there are no more steps than bytes and one.
pub fn next_at(file: &[u8], stand: Stand, bytes: &mut [u8; LABEL_LIMIT], out: &mut [u8]) -> Taken
    ensures { Goes stand bytes.old file.now out.old result bytes.new out.new }
{
    let mut here = stand;
    for taken in 0..file.len() {
        let t = step_at(file, here, bytes, out);
        let Ok(Stepped::Nothing) = t.answer else {
            return t;
        };
        here = t.stand;
    }
    step_at(file, here, bytes, out)
}

// A step reader: the file that it was given, and where it stands in it.
#[derive(Clone, Copy)]
pub struct Reader<'a> {
    pub file: &'a [u8],
    pub stand: Stand,
}

// A reader of the file, before its first item.
pub fn open<'a>(file: &'a [u8]) -> Reader<'a>
    ensures { (result.file ≡ file.entry) × Opens result.stand (open_stand file.now) }
{
    let stand = open_at(file);
    Reader { file, stand }
}

// One step of a reader, whatever its fields and the label's buffer hold.
pub fn step<'s, 'a>(
    reader: &'s mut Reader<'a>,
    bytes: &mut [u8; LABEL_LIMIT],
    out: &mut [u8],
) -> Result<Stepped, Refusal>
    ensures { Steps reader.old.stand bytes.old reader.old.file.now out.old (record { answer = result; stand = reader.new.stand }) bytes.new out.new × (reader.new.file ≡ reader.old.file) }
{
    let t = step_at(reader.file, reader.stand, bytes, out);
    reader.stand = t.stand;
    t.answer
}
