// Reading a whole file into a sheet: a first pass judges every item and measures the
// sheet, a second lays the records in.
// A label's bytes and its length stand apart: C lends the bytes and has the length in its stand.
#![tactic(auto)]

ghost use Rattle.std.specs.Prelude.{◌≡◌, List, [], ℕ, ◌+◌, ◌^◌, ◌≤◌, ◌<◌, length, replicate, Ok};
ghost use Rattle.format.specs.State.{start_setting};
ghost use Rattle.format.specs.Reading.{items_of, read_outcome, read_buffer};
ghost use Rattle.format.specs.Answers.{answer_of, verdict_of};
ghost use Rattle.format.specs.Refusals.{Good};
ghost use Rattle.measure.specs.Totals.{pass_of, total_of};
ghost use Rattle.read.specs.Pass.{Headed, Judges, Fills, sheet_of_head, ReadsTo, SettlesTo, front_of, course_of};
ghost use Rattle.read.specs.Ruling.{ReadyTo, RulesIn, AnyItem, ShortTurn, Begins, BeginsAs, items_by, LentBy};
ghost use Rattle.strict.specs.Strict.{strict_items, strict_outcome, strict_buffer};
ghost use Rattle.table.specs.Told.{Holds};
ghost use Rattle.item.specs.Seen.{seen, Short as ShortStep};
ghost use Rattle.read.specs.Turning.{Few, Ready, ReadyFor, SmallJoint, ahead_of, passed_of, record_by, same_joint, TurnsLine, Shortly, Turns};
ghost use Rattle.item.specs.Commonest.{moved_to, extended};
ghost use Rattle.laying.specs.Quickly.{Joined};
ghost use Rattle.layout.specs.Freely.{LaidFreely};
ghost use Rattle.read.specs.Salvage.{report_number, report_place, salvage_outcome, salvage_buffer, salvaged_of, SalvagesTo};
ghost use Rattle.format.specs.Bytes.{over};
ghost use Rattle.format.specs.Header.{title_limit, time_limit};
ghost use Rattle.format.specs.Label.{label_limit};
ghost use Rattle.short.specs.Brief.{Finds, place_at};

use decode::get_point;
use format::{Done, Fault, LABEL_LIMIT, Point, Refusal, Setting};
use header::Head;
use item::{Step, leg_at, section_at, station_at, with_position};
use laying::{Joint, lay_leg_freely, lay_same_freely, lay_section_freely, lay_station_freely};
use measure::{Passed, ended, refused_at};
use short::{Short, new_item, old_item, sides};
use strict::take_next;
use table::Index;

// How far a pass has come: the next item's place, where the next record goes, how many records
// there were, and the label's length.
#[derive(Clone, Copy)]
struct Progress {
    at: usize,
    out: usize,
    records: usize,
    len: usize,
}

// Where a pass stands: how far it has come, and the setting there.
#[derive(Clone, Copy)]
struct Stand {
    here: Progress,
    setting: Setting,
}

// What an item is taken by: the file's version, the label's length, and where its record goes.
#[derive(Clone, Copy)]
struct Before {
    version: u8,
    len: usize,
    out: usize,
}

// How far an item takes a pass: its size, the label's new length, and the bytes and the number of
// the records that it makes.
#[derive(Clone, Copy)]
struct Moved {
    size: usize,
    len: usize,
    bytes: usize,
    records: usize,
}

// What an item comes to in a pass: the end; or how far it takes the pass, with the setting after
// it, and the index where names are judged (#108).
#[derive(Clone, Copy)]
enum Turned {
    End,
    Went {
        by: Moved,
        setting: Setting,
        rule: Option<Index>,
    },
}

// What one of the commonest items comes to: the label's length after a trim; or where the pass
// stands behind it. (A trim leaves all else as it was, and so copies nothing.)
#[derive(Clone, Copy)]
enum Common {
    Trim { len: usize },
    Went { stand: Stand },
}

// The item at the front of s, after a label of len bytes, where it is one of the commonest.
// (`short_item` has other callers, and so is not joined to the loop.)
fn find_short(version: u8, s: &[u8], len: usize) -> Option<Short>
    requires { len ≤ label_limit }
    ensures { Finds result version s.now len }
{
    if version < 8 {
        return old_item(version, s, len);
    }
    new_item(s, len)
}

// ---- how far a pass has come

// At the first item of a file.
fn outset(place: usize, front: usize) -> Stand
    ensures { result ≡ record { here = record { at = place; out = front; records = 0; len = 0 }; setting = start_setting } }
{
    let here = Progress {
        at: place,
        out: front,
        records: 0,
        len: 0,
    };
    let setting = format::start_setting();
    Stand { here, setting }
}

// Behind an item that goes so far.
fn ahead(here: Progress, by: Moved) -> Progress
    requires { (here.at + by.size < 2 ^ 62) × (here.out + by.bytes < 2 ^ 62) × (here.records + by.records < 2 ^ 62) }
    ensures { result ≡ ahead_of here by }
{
    Progress {
        at: here.at + by.size,
        out: here.out + by.bytes,
        records: here.records + by.records,
        len: by.len,
    }
}

// Behind one that makes no record.
fn passed(here: Progress, size: usize, len: usize) -> Progress
    requires { here.at + size < 2 ^ 62 }
    ensures { result ≡ passed_of here size len }
{
    Progress {
        at: here.at + size,
        out: here.out,
        records: here.records,
        len,
    }
}

// Behind one that makes a record with so many bytes beside its label.
fn behind(here: Progress, joint: Joint, head: usize) -> Progress
    requires { Few here × SmallJoint joint × (head ≤ 34) }
    ensures { result ≡ ahead_of here (record_by joint head) }
{
    let len = joint.keep + joint.add;
    Progress {
        at: here.at + joint.size,
        out: here.out + (head + len),
        records: here.records + 1,
        len,
    }
}

// Behind an item that leads the position so far.
fn leads(here: Progress, setting: Setting, to: Point) -> Common
    ensures { result ≡ Common.Went (record { here = here; setting = moved_to setting to }) }
{
    let setting = with_position(setting, to);
    Common::Went {
        stand: Stand { here, setting },
    }
}

// ---- the commonest items, at the front of s: their records are laid in

// A LINE that appends to the label. Where the position is not set it is left to the general item.
fn turn_line(
    s: &[u8],
    bytes: &mut [u8; LABEL_LIMIT],
    stand: Stand,
    joint: Joint,
    flags: u8,
    sheet: &mut [u8],
) -> Option<Common>
    requires { Joined joint s.now bytes.old × Few stand.here × SmallJoint joint }
    ensures { TurnsLine result stand joint (2 + joint.add) flags s.now bytes.old (extended bytes.old joint.keep s.now) bytes.new sheet.old sheet.new }
{
    let setting = stand.setting;
    let point = setting.position?;
    let leg = leg_at(s, 2 + joint.add, flags, setting, point);
    lay_leg_freely(s, bytes, joint, leg, sheet);
    let here = behind(stand.here, joint, 34);
    Some(leads(here, setting, leg.to))
}

// A LINE with the same label, in the same way.
fn turn_again(
    s: &[u8],
    bytes: &mut [u8; LABEL_LIMIT],
    stand: Stand,
    flags: u8,
    sheet: &mut [u8],
) -> Option<Common>
    requires { (33 ≤ length s.now) × Ready stand.here bytes.old × (stand.here.len + 16 ≤ label_limit) }
    ensures { TurnsLine result stand (same_joint stand.here) 1 flags s.now bytes.old bytes.old bytes.new sheet.old sheet.new }
{
    let setting = stand.setting;
    let point = setting.position?;
    let leg = leg_at(s, 1, flags, setting, point);
    let old = stand.here;
    lay_same_freely(bytes, old.len, old.out, leg, sheet);
    let joint = Joint {
        keep: old.len,
        add: 0,
        size: 13,
        out: old.out,
    };
    let here = behind(old, joint, 34);
    Some(leads(here, setting, leg.to))
}

// A MOVE.
fn turn_move(s: &[u8], here: Progress, setting: Setting) -> Common
    requires { (13 ≤ length s.now) × Few here }
    ensures { result ≡ Common.Went (record { here = passed_of here 13 here.len; setting = moved_to setting (place_at s.now 1) }) }
{
    let to = get_point(&s[1..]);
    let next = passed(here, 13, here.len);
    leads(next, setting, to)
}

// The item at the front of s, where it is one of the commonest.
fn lay_short(
    version: u8,
    s: &[u8],
    bytes: &mut [u8; LABEL_LIMIT],
    stand: Stand,
    sheet: &mut [u8],
) -> Option<Common>
    requires { Ready stand.here bytes.old }
    ensures { Shortly result version stand s.now bytes.old bytes.new sheet.old sheet.new }
{
    let here = stand.here;
    let setting = stand.setting;
    let short = find_short(version, s, here.len)?;
    match short {
        Short::Line { keep, add, flags } => {
            let joint = Joint {
                keep,
                add,
                size: 14 + add,
                out: here.out,
            };
            turn_line(s, bytes, stand, joint, flags, sheet)
        }
        Short::Again { flags } => turn_again(s, bytes, stand, flags, sheet),
        Short::Place { keep, add, flags } => {
            let joint = Joint {
                keep,
                add,
                size: 14 + add,
                out: here.out,
            };
            let station = station_at(s, 2 + add, flags);
            lay_station_freely(s, bytes, joint, station, sheet);
            let here = behind(here, joint, 16);
            Some(Common::Went {
                stand: Stand { here, setting },
            })
        }
        Short::Section { keep, add, code } => {
            let joint = Joint {
                keep,
                add,
                size: 2 + add + sides(code),
                out: here.out,
            };
            let section = section_at(s, 2 + add, code, setting);
            lay_section_freely(s, bytes, joint, section, sheet);
            let here = behind(here, joint, 25);
            Some(Common::Went {
                stand: Stand { here, setting },
            })
        }
        Short::Trim { len } => Some(Common::Trim { len }),
        Short::Move => Some(turn_move(s, here, setting)),
    }
}

// ---- the items of a file

// The item at the front of s, whichever it is: its record is laid in.
fn lay_item(
    before: Before,
    s: &[u8],
    bytes: &mut [u8; LABEL_LIMIT],
    setting: Setting,
    sheet: &mut [u8],
) -> Result<Turned, Fault>
    requires { ReadyFor before bytes.old }
    ensures { Turns result before setting s.now bytes.old bytes.new sheet.old sheet.new }
{
    let step = item::take_item(before.version, s, bytes, before.len, setting)?;
    match step {
        Step::End => Ok(Turned::End),
        Step::On { size, len, setting } => Ok(Turned::Went {
            by: Moved {
                size,
                len,
                bytes: 0,
                records: 0,
            },
            setting,
            rule: None,
        }),
        Step::Made {
            size,
            len,
            setting,
            fields,
            kept: _,
        } => {
            layout::lay_record(sheet, before.out, fields, bytes, len);
            Ok(Turned::Went {
                by: Moved {
                    size,
                    len,
                    bytes: layout::record_size(fields, len),
                    records: 1,
                },
                setting,
                rule: None,
            })
        }
    }
}

// What an item's step comes to once the record that it makes is judged, with the label in the
// first bytes of a buffer.
fn judge_step(
    room: &mut [u8],
    index: Index,
    step: Step,
    bytes: &[u8; LABEL_LIMIT],
) -> Result<Turned, Fault>
    requires { Holds room.old index × ShortStep (Ok step) × (length bytes.now ≡ label_limit) × (index.count < 16777215) }
    ensures { RulesIn result index bytes.now (seen (Ok step) bytes.now) room.old room.new }
{
    match step {
        Step::End => Ok(Turned::End),
        Step::On { size, len, setting } => Ok(Turned::Went {
            by: Moved {
                size,
                len,
                bytes: 0,
                records: 0,
            },
            setting,
            rule: Some(index),
        }),
        Step::Made {
            size,
            len,
            setting,
            fields,
            kept: _,
        } => {
            let index = strict::judge(room, index, fields, bytes, len)?;
            Ok(Turned::Went {
                by: Moved {
                    size,
                    len,
                    bytes: layout::record_size(fields, len),
                    records: 1,
                },
                setting,
                rule: Some(index),
            })
        }
    }
}

// The item at the front of s, with the buffer that a pass is lent: the sheet, or the room for
// names.
fn any_item(
    before: Before,
    s: &[u8],
    bytes: &mut [u8; LABEL_LIMIT],
    setting: Setting,
    lent: &mut [u8],
    rule: Option<Index>,
) -> Result<Turned, Fault>
    requires { ReadyFor before bytes.old × ReadyTo rule lent.old }
    ensures { AnyItem rule result before setting s.now bytes.old bytes.new lent.old lent.new }
{
    match rule {
        None => lay_item(before, s, bytes, setting, lent),
        Some(index) => {
            let step = take_next(before.version, s, bytes, before.len, setting)?;
            judge_step(lent, index, step, bytes)
        }
    }
}

// One of the commonest items, where no names are judged.
fn short_turn(
    strict: bool,
    version: u8,
    s: &[u8],
    bytes: &mut [u8; LABEL_LIMIT],
    stand: Stand,
    lent: &mut [u8],
) -> Option<Common>
    requires { Ready stand.here bytes.old }
    ensures { ShortTurn strict result version stand s.now bytes.old bytes.new lent.old lent.new }
{
    if strict {
        return None;
    }
    lay_short(version, s, bytes, stand, lent)
}

// Which items a pass goes over, and where the first record goes.
#[derive(Clone, Copy)]
struct Course {
    version: u8,
    place: usize,
    front: usize,
}

// A pass over the items of a file: the answer for a sheet with room enough. It is lent the sheet,
// and lays the records in, where there is room for all of them; or the room for names, by which
// it judges stations and cross-sections.
fn pass(file: &[u8], course: Course, lent: &mut [u8], first: Option<Index>) -> Passed
    requires { Begins file.now course × BeginsAs first course.place lent.old }
    ensures answer { total_of result ≡ pass_of course.front 0 (items_by first (length lent.old) course file.now) }
    ensures lent { LentBy first lent.old lent.new course file.now }
{
    let mut label = label::blank();
    let mut stand = outset(course.place, course.front);
    let version = course.version;
    let strict = first.is_some();
    let mut ruling = first;
    // Items differ in size: each turn moves the place on by its own item.
    loop {
        let here = stand.here;
        let setting = stand.setting;
        let at = here.at;
        let rest = &file[at..];
        let turn = short_turn(strict, version, rest, &mut label.bytes, stand, lent);
        match turn {
            Some(Common::Went { stand: next }) => {
                stand = next;
            }
            Some(Common::Trim { len }) => {
                let here = passed(here, 1, len);
                stand = Stand { here, setting };
            }
            None => {
                let before = Before {
                    version,
                    len: here.len,
                    out: here.out,
                };
                let it = any_item(before, rest, &mut label.bytes, setting, lent, ruling);
                match it {
                    Err(fault) => return refused_at(fault, at, here.out, here.records),
                    Ok(Turned::End) => return ended(at, rest, here.out, here.records),
                    Ok(Turned::Went { by, setting, rule }) => {
                        let here = ahead(here, by);
                        stand = Stand { here, setting };
                        ruling = rule;
                    }
                }
            }
        }
    }
}

// The first pass: the answer for a sheet with room enough. The sheet stays as it was.
fn measured(file: &[u8], sheet: &mut [u8], course: Course) -> Passed
    requires { Begins file.now course × (course.version ≤ 8) }
    ensures answer { total_of result ≡ pass_of course.front 0 (items_of course.version course.place file.now) }
    ensures sheet { sheet.new ≡ sheet.old }
{
    if course.version < 8 {
        return pass(file, course, &mut sheet[..0], None);
    }
    measure::measure(file, course.place, course.front)
}

fn course_of(head: Head) -> Course
    requires { (head.title ≤ title_limit) × (head.time ≤ time_limit) }
    ensures { result ≡ course_of head }
{
    Course {
        version: head.version,
        place: head.place,
        front: 7 + head.title + head.time,
    }
}

// The first pass over the items of a file that was opened.
fn judged(file: &[u8], sheet: &mut [u8], head: Head) -> Passed
    requires { Headed file.now head }
    ensures { Judges file.now head result × (sheet.new ≡ sheet.old) }
{
    let course = course_of(head);
    measured(file, sheet, course)
}

// The second pass: the sheet of the records before the first refused item, of so many bytes.
fn fill(file: &[u8], sheet: &mut [u8], head: Head, bytes: usize)
    requires { Headed file.now head × Fills file.now head bytes sheet.old }
    ensures { sheet.new ≡ over (sheet_of_head file.now head) sheet.old }
{
    let ends = 24 + head.title;
    let from = ends + 1;
    let stops = from + head.time;
    layout::put_front(sheet, head.extended, &file[24..ends], &file[from..stops]);
    let course = course_of(head);
    pass(file, course, &mut sheet[..bytes], None);
}

// What reading comes to after its first pass: 11 comes last, and then the sheet is filled.
fn settle(file: &[u8], sheet: &mut [u8], head: Head, total: Passed) -> Result<Done, Refusal>
    requires { Headed file.now head × (verdict_of total.verdict ≡ Good → Judges file.now head total) }
    ensures { SettlesTo file.now total sheet.old result sheet.new }
{
    total.verdict?;
    let bytes = total.bytes;
    if sheet.len() < total.bytes {
        return Err(Fault::BufferTooSmall.at(bytes));
    }
    fill(file, sheet, head, bytes);
    Ok(Done {
        bytes,
        records: total.records,
        version: head.version,
    })
}

// Reads the items of a file that was opened, in two passes.
fn read_items(file: &[u8], sheet: &mut [u8], head: Head) -> Result<Done, Refusal>
    requires { Headed file.now head }
    ensures { ReadsTo file.now sheet.old result sheet.new }
{
    let total = judged(file, sheet, head);
    settle(file, sheet, head, total)
}

// Reads a file into the lent sheet.
pub fn read(file: &[u8], sheet: &mut [u8]) -> Result<Done, Refusal>
    ensures answer { answer_of result ≡ read_outcome file.now (length sheet.old) }
    ensures sheet { sheet.new ≡ read_buffer file.now sheet.old }
{
    let head = header::opening(file)?;
    read_items(file, sheet, head)
}

// ---- request #111: what can be saved

// What is saved: the sheet's bytes and records, the file's version, and the report: the refusal's
// number and its place, and the file's bytes from there on. (0 is the number where nothing was
// refused, as C has it.)
#[derive(Clone, Copy, PartialEq, Eq)]
pub struct Saved {
    pub bytes: usize,
    pub records: usize,
    pub version: u8,
    pub number: u8,
    pub place: usize,
    pub left: usize,
}

// Why reading stopped: number 0 and the file's length for a whole file.
fn reported(verdict: Result<(), Refusal>, size: usize) -> Refusal
    ensures { (result.number ≡ report_number (verdict_of verdict)) × (result.place ≡ report_place (verdict_of verdict) size) }
{
    match verdict {
        Ok(()) => Refusal {
            number: 0,
            place: size,
        },
        Err(refusal) => refusal,
    }
}

// Salvages the items of a file that was opened: the two passes of reading with another ending.
fn salvage_items(file: &[u8], sheet: &mut [u8], head: Head) -> Result<Saved, Refusal>
    requires { Headed file.now head }
    ensures { SalvagesTo file.now sheet.old result sheet.new }
{
    let total = judged(file, sheet, head);
    let bytes = total.bytes;
    if sheet.len() < bytes {
        return Err(Fault::BufferTooSmall.at(bytes));
    }
    fill(file, sheet, head, bytes);
    let report = reported(total.verdict, file.len());
    Ok(Saved {
        bytes,
        records: total.records,
        version: head.version,
        number: report.number,
        place: report.place,
        left: file.len() - report.place,
    })
}

// Writes the records that the items of a file make before the first refused one to the lent
// sheet.
pub fn salvage(file: &[u8], sheet: &mut [u8]) -> Result<Saved, Refusal>
    ensures answer { salvaged_of result ≡ salvage_outcome file.now (length sheet.old) }
    ensures sheet { sheet.new ≡ salvage_buffer file.now sheet.old }
{
    let head = header::opening(file)?;
    salvage_items(file, sheet, head)
}

// ---- request #108: strict reading

// How much of the room is cleared: all of it, and not only the nodes of so many names, since it
// may have held anything.
fn cleared(_names: usize, whole: usize) -> usize
    ensures { result ≡ whole }
{
    whole
}

// The first pass with the names judged in lent room, which then holds zeros.
fn judge_names(file: &[u8], head: Head, room: &mut [u8], seed: u64) -> Passed
    requires { Headed file.now head }
    ensures total { total_of result ≡ pass_of (front_of head) 0 (strict_items head.version (length room.old) head.place file.now) }
    ensures room { room.new ≡ replicate (length room.old) 0 }
{
    let index = table::empty(room, seed);
    let course = course_of(head);
    let total = pass(file, course, room, Some(index));
    let end = cleared(total.records, room.len());
    piece::clear(&mut room[..end]);
    total
}

// Reads a file into the lent sheet and refuses unknown and moved stations, with lent room
// for an index of names and a seed for its hash. The room then holds zeros.
pub fn read_strict(
    file: &[u8],
    sheet: &mut [u8],
    room: &mut [u8],
    seed: u64,
) -> Result<Done, Refusal>
    ensures answer { answer_of result ≡ strict_outcome file.now (length room.old) (length sheet.old) }
    ensures sheet { sheet.new ≡ strict_buffer file.now (length room.old) sheet.old }
    ensures room { room.new ≡ replicate (length room.old) 0 }
{
    match header::opening(file) {
        Ok(head) => {
            let total = judge_names(file, head, room, seed);
            settle(file, sheet, head, total)
        }
        Err(refusal) => {
            piece::clear(room);
            Err(refusal)
        }
    }
}
