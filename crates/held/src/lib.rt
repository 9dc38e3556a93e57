// Where a step reader stands, as numbers that its caller holds from one step to the next.
// Any numbers are some stand: nothing that a caller puts there is unsafe. C holds them too,
// so a kind is a number here, and not an enum.
#![tactic(auto)]

ghost use Rattle.std.specs.Prelude.{◌≡◌, ◌+◌, ◌%◌, ◌≤◌, ◌<◌, Some};
ghost use Rattle.format.specs.Label.{label_limit};
ghost use Rattle.format.specs.Answers.{stepped_of};
ghost use Rattle.held.specs.declared.Brief.TheVariants.{Record as RecordBrief};
ghost use Rattle.held.specs.Numbers.{phase_of, date_of, position_of, held_of, stands_at};
ghost use Rattle.held.specs.Shortly.{Briefly, StepsOn};

use format::{Dated, LABEL_LIMIT, Point, Refusal, Setting, Stepped};
use laying::Quick;
use step::{Phase, Stand};

// How many numbers a stand takes.
pub const STAND_NUMBERS: usize = 14;

// 0 going, 1 at the end, any other refused with a number and a place.
#[derive(Clone, Copy)]
struct PhaseNumbers {
    kind: u64,
    number: u64,
    place: u64,
}

// 0 no date, 1 a day, any other a range.
#[derive(Clone, Copy)]
struct DateNumbers {
    kind: u64,
    day: u64,
    last: u64,
}

// 0 unset, any other a place.
#[derive(Clone, Copy)]
struct PlaceNumbers {
    kind: u64,
    x: u64,
    y: u64,
    z: u64,
}

// ---- numbers as narrower ones, and back

fn low8(x: u64) -> u8
    ensures { result ≡ x % 256 }
{
    (x % 256) as u8
}

fn low16(x: u64) -> u16
    ensures { result ≡ x % 65536 }
{
    (x % 65536) as u16
}

fn low32(x: u64) -> u32
    ensures { result ≡ x % 4294967296 }
{
    (x % 4294967296) as u32
}

fn wide8(x: u8) -> u64
    ensures { (result ≡ x) × (result < 256) }
{
    u64::from(x)
}

fn wide16(x: u16) -> u64
    ensures { (result ≡ x) × (result < 65536) }
{
    u64::from(x)
}

fn wide32(x: u32) -> u64
    ensures { (result ≡ x) × (result < 4294967296) }
{
    u64::from(x)
}

// ---- the stand that numbers say

#[tactic(auto, unfolding(crate::specs::Numbers::phase_of, format::specs::Bytes::pick))]
fn phase_of(kind: u64, number: u64, place: u64) -> Phase
    ensures { result ≡ phase_of kind number place }
{
    if kind == 0 {
        return Phase::Going;
    }
    if kind == 1 {
        return Phase::Ended;
    }
    Phase::Refused {
        refusal: Refusal {
            number: low8(number),
            place: place as usize,
        },
    }
}

#[tactic(auto, unfolding(crate::specs::Numbers::date_of, format::specs::Bytes::pick))]
fn date_of(kind: u64, day: u64, last: u64) -> Dated
    ensures { result ≡ date_of kind day last }
{
    if kind == 0 {
        return Dated::Undated;
    }
    if kind == 1 {
        return Dated::Day { day: low16(day) };
    }
    Dated::Range {
        first: low16(day),
        last: low16(last),
    }
}

#[tactic(auto, unfolding(crate::specs::Numbers::position_of, format::specs::Bytes::pick))]
fn position_of(kind: u64, x: u64, y: u64, z: u64) -> Option<Point>
    ensures { result ≡ position_of kind x y z }
{
    if kind == 0 {
        return None;
    }
    let point = Point {
        x: low32(x),
        y: low32(y),
        z: low32(z),
    };
    Some(point)
}

pub fn held_of(s: &[u64; STAND_NUMBERS]) -> Stand
    ensures { result ≡ held_of s.now }
{
    let phase = phase_of(s[0], s[1], s[2]);
    let date = date_of(s[7], s[8], s[9]);
    let position = position_of(s[10], s[11], s[12], s[13]);
    let setting = Setting {
        style: low8(s[6]),
        date,
        position,
    };
    Stand {
        phase,
        version: low8(s[3]),
        place: s[4] as usize,
        len: s[5] as usize,
        setting,
    }
}

// ---- the numbers of a stand

#[tactic(auto, using(crate::proofs::Narrow::narrow), unfolding(crate::specs::Numbers::phase_of, format::specs::Bytes::pick))]
fn phase_numbers(phase: Phase) -> PhaseNumbers
    ensures { phase_of result.kind result.number result.place ≡ phase }
{
    match phase {
        Phase::Going => PhaseNumbers {
            kind: 0,
            number: 0,
            place: 0,
        },
        Phase::Ended => PhaseNumbers {
            kind: 1,
            number: 0,
            place: 0,
        },
        Phase::Refused { refusal } => PhaseNumbers {
            kind: 2,
            number: wide8(refusal.number),
            place: refusal.place as u64,
        },
    }
}

#[tactic(auto, using(crate::proofs::Narrow::narrow), unfolding(crate::specs::Numbers::date_of, format::specs::Bytes::pick))]
fn date_numbers(date: Dated) -> DateNumbers
    ensures { date_of result.kind result.day result.last ≡ date }
{
    match date {
        Dated::Undated => DateNumbers {
            kind: 0,
            day: 0,
            last: 0,
        },
        Dated::Day { day } => DateNumbers {
            kind: 1,
            day: wide16(day),
            last: 0,
        },
        Dated::Range { first, last } => DateNumbers {
            kind: 2,
            day: wide16(first),
            last: wide16(last),
        },
    }
}

#[tactic(auto, using(crate::proofs::Narrow::narrow), unfolding(crate::specs::Numbers::position_of, format::specs::Bytes::pick))]
fn place_numbers(position: Option<Point>) -> PlaceNumbers
    ensures { position_of result.kind result.x result.y result.z ≡ position }
{
    match position {
        None => PlaceNumbers {
            kind: 0,
            x: 0,
            y: 0,
            z: 0,
        },
        Some(point) => PlaceNumbers {
            kind: 1,
            x: wide32(point.x),
            y: wide32(point.y),
            z: wide32(point.z),
        },
    }
}

pub fn numbers_of(stand: Stand) -> [u64; STAND_NUMBERS]
    ensures { held_of result ≡ stand }
{
    let here = stand.phase;
    let setting = stand.setting;
    let day = setting.date;
    let point = setting.position;
    let phase = phase_numbers(here);
    let date = date_numbers(day);
    let position = place_numbers(point);
    let version = wide8(stand.version);
    let style = wide8(setting.style);
    [
        phase.kind,
        phase.number,
        phase.place,
        version,
        stand.place as u64,
        stand.len as u64,
        style,
        date.kind,
        date.day,
        date.last,
        position.kind,
        position.x,
        position.y,
        position.z,
    ]
}

// ---- one step over one of the commonest items: most of the numbers stay as they are

// The numbers of a stand with another place, label length and position.
fn moved_on(
    s: &[u64; STAND_NUMBERS],
    place: usize,
    len: usize,
    point: PlaceNumbers,
) -> [u64; STAND_NUMBERS]
    ensures { held_of result ≡ stands_at (held_of s.now) place len (position_of point.kind point.x point.y point.z) }
{
    [
        s[0],
        s[1],
        s[2],
        s[3],
        place as u64,
        len as u64,
        s[6],
        s[7],
        s[8],
        s[9],
        point.kind,
        point.x,
        point.y,
        point.z,
    ]
}

// Another place and label length, with the position that the numbers have.
fn pass_on(s: &mut [u64; STAND_NUMBERS], place: usize, len: usize)
    ensures { held_of s.new ≡ stands_at (held_of s.old) place len (held_of s.old).setting.position }
{
    let position = PlaceNumbers {
        kind: s[10],
        x: s[11],
        y: s[12],
        z: s[13],
    };
    let after = moved_on(s, place, len, position);
    *s = after;
}

// The same with the position where a leg or a MOVE leads.
fn lead_on(s: &mut [u64; STAND_NUMBERS], place: usize, len: usize, to: Point)
    ensures { held_of s.new ≡ stands_at (held_of s.old) place len (Some to) }
{
    let position = place_numbers(Some(to));
    let after = moved_on(s, place, len, position);
    *s = after;
}

// What a step came to: a record, or none.
#[derive(Clone, Copy)]
pub enum Brief {
    Nothing,
    Record { bytes: usize, kept: usize },
}

// The record of a leg whose label has len bytes.
fn leg_record(len: usize, kept: usize) -> Brief
    requires { len ≤ label_limit }
    ensures { result ≡ RecordBrief (34 + len) kept }
{
    let bytes = 34 + len;
    Brief::Record { bytes, kept }
}

// One step from the stand that the numbers say, where the item is one of the commonest and
// there is room for every record. Else it is not taken, and nothing is touched.
pub fn short_step(
    file: &[u8],
    s: &mut [u64; STAND_NUMBERS],
    bytes: &mut [u8; LABEL_LIMIT],
    out: &mut [u8],
) -> Option<Brief>
    ensures { Briefly result s.old bytes.old file.now out.old s.new bytes.new out.new }
{
    let stand = held_of(s);
    let quick = step::short_at(file, stand, bytes, out)?;
    match quick {
        Quick::Leg {
            size,
            len,
            to,
            kept,
        } => {
            lead_on(s, stand.place + size, len, to);
            Some(leg_record(len, kept))
        }
        Quick::Made {
            size,
            len,
            bytes: n,
            kept,
        } => {
            pass_on(s, stand.place + size, len);
            Some(Brief::Record { bytes: n, kept })
        }
        Quick::Trim { len } => {
            pass_on(s, stand.place + 1, len);
            Some(Brief::Nothing)
        }
        Quick::Move { len, to } => {
            lead_on(s, stand.place + 13, len, to);
            Some(Brief::Nothing)
        }
    }
}

// ---- one step over any item

// One step by the general way.
fn any_step(
    file: &[u8],
    s: &mut [u64; STAND_NUMBERS],
    bytes: &mut [u8; LABEL_LIMIT],
    out: &mut [u8],
) -> Result<Stepped, Refusal>
    ensures { StepsOn (stepped_of result) s.old bytes.old file.now out.old s.new bytes.new out.new }
{
    let stand = held_of(s);
    let t = step::step_at(file, stand, bytes, out);
    let next = t.stand;
    let answer = t.answer;
    let numbers = numbers_of(next);
    *s = numbers;
    answer
}

// One step from the stand that the numbers say: exactly one item, one of the commonest by
// its arm, or the end or the refusal again.
pub fn one_step(
    file: &[u8],
    s: &mut [u64; STAND_NUMBERS],
    bytes: &mut [u8; LABEL_LIMIT],
    out: &mut [u8],
) -> Result<Stepped, Refusal>
    ensures { StepsOn (stepped_of result) s.old bytes.old file.now out.old s.new bytes.new out.new }
{
    match short_step(file, s, bytes, out) {
        Some(Brief::Record { bytes: n, kept }) => Ok(Stepped::Record { bytes: n, kept }),
        Some(Brief::Nothing) => Ok(Stepped::Nothing),
        None => any_step(file, s, bytes, out),
    }
}
