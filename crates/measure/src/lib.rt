// The bytes and records of a v8 file's sheet, before any is written. Only the lengths of
// labels count here, so no label is kept: v3 to v7 look for dots, and v8 does not.
#![tactic(auto)]

ghost use Rattle.std.specs.Prelude.{◌≡◌, Bool, ℕ, ◌≤◌, length, drop, Ok, Some};
ghost use Rattle.format.specs.Items.{Date as date_item, Style as style_item, move_item, day_item, span_item, days_item, error_item, new_part};
ghost use Rattle.format.specs.State.{apply, next_of};
ghost use Rattle.format.specs.Faults.{fault_number};
ghost use Rattle.format.specs.Refusals.{Refusal as Refused};
ghost use Rattle.format.specs.Reading.{next, ended, items_of};
ghost use Rattle.kind.specs.Kinds.{labelled_by};
ghost use Rattle.measure.specs.Measures.{Keeps, Comes, ComesIn, Small, Tailed};
ghost use Rattle.measure.specs.Counting.{Counts, counted_as, leg_counted};
ghost use Rattle.measure.specs.Totals.{total_of, total_by, pass_of};
ghost use Rattle.format.specs.Header.{file_limit};
ghost use Rattle.format.specs.Label.{label_limit};
ghost use Rattle.format.specs.Sheet.{front_limit};

use format::{Fault, LABEL_LIMIT, Refusal};
use kind::{Kind, Tail, new_kind, tail_size};
use length::{part_of, whole_part};
use number::{get_le16, wide};
use short::{Short, new_item, sides};

// What the items of a file come to: the sheet's bytes and records before the first refused
// item, and the refusal, if there is one.
#[derive(Clone, Copy)]
pub struct Passed {
    pub verdict: Result<(), Refusal>,
    pub bytes: usize,
    pub records: usize,
}

// What an item comes to: the end; another style; a position; its size, where it makes no
// record; its size, the label's new length and its record's bytes.
#[derive(Clone, Copy)]
enum Measured {
    End,
    Styled {
        style: u8,
    },
    Moved,
    Passes {
        size: usize,
    },
    Made {
        size: usize,
        len: usize,
        bytes: usize,
    },
}

// ---- items without a label; s begins with the code

// A style, after another; normal where it is normal already is the end.
fn styled(style: u8, old: u8) -> Measured
    ensures { Small (Ok result) × ((len : ℕ) (placed : Bool) → ComesIn (Ok result) len old placed (λ st. apply st 1 (style_item style))) }
{
    if style == 0 && old == 0 {
        return Measured::End;
    }
    Measured::Styled { style }
}

fn moved(s: &[u8]) -> Result<Measured, Fault>
    ensures { Small result × Comes result (λ st. next_of st (move_item s.now)) }
{
    if s.len() < 13 {
        return Err(Fault::Unfinished);
    }
    Ok(Measured::Moved)
}

// Two days, of an item of so many bytes.
fn dated(size: usize, first: u32, last: u32) -> Result<Measured, Fault>
    ensures { Small result × Comes result (λ st. apply st size (date_item first last)) }
{
    if last < first || 65535 < last {
        return Err(Fault::BadDate);
    }
    Ok(Measured::Passes { size })
}

fn day(s: &[u8]) -> Result<Measured, Fault>
    ensures { Small result × Comes result (λ st. next_of st (day_item s.now)) }
{
    if s.len() < 3 {
        return Err(Fault::Unfinished);
    }
    let day = get_le16(&s[1..]);
    dated(3, day, day)
}

fn span(s: &[u8]) -> Result<Measured, Fault>
    ensures { Small result × Comes result (λ st. next_of st (span_item s.now)) }
{
    if s.len() < 4 {
        return Err(Fault::Unfinished);
    }
    let first = get_le16(&s[1..]);
    let days = wide(s[3]);
    dated(4, first, first + days)
}

fn days(s: &[u8]) -> Result<Measured, Fault>
    ensures { Small result × Comes result (λ st. next_of st (days_item s.now)) }
{
    if s.len() < 5 {
        return Err(Fault::Unfinished);
    }
    let first = get_le16(&s[1..]);
    let last = get_le16(&s[3..]);
    dated(5, first, last)
}

fn error(s: &[u8], len: usize) -> Result<Measured, Fault>
    requires { len ≤ label_limit }
    ensures { Small result × ((style : ℕ) (placed : Bool) → ComesIn result len style placed (λ st. next_of st (error_item s.now))) }
{
    if s.len() < 21 {
        return Err(Fault::Unfinished);
    }
    Ok(Measured::Made {
        size: 21,
        len,
        bytes: 23,
    })
}

// ---- items with a label

// What an item of so many bytes comes to once its label has len.
fn tailed(tail: Tail, placed: bool, size: usize, len: usize) -> Result<Measured, Fault>
    requires { len ≤ label_limit }
    ensures { Small result × Tailed result tail placed size len }
{
    let head = match tail {
        Tail::Short { last: _ } | Tail::Long { last: _ } => 25,
        Tail::Station { flags: _ } => 16,
        Tail::Line { flags: _ } => {
            if !placed {
                return Err(Fault::NoPosition);
            }
            34
        }
    };
    Ok(Measured::Made {
        size,
        len,
        bytes: head + len,
    })
}

// 5, then 6 and 7, and then the position.
fn labelled(s: &[u8], bare: bool, tail: Tail, len: usize, placed: bool) -> Result<Measured, Fault>
    requires { (1 ≤ length s.now) × (len ≤ label_limit) }
    ensures { Small result × ((style : ℕ) → ComesIn result len style placed (λ st. next_of st (labelled_by bare tail new_part (drop 1 s.now)))) }
{
    let t = &s[1..];
    let n = tail_size(tail);
    let Some(part) = whole_part(part_of(8, bare, t), t, n) else {
        return Err(Fault::Unfinished);
    };
    if len < part.drop {
        return Err(Fault::LabelTooShort);
    }
    let keep = len - part.drop;
    if LABEL_LIMIT - keep < part.add {
        return Err(Fault::LabelTooLong);
    }
    tailed(
        tail,
        placed,
        1 + (part.size + part.add + n),
        keep + part.add,
    )
}

// ---- the items of a file

// What any item at the front of s comes to.
fn any_item(s: &[u8], len: usize, style: u8, placed: bool) -> Result<Measured, Fault>
    requires { len ≤ label_limit }
    ensures { Small result × ComesIn result len style placed (λ st. next 8 s.now st) }
{
    if s.len() < 1 {
        return Err(Fault::Unfinished);
    }
    let kind = new_kind(s[0]);
    match kind {
        Kind::Reserved | Kind::Stop | Kind::Shorten { cut: _ } | Kind::Seconds | Kind::TwoSeconds =>
            Err(Fault::Reserved),
        Kind::Style { style: to } => Ok(styled(to, style)),
        Kind::Move => moved(s),
        Kind::NoDate => Ok(Measured::Passes { size: 1 }),
        Kind::Day => day(s),
        Kind::Span => span(s),
        Kind::Days => days(s),
        Kind::Error => error(s, len),
        Kind::Labelled { bare, tail } => labelled(s, bare, tail, len, placed),
    }
}

// ---- the commonest items: a record or a MOVE

// A record with so many bytes beside its label, of an item of so many.
fn count_record(size: usize, len: usize, head: usize) -> Measured
    requires { (len ≤ label_limit) × (head ≤ label_limit) }
    ensures { result ≡ counted_as size len head }
{
    Measured::Made {
        size,
        len,
        bytes: head + len,
    }
}

// A leg, which needs the position set.
fn count_leg(size: usize, len: usize, placed: bool) -> Option<Measured>
    requires { len ≤ label_limit }
    ensures { result ≡ leg_counted size len placed }
{
    if placed {
        return Some(count_record(size, len, 34));
    }
    None
}

// What the item at the front of s comes to, where it is one of the commonest and makes a
// record, or is a MOVE.
fn count_short(s: &[u8], len: usize, placed: bool) -> Option<Measured>
    ensures { Counts result s.now len placed }
{
    let short = new_item(s, len)?;
    match short {
        Short::Line {
            keep,
            add,
            flags: _,
        } => count_leg(14 + add, keep + add, placed),
        Short::Again { flags: _ } => count_leg(13, len, placed),
        Short::Place {
            keep,
            add,
            flags: _,
        } => Some(count_record(14 + add, keep + add, 16)),
        Short::Section { keep, add, code } => {
            Some(count_record(2 + add + sides(code), keep + add, 25))
        }
        Short::Trim { len: _ } => None,
        Short::Move => Some(Measured::Moved),
    }
}

// What the item at the front of s comes to: the commonest are tried first.
fn measure_item(s: &[u8], len: usize, style: u8, placed: bool) -> Result<Measured, Fault>
    requires { len ≤ label_limit }
    ensures { Small result × ComesIn result len style placed (λ st. next 8 s.now st) }
{
    if let Some(measured) = count_short(s, len, placed) {
        return Ok(measured);
    }
    any_item(s, len, style, placed)
}

// What the items come to at one that is refused. (This and `ended` stand by themselves: joined to a
// loop, they let LLVM hold its bytes and records as one vector, which takes longer to add to.)
#[inline(never)]
pub fn refused_at(fault: Fault, at: usize, bytes: usize, records: usize) -> Passed
    ensures { total_of result ≡ total_by (Refused (fault_number fault) at) bytes records }
{
    Passed {
        verdict: Err(fault.at(at)),
        bytes,
        records,
    }
}

// What the items come to at the end item, which the bytes from `at` on begin with: 10 where
// others follow it.
#[inline(never)]
pub fn ended(at: usize, rest: &[u8], bytes: usize, records: usize) -> Passed
    requires { at ≤ file_limit }
    ensures { total_of result ≡ total_by (ended at rest.now) bytes records }
{
    if 1 < rest.len() {
        let place = at + 1;
        return refused_at(Fault::BytesAfterEnd, place, bytes, records);
    }
    Passed {
        verdict: Ok(()),
        bytes,
        records,
    }
}

// The items of a v8 file from `place` on: the answer for a sheet with room enough, whose
// first record goes to `front`.
pub fn measure(file: &[u8], place: usize, front: usize) -> Passed
    requires { (length file.now ≤ file_limit) × (place ≤ length file.now) × (front ≤ front_limit) }
    ensures { total_of result ≡ pass_of front 0 (items_of 8 place file.now) }
{
    let mut at = place;
    let mut out = front;
    let mut records: usize = 0;
    let mut label: usize = 0;
    let mut style: u8 = 5;
    let mut placed = false;
    // Items differ in size: each turn moves the place on by its own item.
    loop {
        let rest = &file[at..];
        let item = match measure_item(rest, label, style, placed) {
            Ok(item) => item,
            Err(fault) => return refused_at(fault, at, out, records),
        };
        match item {
            Measured::End => return ended(at, rest, out, records),
            Measured::Styled { style: to } => {
                style = to;
                at += 1;
            }
            Measured::Moved => {
                placed = true;
                at += 13;
            }
            Measured::Passes { size } => {
                at += size;
            }
            Measured::Made { size, len, bytes } => {
                label = len;
                out += bytes;
                records += 1;
                at += size;
            }
        }
    }
}
