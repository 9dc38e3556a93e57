// One item of a file: what its bytes say, read where they lie.
#![tactic(auto)]

ghost use Rattle.std.specs.Prelude.{◌≡◌, ℕ, ◌≤◌, length, drop};
ghost use Rattle.format.specs.Bytes.{le16, le32, widened};
ghost use Rattle.format.specs.Items.{point_of, dimensions_of, traverse_of, move_item, error_item, day_item, span_item, days_item, day_of_seconds, seconds_item, two_seconds_item, item_of};
ghost use Rattle.length.specs.Parts.{part_at};
ghost use Rattle.kind.specs.Kinds.{tail_of, make_of, labelled_by};
ghost use Rattle.decode.specs.Bodies.{Bodies};
ghost use Rattle.decode.specs.Seen.{Reads};

use format::{Cut, Dimensions, Fault, Point, Traverse};
use kind::{Kind, Tail, kind_of, tail_size};
use length::{part_of, whole_part};
use number::{get_le16, get_le32, wide};

// What an item with a label is besides it; `Only` changes the label and no more.
#[derive(Clone, Copy)]
pub enum Body {
    Only,
    Section { last: u8, size: Dimensions },
    Station { flags: u8, place: Point },
    Line { flags: u8, place: Point },
}

// An item; the bytes that its label gains are count bytes of it, from `from` on.
#[derive(Clone, Copy)]
pub enum Item {
    Stop,
    Style {
        style: u8,
    },
    Move {
        place: Point,
    },
    NoDate,
    Date {
        size: usize,
        first: u32,
        last: u32,
    },
    Error {
        traverse: Traverse,
    },
    Relabel {
        size: usize,
        cut: Cut,
        from: usize,
        count: usize,
        body: Body,
    },
}

// ---- numbers that follow one another

// An i16's bit pattern as that of the same number in an i32.
fn get_short(s: &[u8]) -> u32
    requires { 2 ≤ length s.now }
    ensures { result ≡ widened (le16 s.now) }
{
    let n = i16::from_le_bytes([s[0], s[1]]);
    i32::from(n).cast_unsigned()
}

// x y z
pub fn get_point(s: &[u8]) -> Point
    requires { 12 ≤ length s.now }
    ensures { result ≡ point_of le32 s.now }
{
    let x = get_le32(s);
    let y = get_le32(&s[4..]);
    let z = get_le32(&s[8..]);
    Point { x, y, z }
}

// L R U D as i16
pub fn short_dimensions(s: &[u8]) -> Dimensions
    requires { 8 ≤ length s.now }
    ensures { result ≡ dimensions_of 2 (λ u. widened (le16 u)) s.now }
{
    let left = get_short(s);
    let right = get_short(&s[2..]);
    let up = get_short(&s[4..]);
    let down = get_short(&s[6..]);
    Dimensions {
        left,
        right,
        up,
        down,
    }
}

// L R U D as i32
pub fn long_dimensions(s: &[u8]) -> Dimensions
    requires { 16 ≤ length s.now }
    ensures { result ≡ dimensions_of 4 le32 s.now }
{
    let left = get_le32(s);
    let right = get_le32(&s[4..]);
    let up = get_le32(&s[8..]);
    let down = get_le32(&s[12..]);
    Dimensions {
        left,
        right,
        up,
        down,
    }
}

// legs, length, E, H, V
fn get_traverse(s: &[u8]) -> Traverse
    requires { 20 ≤ length s.now }
    ensures { result ≡ traverse_of le32 s.now }
{
    let legs = get_le32(s);
    let total = get_le32(&s[4..]);
    let e = get_le32(&s[8..]);
    let h = get_le32(&s[12..]);
    let v = get_le32(&s[16..]);
    Traverse {
        legs,
        total,
        e,
        h,
        v,
    }
}

// ---- items with a label; s begins with the code

// What they say.
fn body_at(tail: Tail, rest: &[u8]) -> Body
    requires { tail_of tail ≤ length rest.now }
    ensures { Bodies result (λ d added. make_of tail d added rest.now) }
{
    match tail {
        Tail::Short { last } => Body::Section {
            last,
            size: short_dimensions(rest),
        },
        Tail::Long { last } => Body::Section {
            last,
            size: long_dimensions(rest),
        },
        Tail::Station { flags } => Body::Station {
            flags,
            place: get_point(rest),
        },
        Tail::Line { flags } => Body::Line {
            flags,
            place: get_point(rest),
        },
    }
}

fn labelled_item(version: u8, bare: bool, tail: Tail, s: &[u8]) -> Result<Item, Fault>
    requires { 1 ≤ length s.now }
    ensures { Reads result s.now (labelled_by bare tail (part_at version) (drop 1 s.now)) }
{
    let t = &s[1..];
    let n = tail_size(tail);
    let p = part_of(version, bare, t);
    let q = whole_part(p, t, n);
    let Some(part) = q else {
        return Err(Fault::Unfinished);
    };
    let named = part.size + part.add;
    let rest = 1 + named;
    let body = body_at(tail, &s[rest..]);
    Ok(Item::Relabel {
        size: 1 + (named + n),
        cut: Cut::Back { bytes: part.drop },
        from: 1 + part.size,
        count: part.add,
        body,
    })
}

// ---- items without a label; s begins with the code

fn move_item(s: &[u8]) -> Result<Item, Fault>
    ensures { Reads result s.now (move_item s.now) }
{
    if s.len() < 13 {
        return Err(Fault::Unfinished);
    }
    let place = get_point(&s[1..]);
    Ok(Item::Move { place })
}

fn error_item(s: &[u8]) -> Result<Item, Fault>
    ensures { Reads result s.now (error_item s.now) }
{
    if s.len() < 21 {
        return Err(Fault::Unfinished);
    }
    let traverse = get_traverse(&s[1..]);
    Ok(Item::Error { traverse })
}

fn day_item(s: &[u8]) -> Result<Item, Fault>
    ensures { Reads result s.now (day_item s.now) }
{
    if s.len() < 3 {
        return Err(Fault::Unfinished);
    }
    let day = get_le16(&s[1..]);
    Ok(Item::Date {
        size: 3,
        first: day,
        last: day,
    })
}

fn span_item(s: &[u8]) -> Result<Item, Fault>
    ensures { Reads result s.now (span_item s.now) }
{
    if s.len() < 4 {
        return Err(Fault::Unfinished);
    }
    let first = get_le16(&s[1..]);
    let span = wide(s[3]);
    Ok(Item::Date {
        size: 4,
        first,
        last: first + span,
    })
}

fn days_item(s: &[u8]) -> Result<Item, Fault>
    ensures { Reads result s.now (days_item s.now) }
{
    if s.len() < 5 {
        return Err(Fault::Unfinished);
    }
    let first = get_le16(&s[1..]);
    let last = get_le16(&s[3..]);
    Ok(Item::Date {
        size: 5,
        first,
        last,
    })
}

fn day_of_seconds(n: u32) -> u32
    ensures { result ≡ day_of_seconds n }
{
    n / 86400 + 25567
}

fn seconds_item(s: &[u8]) -> Result<Item, Fault>
    ensures { Reads result s.now (seconds_item s.now) }
{
    if s.len() < 5 {
        return Err(Fault::Unfinished);
    }
    let day = day_of_seconds(get_le32(&s[1..]));
    Ok(Item::Date {
        size: 5,
        first: day,
        last: day,
    })
}

fn two_seconds_item(s: &[u8]) -> Result<Item, Fault>
    ensures { Reads result s.now (two_seconds_item s.now) }
{
    if s.len() < 9 {
        return Err(Fault::Unfinished);
    }
    let first = day_of_seconds(get_le32(&s[1..]));
    let last = day_of_seconds(get_le32(&s[5..]));
    Ok(Item::Date {
        size: 9,
        first,
        last,
    })
}

// The item at the front of s, in a file of the version.
pub fn decode(version: u8, s: &[u8]) -> Result<Item, Fault>
    ensures { Reads result s.now (item_of version s.now) }
{
    if s.len() < 1 {
        return Err(Fault::Unfinished);
    }
    let kind = kind_of(version, s[0]);
    match kind {
        Kind::Reserved => Err(Fault::Reserved),
        Kind::Stop => Ok(Item::Stop),
        Kind::Shorten { cut } => Ok(Item::Relabel {
            size: 1,
            cut,
            from: 0,
            count: 0,
            body: Body::Only,
        }),
        Kind::Style { style } => Ok(Item::Style { style }),
        Kind::Move => move_item(s),
        Kind::NoDate => Ok(Item::NoDate),
        Kind::Day => day_item(s),
        Kind::Span => span_item(s),
        Kind::Days => days_item(s),
        Kind::Seconds => seconds_item(s),
        Kind::TwoSeconds => two_seconds_item(s),
        Kind::Error => error_item(s),
        Kind::Labelled { bare, tail } => labelled_item(version, bare, tail, s),
    }
}
