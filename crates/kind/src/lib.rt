// What a code says in a version.
#![tactic(auto)]

ghost use Rattle.std.specs.Prelude.{◌≡◌, List, ℕ, ◌≤◌, length, drop, get_or};
ghost use Rattle.format.specs.Items.{section_item, old_part, new_part, old_date_item, v7_date_item, old_middle_item, old_low_item, old_high_item, new_date_item, new_low_item, new_high_item, item_of};
ghost use Rattle.length.specs.Parts.{part_at};
ghost use Rattle.kind.specs.Kinds.{tail_of, kind_item, SaysBy, Says, Newer, new_item};

use format::Cut;
use number::index;

// What follows a label part: i16 or i32 dimensions, or a place.
#[derive(Clone, Copy)]
pub enum Tail {
    Short { last: u8 },
    Long { last: u8 },
    Station { flags: u8 },
    Line { flags: u8 },
}

// What a code says in a version. A bare line has no label part.
#[derive(Clone, Copy)]
pub enum Kind {
    Reserved,
    Stop,
    Shorten { cut: Cut },
    Style { style: u8 },
    Move,
    NoDate,
    Day,
    Span,
    Days,
    Seconds,
    TwoSeconds,
    Error,
    Labelled { bare: bool, tail: Tail },
}

// ---- codes

// v3 to v7, 00-1f
fn old_low(code: u8) -> Kind
    ensures { Says result (λ p s. old_low_item code s) }
{
    if code == 0x00 {
        return Kind::Stop;
    }
    if code < 0x0f {
        return Kind::Shorten {
            cut: Cut::ToDot { dots: index(code) },
        };
    }
    if code == 0x0f {
        return Kind::Move;
    }
    Kind::Shorten {
        cut: Cut::Trim {
            bytes: index(code - 15),
        },
    }
}

// v4 to v6, 20-21
fn old_date(code: u8) -> Kind
    ensures { Says result (λ p s. old_date_item code s) }
{
    if code == 0x20 {
        return Kind::Seconds;
    }
    if code == 0x21 {
        return Kind::TwoSeconds;
    }
    Kind::Reserved
}

// v7, 20 / 21 / 23 / 24
fn v7_date(code: u8) -> Kind
    ensures { Says result (λ p s. v7_date_item code s) }
{
    if code == 0x20 {
        return Kind::Day;
    }
    if code == 0x21 {
        return Kind::Span;
    }
    if code == 0x23 {
        return Kind::Days;
    }
    if code == 0x24 {
        return Kind::NoDate;
    }
    Kind::Reserved
}

// v3 to v7, 20-2f
fn old_middle(version: u8, code: u8) -> Kind
    ensures { Says result (λ p s. old_middle_item version code s) }
{
    if code == 0x22 {
        if version < 6 {
            return Kind::Reserved;
        }
        return Kind::Error;
    }
    if version < 4 {
        return Kind::Reserved;
    }
    if version < 7 {
        return old_date(code);
    }
    v7_date(code)
}

// 30-33
fn section(code: u8) -> Kind
    ensures { Says result (λ p s. section_item code (p (drop 1 s)) (drop 1 s)) × Newer result }
{
    let last = code % 2;
    if code < 0x32 {
        return Kind::Labelled {
            bare: false,
            tail: Tail::Short { last },
        };
    }
    Kind::Labelled {
        bare: false,
        tail: Tail::Long { last },
    }
}

// v3 to v7, 30-ff
fn old_high(version: u8, code: u8) -> Kind
    ensures { SaysBy old_part result (λ s. old_high_item version code (drop 1 s)) }
{
    if code < 0x34 {
        if version < 5 {
            return Kind::Reserved;
        }
        return section(code);
    }
    if code < 0x40 {
        return Kind::Reserved;
    }
    if code < 0x60 {
        return Kind::Labelled {
            bare: false,
            tail: Tail::Station { flags: code - 0x40 },
        };
    }
    if code < 0x80 {
        return Kind::Reserved;
    }
    if code < 0x88 {
        return Kind::Labelled {
            bare: false,
            tail: Tail::Line { flags: code - 0x80 },
        };
    }
    Kind::Reserved
}

// v8, 10-13
fn new_date(code: u8) -> Kind
    ensures { Says result (λ p s. new_date_item code s) × Newer result }
{
    if code == 0x10 {
        return Kind::NoDate;
    }
    if code == 0x11 {
        return Kind::Day;
    }
    if code == 0x12 {
        return Kind::Span;
    }
    Kind::Days
}

// v8, 00-2f
fn new_low(code: u8) -> Kind
    ensures { Says result (λ p s. new_low_item code s) × Newer result }
{
    if code < 0x05 {
        return Kind::Style { style: code };
    }
    if code < 0x0f {
        return Kind::Reserved;
    }
    if code == 0x0f {
        return Kind::Move;
    }
    if code < 0x14 {
        return new_date(code);
    }
    if code == 0x1f {
        return Kind::Error;
    }
    Kind::Reserved
}

// v8, 30-ff
fn new_high(code: u8) -> Kind
    ensures { SaysBy new_part result (λ s. new_high_item code (drop 1 s)) × Newer result }
{
    if code < 0x34 {
        return section(code);
    }
    if code < 0x40 {
        return Kind::Reserved;
    }
    if code < 0x48 {
        return Kind::Labelled {
            bare: false,
            tail: Tail::Line { flags: code - 0x40 },
        };
    }
    if code < 0x60 {
        return Kind::Reserved;
    }
    if code < 0x68 {
        return Kind::Labelled {
            bare: true,
            tail: Tail::Line { flags: code - 0x60 },
        };
    }
    if code < 0x80 {
        return Kind::Reserved;
    }
    Kind::Labelled {
        bare: false,
        tail: Tail::Station { flags: code - 0x80 },
    }
}

// What a code says in v8.
pub fn new_kind(code: u8) -> Kind
    ensures { SaysBy new_part result (new_item code) × Newer result }
{
    if code < 0x30 {
        return new_low(code);
    }
    new_high(code)
}

// What a code says in a version. Its last lines are those of `new_kind`: where that is
// called instead, reading takes a tenth more instructions.
pub fn kind_of(version: u8, code: u8) -> Kind
    ensures { (s : List ℕ) → 1 ≤ length s → get_or s 0 0 ≡ code → kind_item result (part_at version) s ≡ item_of version s }
{
    if version < 8 {
        if code < 0x20 {
            return old_low(code);
        }
        if code < 0x30 {
            return old_middle(version, code);
        }
        return old_high(version, code);
    }
    if code < 0x30 {
        return new_low(code);
    }
    new_high(code)
}

// ---- what follows a label

// How many bytes follow the label.
pub fn tail_size(tail: Tail) -> usize
    ensures { (result ≡ tail_of tail) × (result ≤ 16) }
{
    match tail {
        Tail::Short { last: _ } => 8,
        Tail::Long { last: _ } => 16,
        Tail::Station { flags: _ } => 12,
        Tail::Line { flags: _ } => 12,
    }
}
