// The v8 codes of one record. Each piece is written where it fits, so the same code
// measures when it is lent no bytes.
#![tactic(auto, unfolding(format::specs::Bytes::to_le16, format::specs::Bytes::to_le32))]

ghost use Rattle.std.specs.Prelude.{◌≡◌, ◌++◌, ℕ, ◌+◌, ◌-◌, ◌≤◌, length, drop};
ghost use Rattle.format.specs.Bytes.{to_le16, to_le32, same};
ghost use Rattle.format.specs.Fields.{record_of, state_of};
ghost use Rattle.format.specs.Sheet.{point_bytes, dimension_bytes, traverse_bytes};
ghost use Rattle.format.specs.WellFormed.{WellFormed, GoodDated, GoodLeg, GoodStation, GoodSection};
ghost use Rattle.format.specs.State.{leg as legRecord, section as sectionRecord};
ghost use Rattle.format.specs.Codes.{same_date, dated_codes, v8_dates, stands_at, style_if, date_if, move_if, line_codes, station_codes, fits_short, all_short, section_codes, error_codes, codes_limit, codes};
ghost use Rattle.format.specs.declared.Dated.TheVariants.{Range};
ghost use Rattle.part.specs.Lays.{Lays, Puts};
ghost use Rattle.format.specs.Label.{label_limit};

use format::{
    DateCodes, Dated, Dimensions, Fields, Leg, Point, Section, Setting, Station, Traverse,
};
use part::{kept_bytes, put, put_label, shared};

// ---- pieces

pub fn point_bytes(p: Point) -> [u8; 12]
    ensures { result ≡ point_bytes to_le32 p }
{
    let x = number::le32_bytes(p.x);
    let y = number::le32_bytes(p.y);
    let z = number::le32_bytes(p.z);
    [
        x[0], x[1], x[2], x[3], y[0], y[1], y[2], y[3], z[0], z[1], z[2], z[3],
    ]
}

// Dimensions as i16.
pub fn short_bytes(d: Dimensions) -> [u8; 8]
    ensures { result ≡ dimension_bytes to_le16 d }
{
    let l = number::le16_bytes(d.left);
    let r = number::le16_bytes(d.right);
    let u = number::le16_bytes(d.up);
    let w = number::le16_bytes(d.down);
    [l[0], l[1], r[0], r[1], u[0], u[1], w[0], w[1]]
}

// Dimensions as i32.
pub fn long_bytes(d: Dimensions) -> [u8; 16]
    ensures { result ≡ dimension_bytes to_le32 d }
{
    let l = number::le32_bytes(d.left);
    let r = number::le32_bytes(d.right);
    let u = number::le32_bytes(d.up);
    let w = number::le32_bytes(d.down);
    [
        l[0], l[1], l[2], l[3], r[0], r[1], r[2], r[3], u[0], u[1], u[2], u[3], w[0], w[1], w[2],
        w[3],
    ]
}

pub fn traverse_bytes(t: Traverse) -> [u8; 20]
    ensures { result ≡ traverse_bytes to_le32 t }
{
    let l = number::le32_bytes(t.legs);
    let n = number::le32_bytes(t.total);
    let e = number::le32_bytes(t.e);
    let h = number::le32_bytes(t.h);
    let v = number::le32_bytes(t.v);
    [
        l[0], l[1], l[2], l[3], n[0], n[1], n[2], n[3], e[0], e[1], e[2], e[3], h[0], h[1], h[2],
        h[3], v[0], v[1], v[2], v[3],
    ]
}

// ---- dates and places

pub fn same_date(a: Dated, b: Dated) -> bool
    ensures { result ≡ same_date a b }
{
    a == b
}

// Whether the position is set and is this place.
pub fn stands_at(position: Option<Point>, p: Point) -> bool
    ensures { result ≡ stands_at position p }
{
    position == Some(p)
}

// ---- a leg's codes

fn put_style(out: &mut [u8], at: usize, old: u8, style: u8) -> usize
    requires { at ≤ 32768 }
    ensures { Lays out.old out.new at (style_if old style) 1 result }
{
    if old == style {
        return at;
    }
    put(out, at, &[style])
}

// v8's codes of dates.
const DATES: DateCodes = DateCodes {
    none: 0x10,
    day: 0x11,
    span: 0x12,
    days: 0x13,
};

// A range in one byte for its span where that fits, else two days.
fn put_range(out: &mut [u8], at: usize, codes: DateCodes, first: u16, last: u16) -> usize
    requires { (at ≤ 32768) × (first ≤ last) }
    ensures { Lays out.old out.new at (dated_codes codes (Range first last)) 5 result }
{
    let d = number::le16_bytes(u32::from(first));
    let span = last - first;
    if span <= 255 {
        return put(out, at, &[codes.span, d[0], d[1], span as u8]);
    }
    let e = number::le16_bytes(u32::from(last));
    put(out, at, &[codes.days, d[0], d[1], e[0], e[1]])
}

fn put_date(out: &mut [u8], at: usize, codes: DateCodes, date: Dated) -> usize
    requires { (at ≤ 32768) × GoodDated date }
    ensures { Lays out.old out.new at (dated_codes codes date) 5 result }
{
    match date {
        Dated::Undated => { put(out, at, &[codes.none]) }
        Dated::Day { day } => {
            let d = number::le16_bytes(u32::from(day));
            put(out, at, &[codes.day, d[0], d[1]])
        }
        Dated::Range { first, last } => put_range(out, at, codes, first, last),
    }
}

// A date in a version's codes, where it differs from the one before.
pub fn put_date_if(out: &mut [u8], at: usize, codes: DateCodes, old: Dated, date: Dated) -> usize
    requires { (at ≤ 32768) × GoodDated date }
    ensures { Lays out.old out.new at (date_if codes old date) 5 result }
{
    if same_date(old, date) {
        return at;
    }
    put_date(out, at, codes, date)
}

// The same in v8's codes.
fn put_new_date_if(out: &mut [u8], at: usize, old: Dated, date: Dated) -> usize
    requires { (at ≤ 32768) × GoodDated date }
    ensures { Lays out.old out.new at (date_if v8_dates old date) 5 result }
{
    put_date_if(out, at, DATES, old, date)
}

pub fn put_move_if(out: &mut [u8], at: usize, position: Option<Point>, from: Point) -> usize
    requires { at ≤ 32768 }
    ensures { Lays out.old out.new at (move_if position from) 13 result }
{
    if stands_at(position, from) {
        return at;
    }
    let next = put(out, at, &[0x0f]);
    let place = point_bytes(from);
    put(out, next, &place)
}

// The LINE item itself: 0x20 for the same label.
fn put_line(out: &mut [u8], at: usize, last: &[u8], name: &[u8], flags: u8, to: Point) -> usize
    requires { (at ≤ label_limit) × (length last.now ≤ label_limit) × (length name.now ≤ label_limit) × (flags ≤ 7) }
    ensures { Lays out.old out.new at (line_codes last.now flags to name.now) 4120 result }
{
    let place = point_bytes(to);
    let s = shared(last, name);
    if s.same {
        let next = put(out, at, &[0x60 + flags]);
        return put(out, next, &place);
    }
    let next = put(out, at, &[0x40 + flags]);
    let kept = s.kept;
    let end = put_label(out, next, last.len(), name, kept);
    put(out, end, &place)
}

// ---- the codes of a record, from the front of out on

fn put_leg(out: &mut [u8], setting: Setting, last: &[u8], name: &[u8], leg: Leg) -> usize
    requires { (length last.now ≤ label_limit) × GoodLeg leg name.now }
    ensures { Lays out.old out.new 0 (codes (state_of setting last.now) (legRecord leg name.now)) codes_limit result }
{
    let date = leg.date;
    let from = leg.from;
    let to = leg.to;
    let old = setting.date;
    let position = setting.position;
    let a = put_style(out, 0, setting.style, leg.style);
    let b = put_new_date_if(out, a, old, date);
    let c = put_move_if(out, b, position, from);
    put_line(out, c, last, name, leg.flags, to)
}

fn put_station(out: &mut [u8], last: &[u8], name: &[u8], station: Station) -> usize
    requires { (length last.now ≤ label_limit) × GoodStation station name.now }
    ensures { Lays out.old out.new 0 (station_codes last.now station name.now) 4120 result }
{
    let place = station.place;
    let a = put(out, 0, &[0x80 + station.flags]);
    let kept = kept_bytes(last, name);
    let b = put_label(out, a, last.len(), name, kept);
    let bytes = point_bytes(place);
    put(out, b, &bytes)
}

// Whether an i32's bit pattern is that of an i16.
#[tactic(auto, unfolding(format::specs::Codes::fits_short))]
fn fits_short(n: u32) -> bool
    ensures { result ≡ fits_short n }
{
    n <= 32767 || 4294934528 <= n
}

#[tactic(auto, unfolding(format::specs::Codes::all_short))]
pub fn all_short(d: Dimensions) -> bool
    ensures { result ≡ all_short d }
{
    fits_short(d.left) && fits_short(d.right) && fits_short(d.up) && fits_short(d.down)
}

// The XSECT item itself.
fn put_xsect(out: &mut [u8], at: usize, last: &[u8], name: &[u8], section: Section) -> usize
    requires { (at ≤ label_limit) × (length last.now ≤ label_limit) × GoodSection section name.now }
    ensures { Lays out.old out.new at (section_codes last.now section name.now) 4124 result }
{
    let size = section.size;
    let end = section.last;
    let kept = kept_bytes(last, name);
    if all_short(size) {
        let a = put(out, at, &[0x30 + end]);
        let b = put_label(out, a, last.len(), name, kept);
        let bytes = short_bytes(size);
        return put(out, b, &bytes);
    }
    let a = put(out, at, &[0x32 + end]);
    let b = put_label(out, a, last.len(), name, kept);
    let bytes = long_bytes(size);
    put(out, b, &bytes)
}

fn put_section(
    out: &mut [u8],
    setting: Setting,
    last: &[u8],
    name: &[u8],
    section: Section,
) -> usize
    requires { (length last.now ≤ label_limit) × GoodSection section name.now }
    ensures { Lays out.old out.new 0 (codes (state_of setting last.now) (sectionRecord section name.now)) 4129 result }
{
    let old = setting.date;
    let date = section.date;
    let at = put_new_date_if(out, 0, old, date);
    put_xsect(out, at, last, name, section)
}

fn put_error(out: &mut [u8], traverse: Traverse) -> usize
    ensures { Lays out.old out.new 0 (error_codes traverse) 21 result }
{
    let a = put(out, 0, &[0x1f]);
    let bytes = traverse_bytes(traverse);
    put(out, a, &bytes)
}

// The codes of one record, written over the front of out where they fit; answers
// their length either way. `last` is the previous label and `name` the record's own.
// Where they do not fit, only out's length is promised: callers measure, or have room.
pub fn put_record(
    out: &mut [u8],
    setting: Setting,
    last: &[u8],
    name: &[u8],
    fields: Fields,
) -> usize
    requires { (length last.now ≤ label_limit) × WellFormed (record_of fields name.now) }
    ensures { Puts out.old out.new (codes (state_of setting last.now) (record_of fields name.now)) codes_limit result }
{
    match fields {
        Fields::Leg {
            flags,
            style,
            date,
            from,
            to,
        } => {
            let leg = Leg {
                flags,
                style,
                date,
                from,
                to,
            };
            put_leg(out, setting, last, name, leg)
        }
        Fields::Station { station } => put_station(out, last, name, station),
        Fields::Section {
            last: end,
            unused: _,
            date,
            size,
        } => {
            let section = Section {
                last: end,
                date,
                size,
            };
            put_section(out, setting, last, name, section)
        }
        Fields::Error { traverse } => put_error(out, traverse),
    }
}
