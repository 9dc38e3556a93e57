// The v7 codes of one record, of the header and of the end. Each piece is written where it
// fits, so the same code measures when it is lent no bytes.
#![tactic(auto)]

ghost use Rattle.std.specs.Prelude.{◌≡◌, [], ◌∷◌, ℕ, ◌+◌, ◌≤◌, length};
ghost use Rattle.format.specs.Bytes.{to_le32};
ghost use Rattle.format.specs.Fields.{record_of, state_of};
ghost use Rattle.format.specs.Header.{title_limit, time_limit};
ghost use Rattle.format.specs.Label.{label_limit};
ghost use Rattle.format.specs.Sheet.{point_bytes, traverse_bytes};
ghost use Rattle.format.specs.State.{leg as legRecord, section as sectionRecord};
ghost use Rattle.format.specs.WellFormed.{WellFormed, GoodLeg, GoodStation, GoodSection};
ghost use Rattle.format.specs.V7Codes.{sixteens, trim_codes, shorten_codes, old_length_codes, added_codes, labelled_codes, v7_dates, v7_section_codes, v7_codes, v7_codes_limit, v7_closing, v7_header_codes, v7_unable};
ghost use Rattle.part.specs.Lays.{Lays, Puts};

use codes::{
    all_short, long_bytes, point_bytes, put_date_if, put_move_if, short_bytes, traverse_bytes,
};
use format::{DateCodes, Fields, Setting};
use part::put;

// ---- labels

// n codes that take off 16 bytes each.
fn put_sixteens(out: &mut [u8], at: usize, n: usize) -> usize
    requires { (at ≤ 32768) × (n ≤ 256) }
    ensures { Lays out.old out.new at (sixteens n) 256 result }
{
    let mut next = at;
    for _code in 0..n {
        next = put(out, next, &[0x1f]);
    }
    next
}

// d bytes off: 16 at a time, and the rest last.
fn put_trims(out: &mut [u8], at: usize, d: usize) -> usize
    requires { (at ≤ 16384) × (d ≤ label_limit) }
    ensures { Lays out.old out.new at (trim_codes d) 257 result }
{
    let next = put_sixteens(out, at, d / 16);
    let rest = d % 16;
    if rest == 0 {
        return next;
    }
    put(out, next, &[(0x0f + rest) as u8])
}

// From a label of n bytes to its first k.
pub fn put_shorten(out: &mut [u8], at: usize, n: usize, k: usize) -> usize
    requires { (at ≤ 16384) × (n ≤ label_limit) × (k ≤ n) }
    ensures { Lays out.old out.new at (shorten_codes n k) 257 result }
{
    if k != 0 {
        return put_trims(out, at, n - k);
    }
    if n == 0 {
        return at;
    }
    put(out, at, &[0x00])
}

// A length: one byte below fe, or fe and 16 bits.
fn put_length(out: &mut [u8], at: usize, n: usize) -> usize
    requires { (at ≤ 32768) × (n ≤ label_limit) }
    ensures { Lays out.old out.new at (old_length_codes n) 3 result }
{
    if n < 0xfe {
        return put(out, at, &[n as u8]);
    }
    let b = number::le16_bytes((n - 254) as u32);
    put(out, at, &[0xfe, b[0], b[1]])
}

// What an item appends: the label's bytes after its first k.
fn put_added(out: &mut [u8], at: usize, name: &[u8], k: usize) -> usize
    requires { (at ≤ 32768) × (length name.now ≤ label_limit) × (k ≤ length name.now) }
    ensures { Lays out.old out.new at (added_codes name.now k) 4099 result }
{
    let next = put_length(out, at, name.len() - k);
    put(out, next, &name[k..])
}

// An item with a label: what shortens the last one, the code, what it appends and its fields.
fn put_labelled(
    out: &mut [u8],
    at: usize,
    last: &[u8],
    name: &[u8],
    code: u8,
    fields: &[u8],
) -> usize
    requires { (at ≤ 8192) × (length last.now ≤ label_limit) × (length name.now ≤ label_limit) × (length fields.now ≤ 16) }
    ensures { Lays out.old out.new at (labelled_codes last.now name.now code fields.now) (4357 + length fields.now) result }
{
    let kept = wire::common_start(last, name);
    let a = put_shorten(out, at, last.len(), kept);
    let b = put(out, a, &[code]);
    let c = put_added(out, b, name, kept);
    put(out, c, fields)
}

// ---- the codes of a record, from the front of out on

// v7's codes of dates.
const DATES: DateCodes = DateCodes {
    none: 0x24,
    day: 0x20,
    span: 0x21,
    days: 0x23,
};

fn put_leg(out: &mut [u8], setting: Setting, last: &[u8], name: &[u8], leg: format::Leg) -> usize
    requires { (length last.now ≤ label_limit) × GoodLeg leg name.now }
    ensures { Lays out.old out.new 0 (v7_codes (state_of setting last.now) (legRecord leg name.now)) v7_codes_limit result }
{
    let date = leg.date;
    let from = leg.from;
    let to = leg.to;
    let old = setting.date;
    let position = setting.position;
    let bytes = point_bytes(to);
    let a = put_date_if(out, 0, DATES, old, date);
    let b = put_move_if(out, a, position, from);
    put_labelled(out, b, last, name, 0x80 + leg.flags, &bytes)
}

fn put_station(out: &mut [u8], last: &[u8], name: &[u8], station: format::Station) -> usize
    requires { (length last.now ≤ label_limit) × GoodStation station name.now }
    ensures { Lays out.old out.new 0 (labelled_codes last.now name.now (0x40 + station.flags) (point_bytes to_le32 station.place)) v7_codes_limit result }
{
    let place = station.place;
    let bytes = point_bytes(place);
    put_labelled(out, 0, last, name, 0x40 + station.flags, &bytes)
}

// The XSECT item itself.
fn put_xsect(out: &mut [u8], at: usize, last: &[u8], name: &[u8], section: format::Section) -> usize
    requires { (at ≤ 8192) × (length last.now ≤ label_limit) × GoodSection section name.now }
    ensures { Lays out.old out.new at (v7_section_codes last.now section name.now) 4373 result }
{
    let size = section.size;
    let end = section.last;
    if all_short(size) {
        let bytes = short_bytes(size);
        return put_labelled(out, at, last, name, 0x30 + end, &bytes);
    }
    let bytes = long_bytes(size);
    put_labelled(out, at, last, name, 0x32 + end, &bytes)
}

fn put_section(
    out: &mut [u8],
    setting: Setting,
    last: &[u8],
    name: &[u8],
    section: format::Section,
) -> usize
    requires { (length last.now ≤ label_limit) × GoodSection section name.now }
    ensures { Lays out.old out.new 0 (v7_codes (state_of setting last.now) (sectionRecord section name.now)) v7_codes_limit result }
{
    let old = setting.date;
    let date = section.date;
    let at = put_date_if(out, 0, DATES, old, date);
    put_xsect(out, at, last, name, section)
}

fn put_error(out: &mut [u8], traverse: format::Traverse) -> usize
    ensures { Lays out.old out.new 0 (0x22 ∷ traverse_bytes to_le32 traverse) v7_codes_limit result }
{
    let a = put(out, 0, &[0x22]);
    let bytes = traverse_bytes(traverse);
    put(out, a, &bytes)
}

// The codes of one record, written over the front of out where they fit; answers their
// length either way. `last` is the previous label and `name` the record's own.
pub fn put_record(out: &mut [u8], state: Setting, last: &[u8], name: &[u8], fields: Fields) -> usize
    requires { (length last.now ≤ label_limit) × WellFormed (record_of fields name.now) }
    ensures { Puts out.old out.new (v7_codes (state_of state last.now) (record_of fields name.now)) v7_codes_limit result }
{
    match fields {
        Fields::Leg {
            flags,
            style,
            date,
            from,
            to,
        } => {
            let leg = format::Leg {
                flags,
                style,
                date,
                from,
                to,
            };
            put_leg(out, state, last, name, leg)
        }
        Fields::Station { station } => put_station(out, last, name, station),
        Fields::Section {
            last: end,
            unused: _,
            date,
            size,
        } => {
            let section = format::Section {
                last: end,
                date,
                size,
            };
            put_section(out, state, last, name, section)
        }
        Fields::Error { traverse } => put_error(out, traverse),
    }
}

// Whether v7 cannot carry a record: a leg with a style from 1 to 4, or a station with a
// flag above 0x1f.
pub fn unable(fields: Fields) -> bool
    ensures { result ≡ v7_unable (record_of fields []) }
{
    match fields {
        Fields::Leg {
            flags: _,
            style,
            date: _,
            from: _,
            to: _,
        } => 0 < style && style < format::NOT_SAID,
        Fields::Station { station } => 0x1f < station.flags,
        Fields::Section {
            last: _,
            unused: _,
            date: _,
            size: _,
        } => false,
        Fields::Error { traverse: _ } => false,
    }
}

// ---- what stands around the records

pub fn put_header(out: &mut [u8], title: &[u8], time: &[u8]) -> usize
    requires { (length title.now ≤ title_limit) × (length time.now ≤ time_limit) }
    ensures { Puts out.old out.new (v7_header_codes (record { extended = 0; title = title.now; time = time.now })) 4186 result }
{
    let a = put(out, 0, b"Survex 3D Image File\nv7\n");
    let b = put(out, a, title);
    let c = put(out, b, &[10]);
    let d = put(out, c, time);
    put(out, d, &[10])
}

// 00 if the label is not empty, then 00.
pub fn put_closing(out: &mut [u8], label: &[u8]) -> usize
    ensures { Puts out.old out.new (v7_closing label.now) 2 result }
{
    if label.len() == 0 {
        return put(out, 0, &[0x00]);
    }
    put(out, 0, &[0x00, 0x00])
}
