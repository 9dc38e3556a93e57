// The records of a sheet, laid out in bytes.
// A label's bytes and its length stand apart: C lends the bytes and has the length in its stand.
#![tactic(auto, unfolding(format::specs::Bytes::to_be16, format::specs::Bytes::to_be32))]

ghost use Rattle.std.specs.Prelude.{◌≡◌, refl, List, [], ◌∷◌, ◌++◌, ℕ, ◌+◌, ◌^◌, ◌≤◌, ◌<◌, length, take};
ghost use Rattle.format.specs.Bytes.{over, to_be16, to_be32};
ghost use Rattle.format.specs.Sheet.{sheet_version, point_bytes, dimension_bytes, traverse_bytes, date_kind, date_day, date_last, date_bytes, error_size, record_limit, layout, header_layout};
ghost use Rattle.format.specs.State.{Record, leg, station, section};
ghost use Rattle.format.specs.Fields.{record_of, record_size};
ghost use Rattle.layout.specs.Freely.{LaidFreely, Named};
ghost use Rattle.layout.specs.Fronts.{leg_front, station_front, section_front, front_of, front_size, label_of};
ghost use Rattle.std.proofs.Common.{rules};
ghost use Rattle.layout.specs.Joined.{Joint};
ghost use Rattle.wire.specs.Laid.{laid, laid_if};
ghost use Rattle.format.specs.Header.{time_limit, title_limit};
ghost use Rattle.format.specs.Label.{label_limit};

use format::{
    Dated, Dimensions, Fields, LABEL_LIMIT, Leg, Point, SHEET_VERSION, Section, Station, Traverse,
};

// A date as a sheet has it: kind, day and last day. (The kind is the sheet's own byte.)
#[derive(Clone, Copy)]
pub struct Days {
    pub kind: u8,
    pub day: u16,
    pub last: u16,
}

fn days_of(date: Dated) -> Days
    ensures { (result.kind ≡ date_kind date) × (result.day ≡ date_day date) × (result.last ≡ date_last date) × (result.day < 65536) × (result.last < 65536) }
{
    match date {
        Dated::Undated => Days {
            kind: 0,
            day: 0,
            last: 0,
        },
        Dated::Day { day } => Days {
            kind: 1,
            day,
            last: 0,
        },
        Dated::Range { first, last } => Days {
            kind: 2,
            day: first,
            last,
        },
    }
}

// A traverse error, whole: it has no label.
fn error_bytes(t: Traverse) -> [u8; 23]
    ensures { result ≡ to_be16 error_size ++ (4 ∷ traverse_bytes to_be32 t) }
{
    let l = number::be32_bytes(t.legs);
    let n = number::be32_bytes(t.total);
    let e = number::be32_bytes(t.e);
    let h = number::be32_bytes(t.h);
    let v = number::be32_bytes(t.v);
    [
        0, 21, 4, l[0], l[1], l[2], l[3], n[0], n[1], n[2], n[3], e[0], e[1], e[2], e[3], h[0],
        h[1], h[2], h[3], v[0], v[1], v[2], v[3],
    ]
}

// Writes a place into out from index k on.
fn put_point(out: &mut [u8], k: usize, p: Point)
    requires { k + 12 ≤ length out.old }
    ensures { out.new ≡ laid out.old k (point_bytes to_be32 p) }
{
    wire::lay_be32(p.x, out, k);
    wire::lay_be32(p.y, out, k + 4);
    wire::lay_be32(p.z, out, k + 8);
}

// Writes dimensions into out from index k on.
fn put_dimensions(out: &mut [u8], k: usize, d: Dimensions)
    requires { k + 16 ≤ length out.old }
    ensures { out.new ≡ laid out.old k (dimension_bytes to_be32 d) }
{
    wire::lay_be32(d.left, out, k);
    wire::lay_be32(d.right, out, k + 4);
    wire::lay_be32(d.up, out, k + 8);
    wire::lay_be32(d.down, out, k + 12);
}

// Copies the first len bytes of a label into out from index k on.
fn put_label(out: &mut [u8], k: usize, bytes: &[u8; LABEL_LIMIT], len: usize)
    requires { (len ≤ label_limit) × (k + len ≤ length out.old) × (length bytes.now ≡ label_limit) }
    ensures { out.new ≡ laid out.old k (take len bytes.now) }
{
    let whole = &bytes[..];
    wire::lay(&whole[..len], out, k);
}

// The same for a label that was not just written byte by byte, by words.
fn put_kept(out: &mut [u8], k: usize, bytes: &[u8; LABEL_LIMIT], len: usize)
    requires { (len ≤ label_limit) × (k + len ≤ length out.old) × (length bytes.now ≡ label_limit) }
    ensures { out.new ≡ laid out.old k (take len bytes.now) }
{
    let whole = &bytes[..];
    wire::copy_words(&whole[..len], &mut out[k..]);
}

// Writes a label into out from index k on: the first keep bytes of another one, and at
// most fifteen more.
#[inline(never)]
fn put_joined(out: &mut [u8], k: usize, bytes: &[u8; LABEL_LIMIT], keep: usize, added: &[u8])
    requires { (k + (keep + length added.now) ≤ length out.old) × Joint keep added.now bytes.now }
    ensures { out.new ≡ laid out.old k (take keep bytes.now ++ added.now) }
{
    put_kept(out, k, bytes, keep);
    let n = k + keep;
    wire::copy_short(added, &mut out[n..]);
}

// ---- a label where what stands behind it is free: a short one is laid by copies of a fixed
// size, without a test of its length.
// These are joined to reading's loop by name, and the long way stays out of it: LLVM alone joins
// none of them, and a leg then takes a quarter more instructions.

// Copies the first 48 bytes of a label to the front of out.
#[inline(always)]
fn put_three(out: &mut [u8], bytes: &[u8; LABEL_LIMIT])
    requires { (48 ≤ length out.old) × (length bytes.now ≡ label_limit) }
    ensures { out.new ≡ over (take 48 bytes.now) out.old }
{
    let whole = &bytes[..];
    wire::copy_sixteen(whole, out);
    wire::copy_sixteen(&whole[16..], &mut out[16..]);
    wire::copy_sixteen(&whole[32..], &mut out[32..]);
}

// The first keep bytes of a label, at most 48, and sixteen more.
#[inline(always)]
fn put_over(out: &mut [u8], bytes: &[u8; LABEL_LIMIT], keep: usize, added: &[u8])
    requires { (64 ≤ length out.old) × (keep ≤ 48) × (16 ≤ length added.now) × (length bytes.now ≡ label_limit) }
    ensures { LaidFreely out.old out.new 0 (take keep bytes.now ++ take 16 added.now) }
{
    put_three(out, bytes);
    wire::copy_sixteen(added, &mut out[keep..]);
}

// Writes a label into out from index k on: the first keep bytes of another one, and the
// first add of the bytes that follow.
#[inline(always)]
pub fn put_name_freely(
    out: &mut [u8],
    k: usize,
    bytes: &[u8; LABEL_LIMIT],
    keep: usize,
    added: &[u8],
    add: usize,
)
    requires { Named out.old k bytes.now keep added.now add }
    ensures { LaidFreely out.old out.new k (take keep bytes.now ++ take add added.now) }
{
    if 48 < keep {
        put_joined(out, k, bytes, keep, &added[..add]);
        return;
    }
    if out.len() < k + 64 {
        put_joined(out, k, bytes, keep, &added[..add]);
        return;
    }
    put_over(&mut out[k..], bytes, keep, added);
}

// The same of the first len bytes of a label, with nothing added.
pub fn put_label_freely(out: &mut [u8], k: usize, bytes: &[u8; LABEL_LIMIT], len: usize)
    requires { (k + len ≤ length out.old) × (k < 2 ^ 63) × (len + 16 ≤ label_limit) × (length bytes.now ≡ label_limit) }
    ensures { LaidFreely out.old out.new k (take len bytes.now) }
{
    let whole = &bytes[..];
    if 48 < len {
        put_joined(out, k, bytes, len, &whole[..0]);
        return;
    }
    if out.len() < k + 48 {
        put_joined(out, k, bytes, len, &whole[..0]);
        return;
    }
    put_three(&mut out[k..], bytes);
}

// How many bytes a record takes in a sheet, with its length bytes.
pub fn record_size(fields: Fields, len: usize) -> usize
    requires { len ≤ label_limit }
    ensures { (result ≡ record_size fields len) × (result ≤ record_limit) }
{
    match fields {
        Fields::Leg {
            flags: _,
            style: _,
            date: _,
            from: _,
            to: _,
        } => 34 + len,
        Fields::Station { station: _ } => 16 + len,
        Fields::Section {
            last: _,
            unused: _,
            date: _,
            size: _,
        } => 25 + len,
        Fields::Error { traverse: _ } => 23,
    }
}

// ---- what stands before the label of len bytes, over the front of out. Words of their own
// are stored at once, where a head of bytes is stored byte by byte.

// The length bytes of a body of n bytes, its kind and the byte behind.
fn put_start(out: &mut [u8], n: usize, kind: u8, first: u8)
    requires { (n < 65536) × (4 ≤ length out.old) }
    ensures { out.new ≡ over (to_be16 n ++ (kind ∷ first ∷ [])) out.old }
{
    let k = u32::from(kind);
    let b = u32::from(first);
    number::put_be32(out, n as u32 * 65536 + k * 256 + b);
}

fn put_byte(out: &mut [u8], k: usize, b: u8)
    requires { k < length out.old }
    ensures { out.new ≡ laid out.old k (b ∷ []) }
{
    out[k] = b;
}

// A date from index k on: its kind, its day and its last day.
fn put_date(out: &mut [u8], k: usize, date: Dated)
    requires { k + 5 ≤ length out.old }
    ensures { out.new ≡ laid out.old k (date_bytes date) }
{
    let days = days_of(date);
    let day = u32::from(days.day);
    let last = u32::from(days.last);
    put_byte(out, k, days.kind);
    wire::lay_be32(day * 65536 + last, out, k + 1);
}

pub fn put_leg(out: &mut [u8], fields: Leg, len: usize)
    requires { (len ≤ label_limit) × (34 ≤ length out.old) }
    ensures { out.new ≡ over (leg_front fields len) out.old }
{
    let date = fields.date;
    let from = fields.from;
    let to = fields.to;
    put_start(out, 32 + len, 1, fields.flags);
    put_byte(out, 4, fields.style);
    put_date(out, 5, date);
    put_point(out, 10, from);
    put_point(out, 22, to);
}

pub fn put_station(out: &mut [u8], fields: Station, len: usize)
    requires { (len ≤ label_limit) × (16 ≤ length out.old) }
    ensures { out.new ≡ over (station_front fields len) out.old }
{
    let place = fields.place;
    put_start(out, 14 + len, 2, fields.flags);
    put_point(out, 4, place);
}

pub fn put_section(out: &mut [u8], fields: Section, len: usize)
    requires { (len ≤ label_limit) × (25 ≤ length out.old) }
    ensures { out.new ≡ over (section_front fields len) out.old }
{
    let date = fields.date;
    let size = fields.size;
    put_start(out, 23 + len, 3, fields.last);
    put_date(out, 4, date);
    put_dimensions(out, 9, size);
}

// A traverse error, over the front of out.
fn put_error(out: &mut [u8], traverse: Traverse)
    requires { 23 ≤ length out.old }
    ensures { out.new ≡ over (to_be16 error_size ++ (4 ∷ traverse_bytes to_be32 traverse)) out.old }
{
    let whole = error_bytes(traverse);
    wire::copy(&whole, out);
}

// Lays a record over the front of out.
fn put_record(out: &mut [u8], fields: Fields, bytes: &[u8; LABEL_LIMIT], len: usize)
    requires { (len ≤ label_limit) × (record_size fields len ≤ length out.old) × (length bytes.now ≡ label_limit) }
    ensures { out.new ≡ over (layout sheet_version (record_of fields (take len bytes.now))) out.old }
{
    match fields {
        Fields::Leg {
            flags,
            style,
            date,
            from,
            to,
        } => {
            let leg = Leg {
                flags,
                style,
                date,
                from,
                to,
            };
            put_leg(out, leg, len);
            put_label(out, 34, bytes, len);
        }
        Fields::Station { station } => {
            put_station(out, station, len);
            put_label(out, 16, bytes, len);
        }
        Fields::Section {
            last,
            unused: _,
            date,
            size,
        } => {
            let section = Section { last, date, size };
            put_section(out, section, len);
            put_label(out, 25, bytes, len);
        }
        Fields::Error { traverse } => put_error(out, traverse),
    }
}

// Lays a record into the sheet from index `at` on, where it fits.
pub fn lay_record(
    sheet: &mut [u8],
    at: usize,
    fields: Fields,
    bytes: &[u8; LABEL_LIMIT],
    len: usize,
)
    requires { (at < 2 ^ 63) × (len ≤ label_limit) × (length bytes.now ≡ label_limit) }
    ensures { sheet.new ≡ laid_if sheet.old at (layout sheet_version (record_of fields (take len bytes.now))) }
{
    // The pass that measures is lent no bytes: it goes no further than this.
    if sheet.len() <= at {
        return;
    }
    let n = record_size(fields, len);
    if sheet.len() < at + n {
        return;
    }
    put_record(&mut sheet[at..], fields, bytes, len);
}

// ---- a leg, a station and a cross-section whose label is the first keep bytes of another
// one, and at most fifteen more: the commonest

// What stands in a record before its label, in SIZE bytes.
pub trait Front: Copy {
    ghost SIZE: { ℕ };

    // What stands before a label of so many bytes, and the record with a label.
    ghost front: { Self → ℕ → List ℕ };

    ghost made: { Self → List ℕ → Record };

    const SIZE: usize;

    // Lays it over the front of out, before a label of len bytes.
    fn put(self, out: &mut [u8], len: usize)
        requires { (len ≤ label_limit) × (SIZE ≤ length out.old) }
        ensures { out.new ≡ over (front self len) out.old };

    ghost few: { SIZE ≤ 34 };

    ghost label_is: { (x : Self) (l : List ℕ) → label_of (made x l) ≡ l };

    ghost front_is: { (x : Self) (l : List ℕ) (n : ℕ) → front_of (made x l) n ≡ front x n };

    ghost size_is: { (x : Self) (l : List ℕ) → front_size (made x l) ≡ SIZE };
}

impl Front for Leg {
    ghost SIZE = { 34 };

    ghost front = { leg_front };

    ghost made = { leg };

    const SIZE: usize = 34;

    fn put(self, out: &mut [u8], len: usize) {
        put_leg(out, self, len);
    }

    ghost few = { Prim.search rules };

    ghost label_is = { λ x l. refl };

    ghost front_is = { λ x l n. refl };

    ghost size_is = { λ x l. refl };
}

impl Front for Station {
    ghost SIZE = { 16 };

    ghost front = { station_front };

    ghost made = { station };

    const SIZE: usize = 16;

    fn put(self, out: &mut [u8], len: usize) {
        put_station(out, self, len);
    }

    ghost few = { Prim.search rules };

    ghost label_is = { λ x l. refl };

    ghost front_is = { λ x l n. refl };

    ghost size_is = { λ x l. refl };
}

impl Front for Section {
    ghost SIZE = { 25 };

    ghost front = { section_front };

    ghost made = { section };

    const SIZE: usize = 25;

    fn put(self, out: &mut [u8], len: usize) {
        put_section(out, self, len);
    }

    ghost few = { Prim.search rules };

    ghost label_is = { λ x l. refl };

    ghost front_is = { λ x l n. refl };

    ghost size_is = { λ x l. refl };
}

// Lays a record into the sheet from index `at` on, where it fits.
pub fn lay_short<F: Front>(
    sheet: &mut [u8],
    at: usize,
    fields: F,
    bytes: &[u8; LABEL_LIMIT],
    keep: usize,
    added: &[u8],
)
    requires { (at < 2 ^ 62) × Joint keep added.now bytes.now }
    ensures { sheet.new ≡ laid_if sheet.old at (layout sheet_version (F.made fields (take keep bytes.now ++ added.now))) }
{
    let len = keep + added.len();
    let name = at + F::SIZE;
    if sheet.len() < name + len {
        return;
    }
    fields.put(&mut sheet[at..], len);
    put_joined(sheet, name, bytes, keep, added);
}

// The version byte and the fields of a header whose title has t bytes and whose
// time line has m.
fn front_head(extended: u8, t: usize, m: usize) -> [u8; 7]
    requires { (t ≤ title_limit) × (m ≤ time_limit) }
    ensures { result ≡ sheet_version ∷ (to_be16 (4 + t + m) ++ (0 ∷ extended ∷ to_be16 t)) }
{
    let n = ((4 + t + m) as u16).to_be_bytes();
    let title = (t as u16).to_be_bytes();
    [SHEET_VERSION, n[0], n[1], 0, extended, title[0], title[1]]
}

// Lays the version byte and the header record over the front of a sheet.
pub fn put_front(sheet: &mut [u8], extended: u8, title: &[u8], time: &[u8])
    requires { (length title.now ≤ title_limit) × (length time.now ≤ time_limit) × (7 + length title.now + length time.now ≤ length sheet.old) }
    ensures { sheet.new ≡ over (sheet_version ∷ header_layout (record { extended = extended; title = title.now; time = time.now })) sheet.old }
{
    let t = title.len();
    let head = front_head(extended, t, time.len());
    wire::copy(&head, sheet);
    wire::lay(title, sheet, 7);
    wire::lay(time, sheet, 7 + t);
}
