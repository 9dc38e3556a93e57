// The commonest records of a sheet: their codes are one item whose label part takes one
// byte, since style, date and position go on. They are found and written without being
// taken apart; every other record goes the general way.
#![tactic(auto)]

ghost use Rattle.std.specs.Prelude.{◌≡◌, [], ◌∷◌, ◌++◌, true, ◌+◌, ◌*◌, ◌≤◌, ◌<◌, length, get_or};
ghost use Rattle.format.specs.Bytes.{be16, be32, to_le16, to_le32, over};
ghost use Rattle.format.specs.Codes.{short_part};
ghost use Rattle.format.specs.Items.{point_of, dimensions_of};
ghost use Rattle.format.specs.Sheet.{framed, point_bytes, dimension_bytes};
ghost use Rattle.part.specs.Lays.{Puts};
ghost use Rattle.plain.specs.Plainly.{mark_of, mark_from, label_at, tail_size, tail_of, position_after, LegTold, StationTold, SectionTold, HeadTold, Found, Labelled, Fitting, plain_codes};
ghost use Rattle.plain.specs.Placed.{Placed, place_at, PlacedTold, FoundPlaced};

use format::{Dated, Point, SHEET_VERSION};

// What kind of record it is, and so what ends its codes: a place, or dimensions as i16
// (narrow) or as i32 (wide).
#[derive(Clone, Copy)]
pub enum Form {
    Leg,
    Station,
    Narrow,
    Wide,
}

// The code of a record's item, and its form.
#[derive(Clone, Copy)]
struct Head {
    code: u8,
    form: Form,
}

// A record of so many bytes that keeps so many of the previous label, and its item's code.
#[derive(Clone, Copy)]
pub struct Item {
    pub size: usize,
    pub kept: usize,
    pub code: u8,
    pub form: Form,
}

// ---- style and date as one number

fn mark_from(style: u8, kind: u64, first: u16, last: u16) -> u64
    requires { kind ≤ 2 }
    ensures { result ≡ mark_from style kind first last }
{
    let s = u64::from(style);
    let f = u64::from(first);
    let l = u64::from(last);
    s + 256 * (kind + 256 * (f / 256 + 256 * (f % 256 + 256 * (l / 256 + 256 * (l % 256)))))
}

// The six bytes for style and date in a leg's record, as one number.
pub fn mark_of(style: u8, date: Dated) -> u64
    ensures { result ≡ mark_of style date }
{
    match date {
        Dated::Undated => mark_from(style, 0, 0, 0),
        Dated::Day { day } => mark_from(style, 1, day, 0),
        Dated::Range { first, last } => mark_from(style, 2, first, last),
    }
}

// ---- what stands before the label

// The leg of the record s, whose body has n bytes.
fn leg_head(s: &[u8], n: usize, mark: u64, position: Option<Point>) -> Option<Head>
    requires { (n ≡ be16 s.now) × (framed s.now ≡ true) × (get_or s.now 2 0 ≡ 1) }
    ensures { LegTold result s.now mark position }
{
    if !sheet::label_fits(n, 32) {
        return None;
    }
    let word = number::get_le64(&s[2..]);
    if word / 65536 != mark {
        return None;
    }
    if 0x07 < s[3] {
        return None;
    }
    let from = sheet::point(&s[10..]);
    if !codes::stands_at(position, from) {
        return None;
    }
    Some(Head {
        code: 0x40 + s[3],
        form: Form::Leg,
    })
}

// The station of the record s, whose body has n bytes.
fn station_head(s: &[u8], n: usize) -> Option<Head>
    requires { (n ≡ be16 s.now) × (framed s.now ≡ true) × (get_or s.now 2 0 ≡ 2) }
    ensures { StationTold result s.now }
{
    if !sheet::label_fits(n, 14) {
        return None;
    }
    if 0x7f < s[3] {
        return None;
    }
    Some(Head {
        code: 0x80 + s[3],
        form: Form::Station,
    })
}

// The cross-section of the record s of a version 2 sheet, whose body has n bytes.
fn section_head(s: &[u8], n: usize, mark: u64) -> Option<Head>
    requires { (n ≡ be16 s.now) × (framed s.now ≡ true) × (get_or s.now 2 0 ≡ 3) }
    ensures { SectionTold result s.now mark }
{
    if !sheet::label_fits(n, 23) {
        return None;
    }
    let word = number::get_le64(&s[2..]);
    if word / 65536 % 1099511627776 != mark / 256 {
        return None;
    }
    if 1 < s[3] {
        return None;
    }
    let size = sheet::dimensions(&s[9..]);
    if codes::all_short(size) {
        return Some(Head {
            code: 0x30 + s[3],
            form: Form::Narrow,
        });
    }
    Some(Head {
        code: 0x32 + s[3],
        form: Form::Wide,
    })
}

// The record s by its kind, in a sheet of the version.
fn head_of(s: &[u8], n: usize, version: u8, mark: u64, position: Option<Point>) -> Option<Head>
    requires { (n ≡ be16 s.now) × (framed s.now ≡ true) }
    ensures { HeadTold result version s.now mark position }
{
    let kind = s[2];
    if kind == 1 {
        return leg_head(s, n, mark, position);
    }
    if kind == 2 {
        return station_head(s, n);
    }
    if kind != 3 {
        return None;
    }
    if version != SHEET_VERSION {
        return None;
    }
    section_head(s, n, mark)
}

// Where the label of a record starts.
pub fn label_at(form: Form) -> usize
    ensures { result ≡ label_at form }
{
    match form {
        Form::Leg => 34,
        Form::Station => 16,
        Form::Narrow => 25,
        Form::Wide => 25,
    }
}

// The record s of so many bytes by what is known of its head, where the previous label is
// `last`.
fn with_label(s: &[u8], size: usize, found: Head, last: &[u8]) -> Option<Item>
    requires { (size ≤ length s.now) × (label_at found.form ≤ size) }
    ensures { Labelled result found s.now size last.now }
{
    let Head { code, form } = found;
    let name = &s[label_at(form)..size];
    let kept = wire::common_start(last, name);
    if !part::one_byte(last.len() - kept, name.len() - kept) {
        return None;
    }
    Some(Item {
        size,
        kept,
        code,
        form,
    })
}

// The record at the front of s, in a sheet of the version, where the state has this mark,
// position and label `last`.
pub fn find(s: &[u8], version: u8, mark: u64, position: Option<Point>, last: &[u8]) -> Option<Item>
    ensures { Found result version s.now mark position last.now }
{
    if !sheet::is_framed(s) {
        return None;
    }
    let n = sheet::size_of(number::get_be16(s));
    let found = head_of(s, n, version, mark, position)?;
    with_label(s, 2 + n, found, last)
}

// The leg or the station of the record s, whose body has n bytes; of stations those whose
// flags v7 has too.
fn placed_head(s: &[u8], n: usize, mark: u64, position: Option<Point>) -> Option<Head>
    requires { (n ≡ be16 s.now) × (framed s.now ≡ true) }
    ensures { PlacedTold result s.now mark position }
{
    let kind = s[2];
    if kind == 1 {
        return leg_head(s, n, mark, position);
    }
    if kind != 2 {
        return None;
    }
    if n < 2 {
        return None;
    }
    if 0x1f < s[3] {
        return None;
    }
    station_head(s, n)
}

// The leg or the station at the front of s, in a sheet of any version, for v7.
pub fn find_placed(s: &[u8], mark: u64, position: Option<Point>, last: &[u8]) -> Option<Item>
    ensures { FoundPlaced result s.now mark position last.now }
{
    if !sheet::is_framed(s) {
        return None;
    }
    let n = sheet::size_of(number::get_be16(s));
    let found = placed_head(s, n, mark, position)?;
    with_label(s, 2 + n, found, last)
}

// ---- the codes

// The place at the front of s, over the front of out.
fn put_place(s: &[u8], out: &mut [u8])
    requires { (12 ≤ length s.now) × (12 ≤ length out.old) }
    ensures { out.new ≡ over (point_bytes to_le32 (point_of be32 s.now)) out.old }
{
    let p = sheet::point(s);
    number::put_le32(out, p.x);
    number::put_le32(&mut out[4..], p.y);
    number::put_le32(&mut out[8..], p.z);
}

// Two numbers of 16 bits as one of 32.
fn pair(a: u32, b: u32) -> u32
    ensures { to_le32 result ≡ to_le16 a ++ to_le16 b }
{
    a % 65536 + b % 65536 * 65536
}

// The dimensions at the front of s as i16, over the front of out.
fn put_narrow(s: &[u8], out: &mut [u8])
    requires { (16 ≤ length s.now) × (8 ≤ length out.old) }
    ensures { out.new ≡ over (dimension_bytes to_le16 (dimensions_of 4 be32 s.now)) out.old }
{
    let d = sheet::dimensions(s);
    let first = pair(d.left, d.right);
    let second = pair(d.up, d.down);
    number::put_le32(out, first);
    number::put_le32(&mut out[4..], second);
}

// The same as i32.
fn put_wide(s: &[u8], out: &mut [u8])
    requires { (16 ≤ length s.now) × (16 ≤ length out.old) }
    ensures { out.new ≡ over (dimension_bytes to_le32 (dimensions_of 4 be32 s.now)) out.old }
{
    let d = sheet::dimensions(s);
    number::put_le32(out, d.left);
    number::put_le32(&mut out[4..], d.right);
    number::put_le32(&mut out[8..], d.up);
    number::put_le32(&mut out[12..], d.down);
}

// How many bytes end the codes.
fn tail_size(form: Form) -> usize
    ensures { result ≡ tail_size form }
{
    match form {
        Form::Leg => 12,
        Form::Station => 12,
        Form::Narrow => 8,
        Form::Wide => 16,
    }
}

// Where the place of a leg or a station stands that ends its codes.
fn place_at(form: Form) -> usize
    ensures { result ≡ place_at form }
{
    match form {
        Form::Leg => 22,
        Form::Station => 4,
        Form::Narrow => 0,
        Form::Wide => 0,
    }
}

// What ends the codes of the record s, over the front of out.
fn put_tail(form: Form, s: &[u8], out: &mut [u8])
    requires { (label_at form ≤ length s.now) × (tail_size form ≤ length out.old) }
    ensures { out.new ≡ over (tail_of form s.now) out.old }
{
    match form {
        Form::Leg => put_place(&s[22..], out),
        Form::Station => put_place(&s[4..], out),
        Form::Narrow => put_narrow(&s[9..], out),
        Form::Wide => put_wide(&s[9..], out),
    }
}

// Two bytes over the front of out.
fn put_two(out: &mut [u8], code: u8, part: u8)
    requires { 2 ≤ length out.old }
    ensures { out.new ≡ over (code ∷ part ∷ []) out.old }
{
    out[0] = code;
    out[1] = part;
}

// A code, a label part, the bytes that are added to the label and what ends the codes of
// the record s, over the front of out.
fn put_all(out: &mut [u8], code: u8, part: u8, added: &[u8], form: Form, s: &[u8])
    requires { (2 + length added.now + tail_size form ≤ length out.old) × (length added.now ≤ 15) × (label_at form ≤ length s.now) }
    ensures { out.new ≡ over (code ∷ part ∷ (added.now ++ tail_of form s.now)) out.old }
{
    let end = 2 + added.len();
    put_two(out, code, part);
    wire::copy_short(added, &mut out[2..]);
    put_tail(form, s, &mut out[end..]);
}

// The codes of the record s that goes on behind a label of so many bytes, written over the
// front of out where they fit; answers their length.
pub fn put(out: &mut [u8], item: Item, long: usize, s: &[u8]) -> usize
    requires { Fitting item long s.now }
    ensures { Puts out.old out.new (plain_codes item long s.now) 33 result }
{
    let form = item.form;
    let from = label_at(form) + item.kept;
    let end = item.size;
    let drop = long - item.kept;
    let added = &s[from..end];
    let n = 2 + added.len() + tail_size(form);
    if out.len() < n {
        return n;
    }
    let part = (16 * drop + added.len()) as u8;
    put_all(out, item.code, part, added, form, s);
    n
}

// The same for a leg or a station in v7, whose code has no label part but the number of
// bytes that are added behind it.
pub fn put_placed(out: &mut [u8], code: u8, added: &[u8], form: Form, s: &[u8]) -> usize
    requires { Placed form × (length added.now ≤ 15) × (label_at form ≤ length s.now) }
    ensures { Puts out.old out.new (code ∷ length added.now ∷ (added.now ++ tail_of form s.now)) 33 result }
{
    let end = 2 + added.len();
    let n = end + 12;
    if out.len() < n {
        return n;
    }
    put_two(out, code, added.len() as u8);
    wire::copy_short(added, &mut out[2..]);
    put_place(&s[place_at(form)..], &mut out[end..]);
    n
}

// The position that the record s leaves.
pub fn position_after(form: Form, s: &[u8], old: Option<Point>) -> Option<Point>
    requires { label_at form ≤ length s.now }
    ensures { result ≡ position_after form s.now old }
{
    match form {
        Form::Leg => {
            let point = sheet::point(&s[22..]);
            Some(point)
        }
        Form::Station => old,
        Form::Narrow => old,
        Form::Wide => old,
    }
}
