// The sheet read back: its front, and the record at the front of the bytes that
// follow one another behind it. Labels and texts stay where they stand.
#![tactic(auto)]

ghost use Rattle.std.specs.Prelude.{◌≡◌, ℕ, ◌+◌, ◌≤◌, length, drop};
ghost use Rattle.format.specs.Bytes.{be32};
ghost use Rattle.format.specs.Header.{ends_in_return};
ghost use Rattle.format.specs.Items.{point_of, dimensions_of, traverse_of};
ghost use Rattle.format.specs.Sheet.{label_fits, good_date, date_from, leg_entry, station_entry, section_entry, undated_section_entry, section_in, error_entry, framed, good_text, version_of};
ghost use Rattle.sheet.specs.Seen.{leg_of, Told, EntryTold, HeaderTold, FrontTold};

use format::{LABEL_LIMIT, SHEET_VERSION, TIME_LIMIT, TITLE_LIMIT, UNDATED_VERSION};

// A well-formed record at the front: its size with the length bytes, its fields, and
// where its label starts (it runs to the record's end).
#[derive(Clone, Copy)]
pub struct Entry {
    pub size: usize,
    pub fields: format::Fields,
    pub from: usize,
}

// A sheet's good version byte and header record: what the header says, with the lengths
// of the title, which starts at 7, and of the time line behind it.
#[derive(Clone, Copy)]
pub struct Front {
    pub extended: u8,
    pub title: usize,
    pub time: usize,
}

// A number of two bytes as a length.
pub fn size_of(n: u32) -> usize
    ensures { result ≡ n }
{
    n as usize
}

// A number of two bytes as a day.
pub fn day_of(n: u32) -> u16
    requires { n ≤ 65535 }
    ensures { result ≡ n }
{
    n as u16
}

// The place at the front of s.
pub fn point(s: &[u8]) -> format::Point
    requires { 12 ≤ length s.now }
    ensures { result ≡ point_of be32 s.now }
{
    format::Point {
        x: number::get_be32(s),
        y: number::get_be32(&s[4..]),
        z: number::get_be32(&s[8..]),
    }
}

// The dimensions at the front of s.
pub fn dimensions(s: &[u8]) -> format::Dimensions
    requires { 16 ≤ length s.now }
    ensures { result ≡ dimensions_of 4 be32 s.now }
{
    format::Dimensions {
        left: number::get_be32(s),
        right: number::get_be32(&s[4..]),
        up: number::get_be32(&s[8..]),
        down: number::get_be32(&s[12..]),
    }
}

// The traverse error at the front of s.
fn traverse(s: &[u8]) -> format::Traverse
    requires { 20 ≤ length s.now }
    ensures { result ≡ traverse_of be32 s.now }
{
    format::Traverse {
        legs: number::get_be32(s),
        total: number::get_be32(&s[4..]),
        e: number::get_be32(&s[8..]),
        h: number::get_be32(&s[12..]),
        v: number::get_be32(&s[16..]),
    }
}

// Whether a body of n bytes has a label of at most 4,096 from its byte k on.
pub fn label_fits(n: usize, k: usize) -> bool
    requires { k ≤ 32 }
    ensures { result ≡ label_fits n k }
{
    k <= n && n <= k + LABEL_LIMIT
}

// Whether the days are those of a date of this kind: unused days are 0, and a range
// has its first day before its last.
#[tactic(auto, unfolding(format::specs::Sheet::good_date, format::specs::Bytes::pick))]
pub fn good_date(kind: u8, first: u16, last: u16) -> bool
    ensures { result ≡ good_date kind first last }
{
    if kind == 0 {
        return first == 0 && last == 0;
    }
    if kind == 1 {
        return last == 0;
    }
    kind == 2 && first < last
}

// The date of this kind and these days.
#[tactic(auto, unfolding(format::specs::Sheet::date_from, format::specs::Bytes::pick))]
fn date_from(kind: u8, first: u16, last: u16) -> format::Dated
    ensures { result ≡ date_from kind first last }
{
    if kind == 0 {
        return format::Dated::Undated;
    }
    if kind == 1 {
        return format::Dated::Day { day: first };
    }
    format::Dated::Range { first, last }
}

// The leg of a record s whose flags, style and date are good.
fn leg(s: &[u8], date: format::Dated) -> format::Fields
    requires { 34 ≤ length s.now }
    ensures { result ≡ leg_of s.now date }
{
    format::Fields::Leg {
        flags: s[3],
        style: s[4],
        date,
        from: point(&s[10..]),
        to: point(&s[22..]),
    }
}

// The leg of the record s, whose body has n bytes.
fn leg_entry(s: &[u8], n: usize) -> Option<Entry>
    requires { 2 + n ≤ length s.now }
    ensures { Told result s.now (leg_entry n (drop 2 s.now)) }
{
    if !label_fits(n, 32) {
        return None;
    }
    if 0x07 < s[3] {
        return None;
    }
    if 5 < s[4] {
        return None;
    }
    let first = day_of(number::get_be16(&s[6..]));
    let last = day_of(number::get_be16(&s[8..]));
    if !good_date(s[5], first, last) {
        return None;
    }
    let date = date_from(s[5], first, last);
    Some(Entry {
        size: 2 + n,
        fields: leg(s, date),
        from: 34,
    })
}

// The station of the record s, whose body has n bytes.
fn station_entry(s: &[u8], n: usize) -> Option<Entry>
    requires { 2 + n ≤ length s.now }
    ensures { Told result s.now (station_entry n (drop 2 s.now)) }
{
    if !label_fits(n, 14) {
        return None;
    }
    let flags = s[3];
    if 0x7f < flags {
        return None;
    }
    let place = point(&s[4..]);
    let station = format::Station { flags, place };
    Some(Entry {
        size: 2 + n,
        fields: format::Fields::Station { station },
        from: 16,
    })
}

// The cross-section of the record s of a version 2 sheet, whose body has n bytes.
fn dated_entry(s: &[u8], n: usize) -> Option<Entry>
    requires { 2 + n ≤ length s.now }
    ensures { Told result s.now (section_entry n (drop 2 s.now)) }
{
    if !label_fits(n, 23) {
        return None;
    }
    let last = s[3];
    if 1 < last {
        return None;
    }
    let day = day_of(number::get_be16(&s[5..]));
    let end = day_of(number::get_be16(&s[7..]));
    if !good_date(s[4], day, end) {
        return None;
    }
    let date = date_from(s[4], day, end);
    let size = dimensions(&s[9..]);
    Some(Entry {
        size: 2 + n,
        fields: format::Fields::Section {
            last,
            unused: 0,
            date,
            size,
        },
        from: 25,
    })
}

// The same of a version 1 sheet, where it has no date.
fn undated_entry(s: &[u8], n: usize) -> Option<Entry>
    requires { 2 + n ≤ length s.now }
    ensures { Told result s.now (undated_section_entry n (drop 2 s.now)) }
{
    if !label_fits(n, 18) {
        return None;
    }
    let last = s[3];
    if 1 < last {
        return None;
    }
    let size = dimensions(&s[4..]);
    let date = format::Dated::Undated;
    Some(Entry {
        size: 2 + n,
        fields: format::Fields::Section {
            last,
            unused: 0,
            date,
            size,
        },
        from: 20,
    })
}

// The cross-section of the record s, by the sheet's version.
fn section_entry(s: &[u8], n: usize, version: u8) -> Option<Entry>
    requires { 2 + n ≤ length s.now }
    ensures { Told result s.now (section_in version n (drop 2 s.now)) }
{
    if version == UNDATED_VERSION {
        return undated_entry(s, n);
    }
    dated_entry(s, n)
}

// The traverse error of the record s, whose body has n bytes. It has no label.
fn error_entry(s: &[u8], n: usize) -> Option<Entry>
    requires { 2 + n ≤ length s.now }
    ensures { Told result s.now (error_entry n (drop 2 s.now)) }
{
    if n != 21 {
        return None;
    }
    let traverse = traverse(&s[3..]);
    Some(Entry {
        size: 2 + n,
        fields: format::Fields::Error { traverse },
        from: 2 + n,
    })
}

// Whether length bytes and that many bytes more are at the front of s, and at least
// a kind among them.
#[tactic(auto, unfolding(format::specs::Sheet::framed))]
pub fn is_framed(s: &[u8]) -> bool
    ensures { result ≡ framed s.now }
{
    if s.len() < 3 {
        return false;
    }
    let n = size_of(number::get_be16(s));
    1 <= n && 2 + n <= s.len()
}

// The record at the front of s, in a sheet of the version.
#[tactic(auto, unfolding(format::specs::Sheet::framed))]
pub fn read_entry(s: &[u8], version: u8) -> Option<Entry>
    ensures { EntryTold result version s.now }
{
    if !is_framed(s) {
        return None;
    }
    let n = size_of(number::get_be16(s));
    let kind = s[2];
    if kind == 1 {
        return leg_entry(s, n);
    }
    if kind == 2 {
        return station_entry(s, n);
    }
    if kind == 3 {
        return section_entry(s, n, version);
    }
    if kind == 4 {
        return error_entry(s, n);
    }
    None
}

// Whether a text's last byte is a carriage return.
#[tactic(auto, unfolding(format::specs::Header::ends_in_return))]
fn ends_in_return(l: &[u8]) -> bool
    ensures { result ≡ ends_in_return l.now }
{
    if l.len() == 0 {
        return false;
    }
    l[l.len() - 1] == 13
}

// Whether a title or a time line keeps the header's rules.
#[tactic(auto, unfolding(format::specs::Sheet::good_text))]
fn text_ok(l: &[u8], limit: usize) -> bool
    ensures { result ≡ good_text limit l.now }
{
    if wire::line_end(l) != l.len() {
        return false;
    }
    if limit < l.len() {
        return false;
    }
    !ends_in_return(l)
}

// The header record of the n bytes at the front of t.
fn header(t: &[u8], n: usize) -> Option<Front>
    requires { (4 ≤ n) × (n ≤ length t.now) }
    ensures { HeaderTold result n t.now }
{
    if t[0] != 0 {
        return None;
    }
    let extended = t[1];
    if 1 < extended {
        return None;
    }
    let title = size_of(number::get_be16(&t[2..]));
    let behind = 4 + title;
    if n < behind {
        return None;
    }
    if !text_ok(&t[4..behind], TITLE_LIMIT) {
        return None;
    }
    if !text_ok(&t[behind..n], TIME_LIMIT) {
        return None;
    }
    Some(Front {
        extended,
        title,
        time: n - behind,
    })
}

// The version by whose layout a sheet is judged: 1 where its first byte says so, else 2.
#[tactic(auto, unfolding(format::specs::Sheet::version_of, format::specs::Bytes::pick))]
pub fn version_of(sheet: &[u8]) -> u8
    ensures { result ≡ version_of sheet.now }
{
    if sheet.len() == 0 {
        return SHEET_VERSION;
    }
    if sheet[0] == UNDATED_VERSION {
        return UNDATED_VERSION;
    }
    SHEET_VERSION
}

// The version byte and the header record of a sheet that is to be of the version.
#[tactic(auto, unfolding(format::specs::Sheet::framed))]
pub fn read_front(sheet: &[u8], version: u8) -> Option<Front>
    ensures { FrontTold result version sheet.now }
{
    if sheet.len() == 0 {
        return None;
    }
    if sheet[0] != version {
        return None;
    }
    let s = &sheet[1..];
    if !is_framed(s) {
        return None;
    }
    let n = size_of(number::get_be16(s));
    if n < 4 {
        return None;
    }
    header(&sheet[3..], n)
}
