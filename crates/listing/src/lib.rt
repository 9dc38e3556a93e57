// The lines that the lister prints. Text is put from an index on, byte by byte, as far as
// the buffer reaches; a line is measured so with no room, and put where it fits. The
// bounds on an index, each a little lower than its callee's, keep sums from wrapping.
#![tactic(auto)]

ghost use Rattle.format.specs.Answers.{verdict_of};
ghost use Rattle.format.specs.Refusals.{Good};
ghost use Rattle.std.specs.Prelude.{◌≡◌, [], ◌∷◌, ◌++◌, ℕ, ◌+◌, ◌*◌, ◌^◌, ◌≤◌, ◌<◌, length, drop};
ghost use Rattle.listing.specs.Text.{decimal_text, signed_text, hex_digit, plain, escaped_byte, escaped, text_of, spaced};
ghost use Rattle.listing.specs.Lines.{leg_word, version_word, title_word, date_text, point_words, dimension_words, traverse_words, leg_line, station_line, section_line, error_line, record_line, header_line, end_line, refusal_line, too_long_line, rest_of, listing_of, sheet_listing, listing_limit};
ghost use Rattle.listing.specs.Puts.{Put, Wrote, line_limit};
ghost use Rattle.listing.specs.Printed.{printed_text, printed_limit};
ghost use Rattle.format.specs.Fields.{record_of};
ghost use Rattle.format.specs.Sheet.{records_of, front_header, sheet_result};
ghost use Rattle.format.specs.Label.{label_limit};
ghost use Rattle.format.specs.Header.{title_limit, time_limit};

use format::{Dated, Dimensions, Fault, Fields, Leg, Point, Refusal, Section, Station, Traverse};
use number::index;
use sheet::{read_entry, read_front, version_of};
use wire::same_bytes;

// A sheet of so many bytes or more is not listed: its lines might not be counted.
const LISTING_LIMIT: usize = 36028797018963968;

// What is to be printed: that the input is too long; a refusal; or a sheet, read from a
// file of that version.
#[derive(Clone, Copy)]
pub enum Printed {
    TooLong,
    Refused { refusal: Refusal },
    Sheet { version: u8 },
}

// Puts a byte at an index.
fn put(out: &mut [u8], at: usize, b: u8) -> usize
    requires { at < 2 ^ 63 }
    ensures { Put 1 (b ∷ []) out.old at result out.new }
{
    if out.len() <= at {
        return at + 1;
    }
    out[at] = b;
    at + 1
}

// Puts text as it stands.
fn word(out: &mut [u8], at: usize, s: &[u8]) -> usize
    requires { (at < 2 ^ 62) × (length s.now ≤ 64) }
    ensures { Put 64 s.now out.old at result out.new }
{
    let mut k = at;
    for b in s {
        k = put(out, k, *b);
    }
    k
}

// Puts the digits of a number, the highest first.
fn decimal(out: &mut [u8], at: usize, n: usize) -> usize
    requires { at < 2 ^ 62 }
    ensures { Put 20 (decimal_text n) out.old at result out.new }
{
    if n < 10 {
        return put(out, at, (48 + n) as u8);
    }
    let k = decimal(out, at, n / 10);
    put(out, k, (48 + n % 10) as u8)
}

// Puts the i32 whose bit pattern n is.
fn signed(out: &mut [u8], at: usize, n: u32) -> usize
    requires { at < 2 ^ 61 }
    ensures { Put 21 (signed_text n) out.old at result out.new }
{
    let size = n as usize;
    if size < 2147483648 {
        return decimal(out, at, size);
    }
    let k = put(out, at, b'-');
    decimal(out, k, 4294967296 - size)
}

// A lower hex digit.
fn hex(n: u8) -> u8
    requires { n < 16 }
    ensures { result ≡ hex_digit n }
{
    if n < 10 {
        return 48 + n;
    }
    87 + n
}

// Whether a byte of text prints as itself.
fn is_plain(b: u8) -> bool
    ensures { result ≡ plain b }
{
    if b < 33 {
        return false;
    }
    if 126 < b {
        return false;
    }
    b != b'%'
}

// Puts a byte of text.
fn text_byte(out: &mut [u8], at: usize, b: u8) -> usize
    requires { at < 2 ^ 62 }
    ensures { Put 3 (escaped_byte b) out.old at result out.new }
{
    if is_plain(b) {
        return put(out, at, b);
    }
    let k = put(out, at, b'%');
    let k = put(out, k, hex(b / 16));
    put(out, k, hex(b % 16))
}

// Puts the bytes of text.
fn escape(out: &mut [u8], at: usize, s: &[u8]) -> usize
    requires { (at < 2 ^ 61) × (length s.now ≤ label_limit) }
    ensures { Put (3 * length s.now) (escaped s.now) out.old at result out.new }
{
    let mut k = at;
    for b in s {
        k = text_byte(out, k, *b);
    }
    k
}

// Puts text; empty text is `-`.
fn text(out: &mut [u8], at: usize, s: &[u8]) -> usize
    requires { (at < 2 ^ 61) × (length s.now ≤ label_limit) }
    ensures { Put (64 + 3 * length s.now) (text_of s.now) out.old at result out.new }
{
    if s.len() == 0 {
        return put(out, at, b'-');
    }
    if same_bytes(s, b"-") {
        return word(out, at, b"%2d");
    }
    escape(out, at, s)
}

// Puts a space and a number.
fn number(out: &mut [u8], at: usize, n: usize) -> usize
    requires { at < 2 ^ 61 }
    ensures { Put 21 (32 ∷ decimal_text n) out.old at result out.new }
{
    let k = put(out, at, b' ');
    decimal(out, k, n)
}

// Puts a space and an i32.
fn signed_number(out: &mut [u8], at: usize, n: u32) -> usize
    requires { at < 2 ^ 60 }
    ensures { Put 22 (32 ∷ signed_text n) out.old at result out.new }
{
    let k = put(out, at, b' ');
    signed(out, k, n)
}

// Puts a space and text.
fn name(out: &mut [u8], at: usize, s: &[u8]) -> usize
    requires { (at < 2 ^ 60) × (length s.now ≤ label_limit) }
    ensures { Put (65 + 3 * length s.now) (32 ∷ text_of s.now) out.old at result out.new }
{
    let k = put(out, at, b' ');
    text(out, k, s)
}

// Puts a space and a date.
fn date(out: &mut [u8], at: usize, d: Dated) -> usize
    requires { at < 2 ^ 60 }
    ensures { Put 64 (32 ∷ date_text d) out.old at result out.new }
{
    match d {
        Dated::Undated => word(out, at, b" none"),
        Dated::Day { day } => number(out, at, day as usize),
        Dated::Range { first, last } => {
            let k = number(out, at, first as usize);
            let k = put(out, k, b'-');
            decimal(out, k, last as usize)
        }
    }
}

// Puts a place, a space before each number.
fn point(out: &mut [u8], at: usize, p: Point) -> usize
    requires { at < 2 ^ 59 }
    ensures { Put 66 (spaced (point_words p)) out.old at result out.new }
{
    let k = signed_number(out, at, p.x);
    let k = signed_number(out, k, p.y);
    signed_number(out, k, p.z)
}

// Puts a passage's size, a space before each number.
fn dimensions(out: &mut [u8], at: usize, d: Dimensions) -> usize
    requires { at < 2 ^ 59 }
    ensures { Put 88 (spaced (dimension_words d)) out.old at result out.new }
{
    let k = signed_number(out, at, d.left);
    let k = signed_number(out, k, d.right);
    let k = signed_number(out, k, d.up);
    signed_number(out, k, d.down)
}

// Puts a traverse's error, a space before each number.
fn traverse(out: &mut [u8], at: usize, t: Traverse) -> usize
    requires { at < 2 ^ 59 }
    ensures { Put 110 (spaced (traverse_words t)) out.old at result out.new }
{
    let k = signed_number(out, at, t.legs);
    let k = signed_number(out, k, t.total);
    let k = signed_number(out, k, t.e);
    let k = signed_number(out, k, t.h);
    signed_number(out, k, t.v)
}

// Puts a space, text and a linefeed.
fn last_name(out: &mut [u8], at: usize, s: &[u8]) -> usize
    requires { (at < 2 ^ 59) × (length s.now ≤ label_limit) }
    ensures { Put 12354 (32 ∷ (text_of s.now ++ 10 ∷ [])) out.old at result out.new }
{
    let k = name(out, at, s);
    put(out, k, b'\n')
}

// Puts a space, a number and a linefeed.
fn last_number(out: &mut [u8], at: usize, n: usize) -> usize
    requires { at < 2 ^ 59 }
    ensures { Put 22 (32 ∷ (decimal_text n ++ 10 ∷ [])) out.old at result out.new }
{
    let k = number(out, at, n);
    put(out, k, b'\n')
}

// Puts a leg's line up to its date.
fn leg_front(out: &mut [u8], at: usize, flags: u8, style: u8, day: Dated) -> usize
    requires { at < 2 ^ 59 }
    ensures { Put 170 (leg_word ++ spaced (decimal_text flags ∷ decimal_text style ∷ date_text day ∷ [])) out.old at result out.new }
{
    let k = word(out, at, b"leg");
    let k = number(out, k, index(flags));
    let k = number(out, k, index(style));
    date(out, k, day)
}

// Puts a leg's line.
fn leg_line(out: &mut [u8], at: usize, leg: Leg, label: &[u8]) -> usize
    requires { (at < 2 ^ 58) × (length label.now ≤ label_limit) }
    ensures { Put line_limit (leg_line leg label.now) out.old at result out.new }
{
    let day = leg.date;
    let k = leg_front(out, at, leg.flags, leg.style, day);
    let k = point(out, k, leg.from);
    let k = point(out, k, leg.to);
    last_name(out, k, label)
}

// Puts a station's line.
fn station_line(out: &mut [u8], at: usize, station: Station, label: &[u8]) -> usize
    requires { (at < 2 ^ 58) × (length label.now ≤ label_limit) }
    ensures { Put line_limit (station_line station label.now) out.old at result out.new }
{
    let k = word(out, at, b"station");
    let k = number(out, k, index(station.flags));
    let k = point(out, k, station.place);
    last_name(out, k, label)
}

// Puts a cross-section's line.
fn section_line(out: &mut [u8], at: usize, section: Section, label: &[u8]) -> usize
    requires { (at < 2 ^ 58) × (length label.now ≤ label_limit) }
    ensures { Put line_limit (section_line section label.now) out.old at result out.new }
{
    let day = section.date;
    let k = word(out, at, b"xsect");
    let k = number(out, k, index(section.last));
    let k = date(out, k, day);
    let k = dimensions(out, k, section.size);
    last_name(out, k, label)
}

// Puts a traverse error's line.
fn error_line(out: &mut [u8], at: usize, t: Traverse) -> usize
    requires { at < 2 ^ 58 }
    ensures { Put line_limit (error_line t) out.old at result out.new }
{
    let k = word(out, at, b"error");
    let k = traverse(out, k, t);
    put(out, k, b'\n')
}

// Puts a record's line.
fn record_line(out: &mut [u8], at: usize, fields: Fields, label: &[u8]) -> usize
    requires { (at < 2 ^ 58) × (length label.now ≤ label_limit) }
    ensures { Put line_limit (record_line (record_of fields label.now)) out.old at result out.new }
{
    match fields {
        Fields::Leg {
            flags,
            style,
            date: day,
            from,
            to,
        } => {
            let leg = Leg {
                flags,
                style,
                date: day,
                from,
                to,
            };
            leg_line(out, at, leg, label)
        }
        Fields::Station { station } => station_line(out, at, station, label),
        Fields::Section {
            last,
            unused: _,
            date: day,
            size,
        } => {
            let section = Section {
                last,
                date: day,
                size,
            };
            section_line(out, at, section, label)
        }
        Fields::Error { traverse: t } => error_line(out, at, t),
    }
}

// Puts the header's line up to its time.
fn header_front(out: &mut [u8], at: usize, version: u8, title: &[u8]) -> usize
    requires { (at < 2 ^ 59) × (length title.now ≤ title_limit) }
    ensures { Put 12502 (version_word ++ spaced (decimal_text version ∷ title_word ∷ text_of title.now ∷ [])) out.old at result out.new }
{
    let k = word(out, at, b"version");
    let k = number(out, k, index(version));
    let k = word(out, k, b" title");
    name(out, k, title)
}

// Puts the header's line.
fn header_line(
    out: &mut [u8],
    at: usize,
    version: u8,
    extended: u8,
    title: &[u8],
    time: &[u8],
) -> usize
    requires { (at < 2 ^ 58) × (length title.now ≤ title_limit) × (length time.now ≤ time_limit) }
    ensures { Put line_limit (header_line version (record { extended = extended; title = title.now; time = time.now })) out.old at result out.new }
{
    let k = header_front(out, at, version, title);
    let k = word(out, k, b" time");
    let k = name(out, k, time);
    let k = word(out, k, b" extended");
    last_number(out, k, index(extended))
}

// Puts the last line.
fn end_line(out: &mut [u8], at: usize, records: usize) -> usize
    requires { at < 2 ^ 58 }
    ensures { Put line_limit (end_line records) out.old at result out.new }
{
    let k = word(out, at, b"end");
    last_number(out, k, records)
}

// Puts a refusal's line.
fn refusal_line(out: &mut [u8], at: usize, refusal: Refusal) -> usize
    requires { at < 2 ^ 58 }
    ensures { Put line_limit (refusal_line refusal.number refusal.place) out.old at result out.new }
{
    let k = word(out, at, b"refused");
    let k = number(out, k, index(refusal.number));
    let k = word(out, k, b" at");
    last_number(out, k, refusal.place)
}

// Puts the lines of the records from a place of the sheet on, whose version is given, and
// the last line.
fn rest_lines(sheet: &[u8], layout: u8, from: usize, out: &mut [u8], begin: usize) -> usize
    requires { (from ≤ length sheet.now) × (length sheet.now < listing_limit) × (begin ≤ line_limit) }
    ensures { Put (4 * length sheet.now + line_limit) (rest_of 0 (records_of layout (drop from sheet.now)).records) out.old begin result out.new }
{
    let mut at = from;
    let mut k = begin;
    let mut records: usize = 0;
    // a loop, since each record has a size of its own
    loop {
        let rest = &sheet[at..];
        let Some(entry) = read_entry(rest, layout) else {
            return end_line(out, k, records);
        };
        k = record_line(out, k, entry.fields, &rest[entry.from..entry.size]);
        records += 1;
        at += entry.size;
    }
}

// What the writer says of the records from a place of the sheet on.
fn records_verdict(sheet: &[u8], layout: u8, from: usize) -> Result<(), Refusal>
    requires { from ≤ length sheet.now }
    ensures { verdict_of result ≡ (records_of layout (drop from sheet.now)).verdict }
{
    let mut at = from;
    let mut record: usize = 0;
    // a while, since each record has a size of its own
    while at != sheet.len() {
        let Some(entry) = read_entry(&sheet[at..], layout) else {
            return Err(Fault::BrokenLayout.at(record));
        };
        record += 1;
        at += entry.size;
    }
    Ok(())
}

// What the writer says of a sheet: 12 where it breaks the layout.
fn sheet_verdict(sheet: &[u8]) -> Result<(), Refusal>
    ensures { verdict_of result ≡ (sheet_result sheet.now).verdict }
{
    let layout = version_of(sheet);
    let Some(front) = read_front(sheet, layout) else {
        return Err(Fault::BrokenLayout.at(0));
    };
    records_verdict(sheet, layout, 7 + front.title + front.time)
}

// Puts the lines of a sheet that keeps the layout.
fn sheet_lines(sheet: &[u8], version: u8, out: &mut [u8]) -> usize
    requires { (length sheet.now < listing_limit) × ((sheet_result sheet.now).verdict ≡ Good) }
    ensures { Put (4 * length sheet.now + 2 * line_limit) (listing_of version (front_header sheet.now) (sheet_result sheet.now).records) out.old 0 result out.new }
{
    let layout = version_of(sheet);
    let Some(front) = read_front(sheet, layout) else {
        return 0;
    };
    let behind = 7 + front.title;
    let from = behind + front.time;
    let title = &sheet[7..behind];
    let time = &sheet[behind..from];
    let k = header_line(out, 0, version, front.extended, title, time);
    rest_lines(sheet, layout, from, out, k)
}

// Writes the lines of a sheet that keeps the layout, read from a file of that version,
// over the front of out where they fit, and answers their length either way.
fn list_lines(sheet: &[u8], version: u8, out: &mut [u8]) -> usize
    requires { (length sheet.now < listing_limit) × ((sheet_result sheet.now).verdict ≡ Good) }
    ensures { Wrote (listing_of version (front_header sheet.now) (sheet_result sheet.now).records) out.old result out.new × (result ≤ 4 * length sheet.now + 2 * line_limit) }
{
    let size = sheet_lines(sheet, version, &mut out[0..0]);
    if out.len() < size {
        return size;
    }
    sheet_lines(sheet, version, out)
}

// Writes a refusal's line over the front of out where it fits, and answers its length
// either way. It stands alone.
fn list_refusal(out: &mut [u8], refusal: Refusal) -> usize
    ensures { Wrote (refusal_line refusal.number refusal.place) out.old result out.new × (result ≤ line_limit) }
{
    let size = refusal_line(&mut out[0..0], 0, refusal);
    if out.len() < size {
        return size;
    }
    refusal_line(out, 0, refusal)
}

// The same for an input that is too long.
fn list_too_long(out: &mut [u8]) -> usize
    ensures { Wrote too_long_line out.old result out.new × (result ≤ line_limit) }
{
    let text = b"too long\n";
    if out.len() < 9 {
        return 9;
    }
    word(out, 0, text)
}

// The same for a sheet, read from a file of that version.
fn list_sheet(sheet: &[u8], version: u8, out: &mut [u8]) -> usize
    ensures { Wrote (sheet_listing version sheet.now) out.old result out.new × (result ≤ 4 * length sheet.now + 2 * line_limit) }
{
    if LISTING_LIMIT <= sheet.len() {
        return list_too_long(out);
    }
    match sheet_verdict(sheet) {
        Ok(()) => list_lines(sheet, version, out),
        Err(refusal) => list_refusal(out, refusal),
    }
}

// Writes the text over the front of out where it fits, and answers its length either way.
pub fn list(printed: Printed, sheet: &[u8], out: &mut [u8]) -> usize
    ensures { Wrote (printed_text printed sheet.now) out.old result out.new × (result ≤ printed_limit printed (length sheet.now)) }
{
    match printed {
        Printed::TooLong => list_too_long(out),
        Printed::Refused { refusal } => list_refusal(out, refusal),
        Printed::Sheet { version } => list_sheet(sheet, version, out),
    }
}
