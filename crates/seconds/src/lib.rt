// The seconds since 1970 of a time line, in either of its forms.
#![tactic(auto)]

ghost use Rattle.std.specs.Prelude.{◌≡◌, ◌-◌, ◌≤◌, ◌<◌, length, drop};
ghost use Rattle.format.specs.Times.{leap, month_length, month_days, year_days, day_number, real_date, decimal, at_form, text_marks, text_zone, text_form, text_seconds, seconds_of};
ghost use Rattle.seconds.specs.Reading.{spelled, number_from, date_of, clock_of};

// The zones of a clock that is Greenwich time all the year.
const GMT: [u8; 3] = *b"GMT";

const UTC: [u8; 3] = *b"UTC";

// The number that the digits of s spell, of at most 4294967295. It only grows
// with each digit, so the first value past that bound decides.
fn number(s: &[u8]) -> Option<u64>
    ensures { result ≡ number_from 0 s.now }
{
    let mut n: u64 = 0;
    for b in s {
        if *b < b'0' || b'9' < *b {
            return None;
        }
        n = n * 10 + u64::from(*b - b'0');
        if 4294967295 < n {
            return None;
        }
    }
    Some(n)
}

// The days that a leap year has more: from 1970 to 2099 every fourth year has one.
fn leap_day(year: u64) -> u64
    ensures { (result ≡ leap year) × (result < 2) }
{
    if year % 4 == 0 { 1 } else { 0 }
}

// The days of a year before a month, 1 to 12, or before the next January, 13; extra is the
// leap day. January has 31 days, and with February it has 59 and the leap day. From March to
// July the months have 31, 30, 31, 30 and 31 days, from August to December the same again,
// and January begins it once more: 153 days every five months. So the n-th month after March
// begins n * 153 / 5 days after it; the 2 rounds that so that a long month comes first.
fn days_before(extra: u64, month: u64) -> u64
    requires { (extra < 2) × (1 ≤ month) × (month ≤ 13) }
    ensures { result ≡ month_days extra (month - 1) }
{
    if month < 3 {
        return 31 * (month - 1);
    }
    59 + extra + (153 * (month - 3) + 2) / 5
}

// The length of a month, 1 to 12: the days before the next less those before it.
fn month_length(extra: u64, month: u64) -> u64
    requires { (extra < 2) × (1 ≤ month) × (month ≤ 12) }
    ensures { result ≡ month_length extra month }
{
    let next = days_before(extra, month + 1);
    next - days_before(extra, month)
}

// The days of the first n years from 1970 on.
fn days_of_years(n: u64) -> u64
    requires { n < 130 }
    ensures { result ≡ year_days n }
{
    365 * n + (n + 1) / 4
}

// Whether a date is real and from 1970 to 2099.
fn real_date(year: u64, month: u64, day: u64) -> bool
    ensures { result ≡ real_date year month day }
{
    if year < 1970 {
        return false;
    }
    if 2099 < year {
        return false;
    }
    if month < 1 {
        return false;
    }
    if 12 < month {
        return false;
    }
    if day < 1 {
        return false;
    }
    let extra = leap_day(year);
    day <= month_length(extra, month)
}

// The days from 1 January 1970 to a date.
fn day_number(year: u64, month: u64, day: u64) -> u64
    requires { (1970 ≤ year) × (year ≤ 2099) × (1 ≤ month) × (month ≤ 12) × (1 ≤ day) × (day ≤ 31) }
    ensures { result ≡ day_number year month day }
{
    let extra = leap_day(year);
    let years = days_of_years(year - 1970);
    let months = days_before(extra, month);
    years + (months + (day - 1))
}

// The date of a time line in the text form, as days since 1970.
fn date(line: &[u8]) -> Option<u64>
    requires { 25 ≤ length line.now }
    ensures { result ≡ date_of line.now }
{
    let year = number(&line[4..8])?;
    let month = number(&line[9..11])?;
    let day = number(&line[12..14])?;
    if !real_date(year, month, day) {
        return None;
    }
    Some(day_number(year, month, day))
}

// The clock of a time line in the text form, as seconds of its day.
fn clock(line: &[u8]) -> Option<u64>
    requires { 25 ≤ length line.now }
    ensures { result ≡ clock_of line.now }
{
    let hour = number(&line[15..17])?;
    let minute = number(&line[18..20])?;
    let second = number(&line[21..23])?;
    if 23 < hour {
        return None;
    }
    if 59 < minute {
        return None;
    }
    if 59 < second {
        return None;
    }
    Some(hour * 3600 + (minute * 60 + second))
}

// Whether the bytes between the numbers are those of the text form.
fn marks(line: &[u8]) -> bool
    requires { 25 ≤ length line.now }
    ensures { result ≡ text_marks line.now }
{
    if line[3] != 44 {
        return false;
    }
    if line[8] != 46 {
        return false;
    }
    if line[11] != 46 {
        return false;
    }
    if line[14] != 32 {
        return false;
    }
    if line[17] != 58 {
        return false;
    }
    if line[20] != 58 {
        return false;
    }
    line[23] == 32
}

// The seconds of a time line `@` and digits.
fn at_form(line: &[u8]) -> Option<u64>
    ensures { result ≡ spelled (at_form line.now) (decimal (drop 1 line.now)) }
{
    if line.len() < 2 {
        return None;
    }
    if 11 < line.len() {
        return None;
    }
    if line[0] != 64 {
        return None;
    }
    number(&line[1..])
}

// Whether the zone, all that stands behind the last space, is `GMT` or `UTC`.
fn known_zone(line: &[u8]) -> bool
    ensures { result ≡ text_zone line.now }
{
    if line.len() != 27 {
        return false;
    }
    let zone = &line[24..];
    zone == GMT.as_slice() || zone == UTC.as_slice()
}

// The seconds of a time line `Www,YYYY.MM.DD hh:mm:ss Z`.
fn text_form(line: &[u8]) -> Option<u64>
    ensures { result ≡ spelled (text_form line.now) (text_seconds line.now) }
{
    if !known_zone(line) {
        return None;
    }
    if !marks(line) {
        return None;
    }
    let days = date(line)?;
    let seconds = clock(line)?;
    Some(days * 86400 + seconds)
}

// The seconds since 1970 of a time line, in either form.
pub fn seconds_of(line: &[u8]) -> Option<u64>
    ensures { result ≡ seconds_of line.now }
{
    match at_form(line) {
        Some(seconds) => Some(seconds),
        None => text_form(line),
    }
}
