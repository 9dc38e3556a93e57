// What an item of a file does to the state. The label is lent, so nothing is copied but
// the bytes that the label gains.
// A label's bytes and its length stand apart: C lends the bytes and has the length in its stand.
#![tactic(auto)]

ghost use Rattle.std.specs.Prelude.{◌≡◌, [], ℕ, ◌+◌, ◌≤◌, ◌<◌, length, take, Ok, Some};
ghost use Rattle.format.specs.Items.{Style as style_item, Date as date_item, item_of};
ghost use Rattle.format.specs.Label.{label_limit};
ghost use Rattle.format.specs.Outline.{drop_leaves};
ghost use Rattle.format.specs.State.{date_of, apply};
ghost use Rattle.format.specs.Fields.{state_of};
ghost use Rattle.format.specs.Reading.{next};
ghost use Rattle.short.specs.Brief.{leg_at, station_at, section_at};
ghost use Rattle.item.specs.Seen.{Does, Tells, TellsKept, made_of};

use decode::{Body, Item, decode, get_point, long_dimensions, short_dimensions};
use format::{Dated, Fault, Fields, LABEL_LIMIT, Leg, Point, Section, Setting, Station};
use label::label_step;

// What an item comes to: the end; its size and the label's new length, with the setting
// after it; the same with a record, and how many bytes of the label before it were kept.
#[derive(Clone, Copy)]
pub enum Step {
    End,
    On {
        size: usize,
        len: usize,
        setting: Setting,
    },
    Made {
        size: usize,
        len: usize,
        setting: Setting,
        fields: Fields,
        kept: usize,
    },
}

// The setting with another position.
pub fn with_position(setting: Setting, place: Point) -> Setting
    ensures { result ≡ record { style = setting.style; date = setting.date; position = Some place } }
{
    Setting {
        position: Some(place),
        ..setting
    }
}

// A style; normal where it is normal already is the end.
fn style_step(style: u8, len: usize, setting: Setting) -> Step
    ensures { Does (Ok result) (λ b. apply (state_of setting (take len b)) 1 (style_item style)) len }
{
    if style == 0 && setting.style == 0 {
        return Step::End;
    }
    Step::On {
        size: 1,
        len,
        setting: Setting { style, ..setting },
    }
}

// Two days as a date: equal ones are a single day.
fn date_of(first: u32, last: u32) -> Dated
    requires { (first ≤ last) × (last ≤ 65535) }
    ensures { result ≡ date_of first last }
{
    if first == last {
        return Dated::Day { day: first as u16 };
    }
    Dated::Range {
        first: first as u16,
        last: last as u16,
    }
}

// A date; refused where the last day is before the first or over 65535.
fn date_step(
    size: usize,
    first: u32,
    last: u32,
    len: usize,
    setting: Setting,
) -> Result<Step, Fault>
    ensures { Does result (λ b. apply (state_of setting (take len b)) size (date_item first last)) len }
{
    if last < first || 65535 < last {
        return Err(Fault::BadDate);
    }
    let date = date_of(first, last);
    Ok(Step::On {
        size,
        len,
        setting: Setting { date, ..setting },
    })
}

// A leg from the position, which must be set.
fn leg_step(
    size: usize,
    len: usize,
    setting: Setting,
    flags: u8,
    place: Point,
    kept: usize,
) -> Result<Step, Fault>
    ensures { Does result (λ b. made_of (Body.Line flags place) (state_of setting []) size (take len b)) len × TellsKept result kept }
{
    let position = setting.position;
    let Some(from) = position else {
        return Err(Fault::NoPosition);
    };
    Ok(Step::Made {
        size,
        len,
        setting: with_position(setting, place),
        fields: Fields::Leg {
            flags,
            style: setting.style,
            date: setting.date,
            from,
            to: place,
        },
        kept,
    })
}

// What an item comes to once its label, of len bytes, is in the buffer.
pub fn made_step(
    size: usize,
    len: usize,
    setting: Setting,
    body: Body,
    kept: usize,
) -> Result<Step, Fault>
    ensures { Does result (λ b. made_of body (state_of setting []) size (take len b)) len × TellsKept result kept }
{
    let fields = match body {
        Body::Only => return Ok(Step::On { size, len, setting }),
        Body::Section { last, size: dims } => Fields::Section {
            last,
            unused: 0,
            date: setting.date,
            size: dims,
        },
        Body::Station { flags, place } => Fields::Station {
            station: Station { flags, place },
        },
        Body::Line { flags, place } => return leg_step(size, len, setting, flags, place, kept),
    };
    Ok(Step::Made {
        size,
        len,
        setting,
        fields,
        kept,
    })
}

// What the item at the front of s comes to, in the state of a setting and a label: its
// answer, with how many bytes of the label it kept, and the label's bytes after it.
// An item that changes the label is refused by 6 or 7 before all else.
// (Each kind returns by itself: joined into one answer, which has a place for all that any of them
// says, a date takes nearly twice as many instructions.)
pub fn take_item(
    version: u8,
    s: &[u8],
    bytes: &mut [u8; LABEL_LIMIT],
    len: usize,
    setting: Setting,
) -> Result<Step, Fault>
    requires { (len ≤ label_limit) × (length bytes.old ≡ label_limit) }
    ensures { Tells result bytes.new (next version s.now (state_of setting (take len bytes.old))) × TellsKept result (drop_leaves (take len bytes.old) (item_of version s.now)) }
{
    let it = decode(version, s)?;
    match it {
        Item::Stop => {
            if len == 0 {
                return Ok(Step::End);
            }
            return Ok(Step::On {
                size: 1,
                len: 0,
                setting,
            });
        }
        Item::Style { style } => return Ok(style_step(style, len, setting)),
        Item::Move { place } => {
            return Ok(Step::On {
                size: 13,
                len,
                setting: with_position(setting, place),
            });
        }
        Item::NoDate => {
            return Ok(Step::On {
                size: 1,
                len,
                setting: Setting {
                    date: Dated::Undated,
                    ..setting
                },
            });
        }
        Item::Date { size, first, last } => return date_step(size, first, last, len, setting),
        Item::Error { traverse } => {
            return Ok(Step::Made {
                size: 21,
                len,
                setting,
                fields: Fields::Error { traverse },
                kept: 0,
            });
        }
        Item::Relabel {
            size,
            cut,
            from,
            count,
            body,
        } => {
            let to = from + count;
            let after = label_step(bytes, len, cut, &s[from..to])?;
            made_step(size, after.len, setting, body, after.kept)
        }
    }
}

// ---- the commonest items, as the crate short finds them: what stands behind their label

// The leg of a LINE whose numbers stand from byte k on, from a place.
pub fn leg_at(s: &[u8], k: usize, flags: u8, setting: Setting, from: Point) -> Leg
    requires { k + 12 ≤ length s.now }
    ensures { result ≡ leg_at s.now k flags setting from }
{
    Leg {
        flags,
        style: setting.style,
        date: setting.date,
        from,
        to: get_point(&s[k..]),
    }
}

// The station of a LABEL, the same.
pub fn station_at(s: &[u8], k: usize, flags: u8) -> Station
    requires { k + 12 ≤ length s.now }
    ensures { result ≡ station_at s.now k flags }
{
    Station {
        flags,
        place: get_point(&s[k..]),
    }
}

// The cross-section of an XSECT, the same.
pub fn section_at(s: &[u8], k: usize, code: u8, setting: Setting) -> Section
    requires { k + 16 ≤ length s.now }
    ensures { result ≡ section_at s.now k code setting }
{
    let size = if code < 0x32 {
        short_dimensions(&s[k..])
    } else {
        long_dimensions(&s[k..])
    };
    Section {
        last: code % 2,
        date: setting.date,
        size,
    }
}
