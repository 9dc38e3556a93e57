// What strict reading adds to reading, request #108: each station and cross-section is judged
// by an index of names in lent room.
// A label's bytes and its length stand apart: C lends the bytes and has the length in its stand.
#![tactic(auto)]

ghost use Rattle.std.specs.Prelude.{◌≡◌, ◌≤◌, ◌<◌, length, take};
ghost use Rattle.format.specs.Fields.{record_of, state_of};
ghost use Rattle.format.specs.Reading.{next};
ghost use Rattle.item.specs.Seen.{Tells};
ghost use Rattle.format.specs.Label.{label_limit};
ghost use Rattle.table.specs.Told.{Holds};
ghost use Rattle.strict.specs.Indexed.{JudgesIn, JudgesStation, JudgesSection};

use format::{Fault, Fields, LABEL_LIMIT, Point, Setting};
use item::{Step, station_at};
use short::{Short, short_item};
use table::Index;

// A station: 19 where its name came earlier with another place, 22 where the name is new
// and there is no room for it; else the index after it.
fn judge_station(room: &mut [u8], index: Index, name: &[u8], place: Point) -> Result<Index, Fault>
    requires { Holds room.old index × (length name.now ≤ label_limit) × (index.count < 16777215) }
    ensures { JudgesStation result room.old room.new index name.now place }
{
    table::take(room, index, name, place)
}

// A cross-section: 18 where no earlier station has its name.
fn judge_section(room: &[u8], index: Index, name: &[u8]) -> Result<Index, Fault>
    requires { Holds room.now index }
    ensures { JudgesSection result room.now index name.now }
{
    match table::find(room, index, name) {
        Ok(_) => Ok(index),
        Err(_) => Err(Fault::UnknownStation),
    }
}

// The index after a record, whose label is in the first len bytes of a buffer.
pub fn judge(
    room: &mut [u8],
    index: Index,
    fields: Fields,
    bytes: &[u8; LABEL_LIMIT],
    len: usize,
) -> Result<Index, Fault>
    requires { Holds room.old index × (len ≤ label_limit) × (length bytes.now ≡ label_limit) × (index.count < 16777215) }
    ensures { JudgesIn result room.old room.new index (record_of fields (take len bytes.now)) }
{
    let whole = &bytes[..];
    let name = &whole[..len];
    match fields {
        Fields::Leg {
            flags: _,
            style: _,
            date: _,
            from: _,
            to: _,
        } => Ok(index),
        Fields::Station { station } => judge_station(room, index, name, station.place),
        Fields::Section {
            last: _,
            unused: _,
            date: _,
            size: _,
        } => judge_section(room, index, name),
        Fields::Error { traverse: _ } => Ok(index),
    }
}

// What the item at the front of s comes to, in the state of a setting and a label: a short
// LABEL by an arm of its own, since most names come so.
pub fn take_next(
    version: u8,
    s: &[u8],
    bytes: &mut [u8; LABEL_LIMIT],
    len: usize,
    setting: Setting,
) -> Result<Step, Fault>
    requires { (len ≤ label_limit) × (length bytes.old ≡ label_limit) }
    ensures { Tells result bytes.new (next version s.now (state_of setting (take len bytes.old))) }
{
    let Some(Short::Place { keep, add, flags }) = short_item(version, s, len) else {
        return item::take_item(version, s, bytes, len, setting);
    };
    let station = station_at(s, 2 + add, flags);
    label::extend(bytes, keep, &s[2..]);
    Ok(Step::Made {
        size: 14 + add,
        len: keep + add,
        setting,
        fields: Fields::Station { station },
        kept: keep,
    })
}
