// The values that a survey is made of and the types that the library's functions
// answer with. What each case of an answer says in document 01's numbers stands in
// specs/Answers.antt.
#![tactic(auto)]

ghost use Rattle.std.specs.Prelude.{◌≡◌};
ghost use Rattle.format.specs.State.{start_setting};
ghost use Rattle.format.specs.Faults.{fault_number};

// The limits of document 01, in bytes: a label, a title and a time line without their
// linefeeds, and a file.
pub const LABEL_LIMIT: usize = 4096;

pub const TITLE_LIMIT: usize = 4096;

pub const TIME_LIMIT: usize = 64;

pub const FILE_LIMIT: usize = 16777216;

// The version byte of the sheets that reading gives, and of the older ones, whose
// cross-sections have no date.
pub const SHEET_VERSION: u8 = 2;

pub const UNDATED_VERSION: u8 = 1;

// The style that is not said.
pub const NOT_SAID: u8 = 5;

// Why something is refused, in the order of the numbers that documents 01 and 02 give.
#[derive(Clone, Copy, PartialEq, Eq)]
pub enum Fault {
    NotSurvex,
    UnknownVersion,
    BrokenHeader,
    Reserved,
    Unfinished,
    LabelTooShort,
    LabelTooLong,
    NoPosition,
    BadDate,
    BytesAfterEnd,
    BufferTooSmall,
    BrokenLayout,
    StyleUnsaid,
    NotHouseWritten,
    PastRecords,
    FileTooLong,
    TimeUnreadable,
    UnknownStation,
    StationMoved,
    TooFar,
    NoLegs,
    NoRoomForNames,
    NotInV7,
}

// A refusal by its number and place. (The number is no Fault: C hands a stand's refusal in as any
// byte, and each of them is answered again.)
#[derive(Clone, Copy, PartialEq, Eq)]
pub struct Refusal {
    pub number: u8,
    pub place: usize,
}

impl Fault {
    // The number of a refusal for this.
    pub fn number(self) -> u8
        ensures { result ≡ fault_number self }
    {
        match self {
            Fault::NotSurvex => 1,
            Fault::UnknownVersion => 2,
            Fault::BrokenHeader => 3,
            Fault::Reserved => 4,
            Fault::Unfinished => 5,
            Fault::LabelTooShort => 6,
            Fault::LabelTooLong => 7,
            Fault::NoPosition => 8,
            Fault::BadDate => 9,
            Fault::BytesAfterEnd => 10,
            Fault::BufferTooSmall => 11,
            Fault::BrokenLayout => 12,
            Fault::StyleUnsaid => 13,
            Fault::NotHouseWritten => 14,
            Fault::PastRecords => 15,
            Fault::FileTooLong => 16,
            Fault::TimeUnreadable => 17,
            Fault::UnknownStation => 18,
            Fault::StationMoved => 19,
            Fault::TooFar => 20,
            Fault::NoLegs => 21,
            Fault::NoRoomForNames => 22,
            Fault::NotInV7 => 23,
        }
    }

    // A refusal for this, with its place.
    pub fn at(self, place: usize) -> Refusal
        ensures { result ≡ record { number = fault_number self; place = place } }
    {
        Refusal {
            number: self.number(),
            place,
        }
    }
}

// A place, in centimetres. Coordinates, dimensions and traverse errors are i32,
// kept as their bit patterns: nothing here computes with them.
#[derive(Clone, Copy, PartialEq, Eq)]
pub struct Point {
    pub x: u32,
    pub y: u32,
    pub z: u32,
}

// A passage's left, right, up and down.
#[derive(Clone, Copy, PartialEq, Eq)]
pub struct Dimensions {
    pub left: u32,
    pub right: u32,
    pub up: u32,
    pub down: u32,
}

// The error of a traverse: its legs, its length, and the error with its
// horizontal and vertical parts.
#[derive(Clone, Copy, PartialEq, Eq)]
pub struct Traverse {
    pub legs: u32,
    pub total: u32,
    pub e: u32,
    pub h: u32,
    pub v: u32,
}

// A survey date, in days; day 0 is 1 January 1900.
#[derive(Clone, Copy, PartialEq, Eq)]
pub enum Dated {
    Undated,
    Day { day: u16 },
    Range { first: u16, last: u16 },
}

// A version's codes of no date, a day, a range with its span and a range with two days.
#[derive(Clone, Copy)]
pub struct DateCodes {
    pub none: u8,
    pub day: u8,
    pub span: u8,
    pub days: u8,
}

// How an item shortens the label: it empties it; 16 bytes off, then back to a dot;
// some bytes off, and one at least stays; some bytes off.
#[derive(Clone, Copy, PartialEq, Eq)]
pub enum Cut {
    Empty,
    ToDot { dots: usize },
    Trim { bytes: usize },
    Back { bytes: usize },
}

// The numbers of a label part: its own size, and D and A.
#[derive(Clone, Copy, PartialEq, Eq)]
pub struct LabelPart {
    pub size: usize,
    pub drop: usize,
    pub add: usize,
}

// What a file says of its time: the seconds since 1970, and the place and the length of
// the time line.
#[derive(Clone, Copy, PartialEq, Eq)]
pub struct Stamp {
    pub seconds: u64,
    pub place: usize,
    pub size: usize,
}

// A part of one of two files: the file, 1 or 2, and the part's place and length in it;
// all 0 for the empty part.
#[derive(Clone, Copy)]
pub struct Handed {
    pub file: u8,
    pub place: usize,
    pub size: usize,
}

// Style, date and position, which MOVE and LINE set: the state but for the label.
#[derive(Clone, Copy)]
pub struct Setting {
    pub style: u8,
    pub date: Dated,
    pub position: Option<Point>,
}

// Style, date and position at the start of a file.
pub fn start_setting() -> Setting
    ensures { result ≡ start_setting }
{
    Setting {
        style: NOT_SAID,
        date: Dated::Undated,
        position: None,
    }
}

// A leg but for its label.
#[derive(Clone, Copy)]
pub struct Leg {
    pub flags: u8,
    pub style: u8,
    pub date: Dated,
    pub from: Point,
    pub to: Point,
}

// A station but for its label.
#[derive(Clone, Copy)]
pub struct Station {
    pub flags: u8,
    pub place: Point,
}

// A cross-section but for its label: whether it is the last in its passage, when it
// was measured, and the passage's dimensions.
#[derive(Clone, Copy)]
pub struct Section {
    pub last: u8,
    pub date: Dated,
    pub size: Dimensions,
}

// A record's fields but for its label, which the code keeps beside them. A leg's and a
// cross-section's stand by themselves: as structs, with a date in them, they would be
// copied once more in reading. For the same end the unused byte puts the date of a
// cross-section where a leg has its own.
#[derive(Clone, Copy)]
pub enum Fields {
    Leg {
        flags: u8,
        style: u8,
        date: Dated,
        from: Point,
        to: Point,
    },
    Station {
        station: Station,
    },
    Section {
        last: u8,
        unused: u8,
        date: Dated,
        size: Dimensions,
    },
    Error {
        traverse: Traverse,
    },
}

// What reading, writing, converting and editing answer where they succeed.
#[derive(Clone, Copy, PartialEq, Eq)]
pub struct Done {
    pub bytes: usize,
    pub records: usize,
    pub version: u8,
}

// What opening a step reader answers: the version and the first item's place.
#[derive(Clone, Copy, PartialEq, Eq)]
pub struct Opened {
    pub version: u8,
    pub place: usize,
}

// What one step comes to: a record of so many bytes and how many bytes of the label were
// kept since the last that carried one, no record, or the end.
#[derive(Clone, Copy, PartialEq, Eq)]
pub enum Stepped {
    Record { bytes: usize, kept: usize },
    Nothing,
    End,
}

// Which of two files is later.
#[derive(Clone, Copy, PartialEq, Eq)]
pub enum Later {
    First,
    Second,
    Same,
}

// The refusal of a comparison, with the file that it names.
#[derive(Clone, Copy, PartialEq, Eq)]
pub enum Incomparable {
    First { refusal: Refusal },
    Second { refusal: Refusal },
}

// A corner of a box: x, y and z in centimetres, as numbers.
#[derive(Clone, Copy, PartialEq, Eq)]
pub struct Corner {
    pub x: i32,
    pub y: i32,
    pub z: i32,
}

// How far a survey reaches: how many legs took part, the least and the greatest x, y and
// z of their ends.
#[derive(Clone, Copy, PartialEq, Eq)]
pub struct Reached {
    pub legs: usize,
    pub least: Corner,
    pub greatest: Corner,
}

// What the viewer counts from: x, y and z in centimetres, as numbers.
#[derive(Clone, Copy)]
pub struct Origin {
    pub x: i32,
    pub y: i32,
    pub z: i32,
}

// What a stretch of records holds: how many entrances, and the next one, the least marked
// record at or after another.
#[derive(Clone, Copy, PartialEq, Eq)]
pub struct Entrances {
    pub count: u64,
    pub next: Option<usize>,
}
