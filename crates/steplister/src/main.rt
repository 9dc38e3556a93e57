// Prints the sheet of a 3d file as text, as the lister does, by steps: the records that
// they answer are laid one behind the other. The file is standard input.
#![tactic(auto)]

ghost use Rattle.std.specs.Prelude.{◌≡◌, ◌∷◌, ◌+◌, ◌≤◌, length, take};
ghost use Rattle.format.specs.Bytes.{over};
ghost use Rattle.format.specs.Header.{title_limit, time_limit};
ghost use Rattle.format.specs.Sheet.{sheet_version, header_layout, record_limit, front_limit};
ghost use Rattle.wire.specs.Laid.{laid_if};
ghost use Rattle.header.specs.Head.{saying};
ghost use Rattle.listing.specs.Lines.{input_limit, lister_sheet_limit, lister_text_limit, lister_text};
ghost use Rattle.steplister.specs.Steps.{Gathers, stop_text};

use format::{Fault, Refusal, Stepped};
use listing::Printed;

// "at most 16,384 bytes, else prints `too long`"
const INPUT_LIMIT: usize = 16384;

// Lays the version byte and the header record over the front of the sheet: how many bytes
// they take.
fn lay_front(file: &[u8], extended: u8, title: usize, time: usize, sheet: &mut [u8]) -> usize
    requires { (title ≤ title_limit) × (time ≤ time_limit) × (25 + title + time ≤ length file.now) × (7 + title + time ≤ length sheet.old) }
    ensures answer { result ≡ 7 + title + time }
    ensures sheet { sheet.new ≡ over (sheet_version ∷ header_layout (saying extended title time file.now)) sheet.old }
{
    let ends = 24 + title;
    let from = ends + 1;
    let stops = from + time;
    layout::put_front(sheet, extended, &file[24..ends], &file[from..stops]);
    7 + title + time
}

// Lays a part into the sheet from `at` on, where there is room for it.
fn lay_in(sheet: &mut [u8], at: usize, part: &[u8])
    ensures { sheet.new ≡ laid_if sheet.old at part.now }
{
    if sheet.len() < at {
        return;
    }
    if sheet.len() - at < part.len() {
        return;
    }
    wire::copy(part, &mut sheet[at..]);
}

// Steps through the file and lays the records into the sheet, the first at `front`: the
// sheet's bytes at the end, or the refusal. Each record is first in `held`, so that one for
// which the sheet has no room still counts.
fn gather(file: &[u8], sheet: &mut [u8], front: usize, held: &mut [u8]) -> Result<usize, Refusal>
    requires { (length file.now ≤ input_limit) × (front ≤ front_limit) × (record_limit ≤ length held.old) }
    ensures { Gathers file.now sheet.old front result sheet.new }
{
    let mut label = label::blank();
    let mut stand = step::open_at(file);
    let mut bytes = front;
    // The steps say when they end.
    loop {
        let taken = step::next_at(file, stand, &mut label.bytes, held);
        let answer = taken.answer?;
        let Stepped::Record {
            bytes: size,
            kept: _,
        } = answer
        else {
            return Ok(bytes);
        };
        lay_in(sheet, bytes, &held[..size]);
        bytes += size;
        stand = taken.stand;
    }
}

// The text for what stepping came to: a refusal; 11 where the sheet has no room; the
// listing of the sheet.
fn stop_text(gathered: Result<usize, Refusal>, version: u8, sheet: &[u8], out: &mut [u8]) -> usize
    requires { (length sheet.now ≡ lister_sheet_limit) × (length out.old ≡ lister_text_limit) }
    ensures { (result ≤ lister_text_limit) × (take result out.new ≡ stop_text gathered version sheet.now) }
{
    let bytes = match gathered {
        Ok(bytes) => bytes,
        Err(refusal) => return listing::list(Printed::Refused { refusal }, b"", out),
    };
    if sheet.len() < bytes {
        let refusal = Fault::BufferTooSmall.at(bytes);
        return listing::list(Printed::Refused { refusal }, b"", out);
    }
    listing::list(Printed::Sheet { version }, &sheet[..bytes], out)
}

// The text for the n bytes that were read to the front of input, over the front of out;
// its length. What input has room for beyond the limit tells that there was more.
fn text_of(input: &[u8], n: usize, sheet: &mut [u8], out: &mut [u8]) -> usize
    requires { (length input.now ≡ input_limit + 1) × (n ≤ length input.now) × (length sheet.old ≡ lister_sheet_limit) × (length out.old ≡ lister_text_limit) }
    ensures { (result ≤ lister_text_limit) × (take result out.new ≡ lister_text (take n input.now)) }
{
    let file = &input[..n];
    if INPUT_LIMIT < n {
        return listing::list(Printed::TooLong, b"", out);
    }
    match header::opening(file) {
        Err(refusal) => listing::list(Printed::Refused { refusal }, b"", out),
        Ok(head) => {
            let front = lay_front(file, head.extended, head.title, head.time, sheet);
            // there is no text yet, so out is free for the records
            let gathered = gather(file, sheet, front, out);
            stop_text(gathered, head.version, sheet, out)
        }
    }
}

fn main() {
    let mut input = [0u8; 16385];
    let n = io::read_full(0, &mut input);
    let mut sheet = [0u8; 49152];
    let mut out = [0u8; 262144];
    let size = text_of(&input, n, &mut sheet, &mut out);
    io::write_all(1, &out[..size]);
}
