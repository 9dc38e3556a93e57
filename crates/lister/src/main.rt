// Prints the sheet of a 3d file as text. The file is standard input, at most 16,384 bytes.
#![tactic(auto)]

ghost use Rattle.std.specs.Prelude.{◌≡◌, ◌+◌, ◌≤◌, length, take};
ghost use Rattle.listing.specs.Lines.{input_limit, lister_sheet_limit, lister_text_limit, lister_text};

use listing::Printed;

// "at most 16,384 bytes, else prints `too long`"
const INPUT_LIMIT: usize = 16384;

// The text for the n bytes that were read to the front of input, over the front of out;
// its length. What input has room for beyond the limit tells that there was more.
fn text_of(input: &[u8], n: usize, sheet: &mut [u8], out: &mut [u8]) -> usize
    requires { (length input.now ≡ input_limit + 1) × (n ≤ length input.now) × (length sheet.old ≡ lister_sheet_limit) × (length out.old ≡ lister_text_limit) }
    ensures { (result ≤ lister_text_limit) × (take result out.new ≡ lister_text (take n input.now)) }
{
    let file = &input[..n];
    if INPUT_LIMIT < n {
        return listing::list(Printed::TooLong, b"", out);
    }
    match read::read(file, sheet) {
        Ok(done) => {
            let version = done.version;
            listing::list(Printed::Sheet { version }, &sheet[..done.bytes], out)
        }
        Err(refusal) => listing::list(Printed::Refused { refusal }, b"", out),
    }
}

fn main() {
    let mut input = [0u8; 16385];
    let n = io::read_full(0, &mut input);
    let mut sheet = [0u8; 49152];
    let mut out = [0u8; 262144];
    let size = text_of(&input, n, &mut sheet, &mut out);
    io::write_all(1, &out[..size]);
}
