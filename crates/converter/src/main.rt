// Converts a 3d file of any version to v8. The file is standard input, at most 16,384
// bytes; the v8 file, or the refusal's line, goes to standard output.
#![tactic(auto)]

ghost use Rattle.std.specs.Prelude.{◌≡◌, ◌+◌, ◌≤◌, length, take};
ghost use Rattle.listing.specs.Lines.{input_limit};
ghost use Rattle.converter.specs.Converter.{converter_sheet_limit, converter_file_limit, converter_text};

use listing::Printed;

// "at most 16,384 bytes, else prints `too long`"
const INPUT_LIMIT: usize = 16384;

// The output for the n bytes that were read to the front of input, over the front of
// out; its length. What input has room for beyond the limit tells that there was more.
fn output_of(input: &[u8], n: usize, sheet: &mut [u8], out: &mut [u8]) -> usize
    requires { (length input.now ≡ input_limit + 1) × (n ≤ length input.now) × (length sheet.old ≡ converter_sheet_limit) × (length out.old ≡ converter_file_limit) }
    ensures { (result ≤ converter_file_limit) × (take result out.new ≡ converter_text (take n input.now)) }
{
    let file = &input[..n];
    if INPUT_LIMIT < n {
        return listing::list(Printed::TooLong, b"", out);
    }
    match convert::convert(file, sheet, out) {
        Ok(done) => done.bytes,
        Err(refusal) => listing::list(Printed::Refused { refusal }, b"", out),
    }
}

fn main() {
    let mut input = [0u8; 16385];
    let n = io::read_full(0, &mut input);
    let mut sheet = [0u8; 32768];
    let mut out = [0u8; 16384];
    let size = output_of(&input, n, &mut sheet, &mut out);
    io::write_all(1, &out[..size]);
}
