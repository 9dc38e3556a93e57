// Conversion: reads a file of any version to a lent sheet, then writes it as v8. A sheet
// made by reading is never refused with 12 or 13, so 16 and 11 are left (#113).
#![tactic(auto)]

ghost use Rattle.std.specs.Prelude.{◌≡◌, length};
ghost use Rattle.format.specs.Reading.{read_buffer};
ghost use Rattle.format.specs.Conversion.{convert_outcome, convert_buffer};
ghost use Rattle.format.specs.Answers.{answer_of};

use format::{Done, Refusal};

// After a writer's refusal the sheet stands and the file buffer is untouched.
pub fn convert(file: &[u8], sheet: &mut [u8], out: &mut [u8]) -> Result<Done, Refusal>
    ensures answer { answer_of result ≡ convert_outcome file.now (length sheet.old) (length out.old) }
    ensures sheet { sheet.new ≡ read_buffer file.now sheet.old }
    ensures file { out.new ≡ convert_buffer file.now (length sheet.old) out.old }
{
    // By match and not by `?`: each refusal is then handed on where a wrong one can be tried.
    match read::read(file, sheet) {
        Ok(made) => write::write(&sheet[..made.bytes], out),
        Err(refusal) => Err(refusal),
    }
}
