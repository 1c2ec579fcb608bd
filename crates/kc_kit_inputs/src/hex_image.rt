// Hex files that are read.
ghost use Rattle.std.specs.Prelude.{◌≡◌, ◌≤◌, codes, Ok, Err, IfOk, IfErr, length};
ghost use Rattle.kc_base.specs.Limits.{file_limit};
ghost use Rattle.kc_kit_files.specs.Response.{IsRefused};
ghost use Rattle.kc_kit_inputs.specs.Hex.{hex_of};
ghost use Rattle.kc_kit_inputs.specs.Lines.{coded};
ghost use Rattle.kc_kit_inputs.specs.Responses.{line_response};

use crate::input_lines::{coded, line_refusal};
use kc_base::{Image, NoMemory};
use kc_hex::HexFault;
use kc_kit_files::Refusal;
use std::alloc::Global;

// The refusal of a hex text with a fault: its line, and the number of its code.
fn hex_refusal(alloc: Global, name: &str, text: &[u8], line: u32, number: u8) -> Refusal
    ensures { IsRefused (λ response. response ≡ line_response name.now text.now line (coded (codes "H") number)) result }
{
    match coded(alloc, b"H", number) {
        Ok(code) => line_refusal(alloc, name, text, line, &code),
        Err(NoMemory) => Refusal::NoMemory,
    }
}

/// The image of a hex text, or the refusal of its first fault.
pub fn image_of(alloc: Global, name: &str, text: &[u8]) -> Result<Image, Refusal>
    requires { length text.now ≤ file_limit }
    ensures image { IfOk result (λ image. hex_of name.now text.now ≡ Ok image) }
    ensures refusal { IfErr result (IsRefused (λ response. hex_of name.now text.now ≡ Err response)) }
{
    match kc_hex::read(alloc, text) {
        Ok(image) => Ok(image),
        Err(HexFault::At { line, code }) => Err(hex_refusal(alloc, name, text, line, code)),
        Err(HexFault::NoMemory) => Err(Refusal::NoMemory),
    }
}
