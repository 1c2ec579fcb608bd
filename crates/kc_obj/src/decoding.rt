// An object read record by record.
ghost use Rattle.std.specs.Prelude.{◌≡◌, ◌<◌, ◌≤◌, ◌+◌, ◌-◌, ◌*◌, ◌/◌, ◌^◌, ◌==◌, ℕ, List, length, drop, take, IfOk};
ghost use Rattle.kc_base.specs.Limits.{file_limit};
ghost use Rattle.kc_obj_fields.specs.Fields.{word_at};
ghost use Rattle.kc_obj.specs.Reading.{Read, Answer, fits_name, fits_lines, fits, ended, behind_record, bodied, sized, typed, step_answer, answer_of, IsWithin, IsDecoded, first_fault};
ghost use Rattle.kc_obj.specs.Law.{ReportsSpelling, ReportsFirst};

use crate::reading::Reading;
use crate::step::Step;
use kc_base::{NoMemory, after, prefix};
use kc_obj_fields::faults::{ObjCode, ObjFault};
use kc_obj_fields::fields::{byte, word};
use kc_obj_module::Module;
use std::alloc::Global;

fn name_fits(prefix_len: usize, back_len: usize, len: usize, body: &[u8]) -> bool
    requires prefix { prefix_len ≤ 4 }
    requires back { back_len ≤ 4 }
    ensures { result ≡ fits_name prefix_len back_len len body.now }
{
    if prefix_len < body.len() {
        len == prefix_len + byte(body, prefix_len) as usize + 1 + back_len
    } else {
        prefix_len + 1 + back_len <= len && len <= prefix_len + 256 + back_len
    }
}

fn lines_fit(len: usize) -> bool
    ensures { result ≡ fits_lines len }
{
    8 <= len && (len - 2) / 6 * 6 == len - 2 && (len - 2) / 6 <= 1024
}

// Whether a record of this type can have this length.
fn length_fits(kind: u8, len: usize, body: &[u8]) -> bool
    ensures { result ≡ fits kind len body.now }
{
    match kind {
        0x01 => name_fits(1, 0, len, body),
        0x02 => len == 6,
        0x05 => name_fits(0, 1, len, body),
        0x06 => name_fits(0, 4, len, body),
        0x03 => 5 <= len && len <= 1028,
        0x04 => len == 10,
        0x07 => lines_fit(len),
        _ => len == 0,
    }
}

fn end_step(at: usize, behind: usize, reading: &Reading) -> Step
    requires { at < 2 ^ 29 }
    ensures step { (goes_on : ℕ → Read → Answer) → ended first_fault reading.now at behind ≡ step_answer goes_on result reading.now }
    ensures within { (len : ℕ) → IsWithin len result }
{
    if behind == 0 {
        Step::End
    } else {
        Step::Stop(reading.stop(at as u32, ObjCode::BytesBehind))
    }
}

// The body of a record, from `at` on.
fn body_step(
    alloc: Global,
    file: &[u8],
    at: usize,
    kind: u8,
    len: usize,
    reading: &mut Reading,
) -> Result<Step, NoMemory>
    requires file { length file.now ≤ file_limit }
    requires at { at ≤ length file.now }
    requires len { len < 65536 }
    ensures step { IfOk result (λ s. (goes_on : ℕ → Read → Answer) → bodied first_fault goes_on file.now at kind len (drop at file.now) reading.old ≡ step_answer goes_on s reading.new) }
    ensures within { IfOk result (λ s. IsWithin (length file.now) s) }
{
    let body = after(file, at);
    if body.len() < len {
        reading.take_record(alloc, kind, at as u32, len, file, body)?;
        return Ok(Step::Stop(reading.stop(file.len() as u32, ObjCode::TooShort)));
    }
    reading.take_record(alloc, kind, at as u32, len, file, prefix(body, len))?;
    if kind == 0x7F {
        Ok(end_step(at, body.len(), reading))
    } else {
        Ok(Step::On(at + len))
    }
}

// The length of a record, and its body.
fn length_step(
    alloc: Global,
    file: &[u8],
    at: usize,
    kind: u8,
    reading: &mut Reading,
) -> Result<Step, NoMemory>
    requires file { length file.now ≤ file_limit }
    requires at { at < length file.now }
    ensures step { IfOk result (λ s. (goes_on : ℕ → Read → Answer) → sized first_fault goes_on file.now at kind (drop 1 (drop at file.now)) reading.old ≡ step_answer goes_on s reading.new) }
    ensures within { IfOk result (λ s. IsWithin (length file.now) s) }
{
    let rest = after(after(file, at), 1);
    if rest.len() < 2 {
        return Ok(Step::Stop(reading.stop(file.len() as u32, ObjCode::TooShort)));
    }
    let len = word(rest, 0) as usize;
    if length_fits(kind, len, after(rest, 2)) {
        body_step(alloc, file, at + 3, kind, len, reading)
    } else {
        Ok(Step::Stop(reading.stop(at as u32 + 1, ObjCode::OtherSpelling)))
    }
}

fn step(alloc: Global, file: &[u8], at: usize, reading: &mut Reading) -> Result<Step, NoMemory>
    requires file { length file.now ≤ file_limit }
    requires at { at ≤ length file.now }
    ensures step { IfOk result (λ s. (goes_on : ℕ → Read → Answer) → typed first_fault goes_on file.now at (drop at file.now) reading.old ≡ step_answer goes_on s reading.new) }
    ensures within { IfOk result (λ s. IsWithin (length file.now) s) }
{
    let rest = after(file, at);
    if rest.is_empty() {
        return Ok(Step::Stop(reading.stop(at as u32, ObjCode::TooShort)));
    }
    let kind = rest[0];
    if reading.comes(kind) {
        reading.enter(at as u32, kind);
        length_step(alloc, file, at, kind, reading)
    } else {
        Ok(Step::Stop(reading.stop(at as u32, ObjCode::WrongOrder)))
    }
}

// The module, or the first fault.
fn read(alloc: Global, bytes: &[u8]) -> Result<Module, ObjFault>
    requires { length bytes.now ≤ file_limit }
    ensures { IsDecoded result (answer_of bytes.now) }
{
    let mut reading = Reading::new(alloc);
    let mut at = 0usize;
    let mut left = bytes.len() + 1;
    while left > 0 {
        left -= 1;
        match step(alloc, bytes, at, &mut reading) {
            Ok(Step::On(next)) => at = next,
            Ok(Step::End) => return reading.finished(),
            Ok(Step::Stop(fault)) => {
                return Err(ObjFault::At {
                    at: fault.at,
                    code: fault.code,
                });
            }
            Err(NoMemory) => return Err(ObjFault::NoMemory),
        }
    }
    let fault = reading.stop(bytes.len() as u32, ObjCode::TooShort);
    Err(ObjFault::At {
        at: fault.at,
        code: fault.code,
    })
}

/// The module of which the bytes are the spelling, or of all their faults the first by offset, of two at one offset that of
/// the lesser code, as `ObjCode` numbers them. It stands within the bytes or at their end.
pub fn decode(alloc: Global, bytes: &[u8]) -> Result<Module, ObjFault>
    requires { length bytes.now ≤ file_limit }
    ensures fault { IsDecoded result (answer_of bytes.now) }
    ensures spelling { ReportsSpelling bytes.now result }
    ensures first { ReportsFirst bytes.now result }
{
    read(alloc, bytes)
}
