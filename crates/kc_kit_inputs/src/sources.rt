// Sources assembled to modules.
ghost use Rattle.std.specs.Prelude.{◌≡◌, ◌≤◌, ◌++◌, ◌∷◌, [], codes, IfOk, IfErr, OnOk, length, map, string_bytes};
ghost use Rattle.kc_base.specs.Limits.{file_limit};
ghost use Rattle.kc_asm.specs.Assembled.{IsModule};
ghost use Rattle.kc_kit_files.specs.Response.{IsRefused};
ghost use Rattle.kc_kit_files.specs.Reads.{AllShort};
ghost use Rattle.kc_kit_inputs.specs.Lines as spec;
ghost use Rattle.kc_kit_inputs.specs.FaultDiagnostics.{IsFaultDiagnostic};
ghost use Rattle.kc_kit_inputs.specs.Sources.{AreModules, Reports, ReportsFault, ReportsFirst};

use crate::input_lines::{coded, place_text};
use kc_asm::assemble;
use kc_asm_origin::{origin, symbol};
use kc_base::NoMemory;
use kc_kit_files::{Cause, Refusal, refusal_of};
use kc_kit_messages::{put_body_line, source_diagnostic};
use kc_lex::SourceFault;
use kc_obj_module::Module;
use std::alloc::Global;

// The diagnostic of a fault of a source: its sentence, with the name that it is about, and the line of a macro's body that has it.
fn fault_diagnostic(
    alloc: Global,
    name: &[u8],
    text: &[u8],
    line: u32,
    number: u8,
    code: &[u8],
) -> Result<Vec<u8>, NoMemory>
    requires short { length text.now ≤ file_limit }
    requires code { code.now ≡ spec.coded (codes "E") number }
    ensures { IfOk result (λ diagnostic. IsFaultDiagnostic name.now text.now line number diagnostic.items) }
{
    let mut diagnostic = match symbol(alloc, text, line, number)? {
        Some(about) => {
            let about = Some(about.as_slice());
            source_diagnostic(alloc, name, text, line, code, number, about)?
        }
        None => source_diagnostic(alloc, name, text, line, code, number, None)?,
    };
    let body_line = origin(alloc, text, line, number)?;
    put_body_line(&mut diagnostic, name, text, body_line)?;
    Ok(diagnostic)
}

// The place and the code of a fault of a source as they are printed, and its diagnostic.
fn fault_texts(
    alloc: Global,
    name: &[u8],
    text: &[u8],
    line: u32,
    number: u8,
) -> Result<(Vec<u8>, Vec<u8>), NoMemory>
    requires { length text.now ≤ file_limit }
    ensures printed { IfOk result (λ texts. texts.0.items ≡ spec.place_text line (spec.coded (codes "E") number)) }
    ensures diagnostic { IfOk result (λ texts. IsFaultDiagnostic name.now text.now line number texts.1.items) }
{
    let code = coded(alloc, b"E", number)?;
    let printed = place_text(alloc, u64::from(line), &code)?;
    let diagnostic = fault_diagnostic(alloc, name, text, line, number, &code)?;
    Ok((printed, diagnostic))
}

// The refusal of a source with a fault: its line and the number of its code.
fn source_refusal(alloc: Global, name: &str, text: &[u8], line: u32, number: u8) -> Refusal
    requires { length text.now ≤ file_limit }
    ensures { IsRefused (Reports IsFaultDiagnostic name.now text.now line number) result }
{
    let name = name.as_bytes();
    match fault_texts(alloc, name, text, line, number) {
        Ok((printed, diagnostic)) => refusal_of(
            alloc,
            Cause::Source,
            b"source ",
            name,
            &printed,
            diagnostic,
        ),
        Err(NoMemory) => Refusal::NoMemory,
    }
}

/// The module of a source, or the refusal of its first fault.
pub fn assemble_source(alloc: Global, name: &str, text: &[u8]) -> Result<Module, Refusal>
    requires { length text.now ≤ file_limit }
    ensures made { IfOk result (λ m. IsModule text.now m) }
    ensures refusal { IfErr result (IsRefused (ReportsFault IsFaultDiagnostic name.now text.now)) }
{
    match assemble(alloc, text) {
        Ok(made) => Ok(made),
        Err(SourceFault::At { line, code }) => Err(source_refusal(alloc, name, text, line, code)),
        Err(SourceFault::NoMemory) => Err(Refusal::NoMemory),
    }
}

fn push(modules: &mut Vec<Module>, made: Module) -> Result<(), NoMemory>
    ensures { OnOk result (modules.new.items ≡ modules.old.items ++ made ∷ []) }
{
    modules.push(made)?;
    Ok(())
}

/// The modules of some sources, or the refusal of the first with a fault.
pub fn assemble_sources(
    alloc: Global,
    names: &[String],
    texts: &[Vec<u8>],
) -> Result<Vec<Module>, Refusal>
    requires count { length texts.now ≡ length names.now }
    requires short { AllShort (map (λ t. t.items) texts.now) }
    ensures made { IfOk result (λ ms. AreModules (map (λ t. t.items) texts.now) ms.items) }
    ensures count { IfOk result (λ ms. length ms.items ≡ length names.now) }
    ensures refusal { IfErr result (IsRefused (ReportsFirst IsFaultDiagnostic (map string_bytes names.now) (map (λ t. t.items) texts.now))) }
{
    let mut modules = Vec::new(alloc);
    for i in 0..names.len() {
        match assemble_source(alloc, names[i].as_str(), &texts[i]) {
            Ok(made) => push(&mut modules, made)?,
            Err(refusal) => return Err(refusal),
        }
    }
    Ok(modules)
}
