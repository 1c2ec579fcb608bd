// What is said in words of the undefined use in which a run has ended.
ghost use Rattle.std.specs.Prelude.{◌≡◌, ◌++◌, codes, decimal, IfOk, OnOk};
ghost use Rattle.std.specs.Option.{option_map};
ghost use Rattle.kc_trace.specs.Text.{kind_number};
ghost use Rattle.kc_kit_messages.specs.Codes.{kind_code};
ghost use Rattle.kc_kit_messages.specs.Meanings.{sentence_of};
ghost use Rattle.kc_kit_messages.specs.Uses.{access_text, accessed, by_text, place_text, refused_text, use_diagnostic};

use crate::diagnostics::put_number;
use crate::lookup::sentence;
use kc_base::{Kind, NoMemory, Undefined, address_text, byte_text};
use kc_exec_spec::{Access, Master};
use kc_kit_files::{put_shown, put_text};
use kc_trace::kind_number;
use std::alloc::Global;

/// A line of a file.
#[derive(Clone, Copy)]
pub struct FileLine<'a> {
    pub file: &'a str,
    pub line: u32,
}

fn put_place(text: &mut Vec<u8>, place: Option<FileLine<'_>>) -> Result<(), NoMemory>
    ensures { OnOk result (text.new.items ≡ text.old.items ++ place_text (option_map (λ at. record { file = at.file.now; line = at.line }) place.entry)) }
{
    match place {
        None => put_text(text, "kc96"),
        Some(at) => {
            put_shown(text, at.file.as_bytes())?;
            put_number(text, at.line)
        }
    }
}

// Puts an address that was accessed.
fn put_accessed(text: &mut Vec<u8>, addr: u16) -> Result<(), NoMemory>
    ensures { OnOk result (text.new.items ≡ text.old.items ++ accessed addr) }
{
    if addr < 256 {
        text.extend_from_slice(byte_text(addr as u8).as_slice())?;
    } else {
        text.extend_from_slice(address_text(addr).as_slice())?;
    }
    put_text(text, "H")
}

fn by_text(by: Master) -> &'static str
    ensures { result.now ≡ by_text by }
{
    match by {
        Master::Cpu => "",
        Master::Server => " by the transfer server",
    }
}

// Puts an address behind a word, and what was done there by a master.
fn put_access(
    text: &mut Vec<u8>,
    width: &str,
    addr: u16,
    done: &str,
    by: Master,
) -> Result<(), NoMemory>
    ensures { OnOk result (text.new.items ≡ text.old.items ++ width.now ++ accessed addr ++ done.now ++ by_text by) }
{
    put_text(text, width)?;
    put_accessed(text, addr)?;
    put_text(text, done)?;
    put_text(text, by_text(by))
}

fn put_refused(text: &mut Vec<u8>, access: Access) -> Result<(), NoMemory>
    ensures { OnOk result (text.new.items ≡ text.old.items ++ access_text access) }
{
    match access {
        Access::ReadByte(by, addr) => put_access(text, "", addr, " read", by),
        Access::ReadWord(by, addr) => put_access(text, "word ", addr, " read", by),
        Access::WriteByte(by, addr, _) => put_access(text, "", addr, " written", by),
        Access::WriteWord(by, addr, _) => put_access(text, "word ", addr, " written", by),
        Access::SetMasks(_) => put_text(text, "14H written"),
    }
}

// Puts the access that was refused, where it is one that was.
fn put_refusal(text: &mut Vec<u8>, access: Option<Access>) -> Result<(), NoMemory>
    ensures { OnOk result (text.new.items ≡ text.old.items ++ refused_text access) }
{
    let Some(access) = access else {
        return Ok(());
    };
    put_text(text, " (")?;
    put_refused(text, access)?;
    put_text(text, ")")
}

// The code of a kind, as `explain` knows it.
#[tactic(auto, using(crate::proofs::Numbered::kind_digits))]
fn kind_code(alloc: Global, kind: Kind) -> Result<Vec<u8>, NoMemory>
    ensures { IfOk result (λ code. code.items ≡ kind_code kind) }
{
    let mut code = Vec::from_slice(alloc, b"kind")?;
    kc_base::put_number(&mut code, u128::from(kind_number(kind)))?;
    Ok(code)
}

// Puts the number of a kind and its sentence.
fn put_kind(alloc: Global, text: &mut Vec<u8>, kind: Kind) -> Result<(), NoMemory>
    ensures { OnOk result (text.new.items ≡ text.old.items ++ codes ": undefined use " ++ decimal (kind_number kind) ++ codes ": " ++ sentence_of (kind_code kind)) }
{
    put_text(text, ": undefined use ")?;
    kc_base::put_number(text, u128::from(kind_number(kind)))?;
    put_text(text, ": ")?;
    let code = kind_code(alloc, kind)?;
    put_text(text, sentence(&code))
}

/// What is said of an undefined use: the line of which the bytes at its address come, where that is known, its kind, the access that
/// was refused, where it is one that was, its address and its state.
pub fn use_diagnostic(
    alloc: Global,
    place: Option<FileLine<'_>>,
    what: Undefined,
    access: Option<Access>,
) -> Result<Vec<u8>, NoMemory>
    ensures { IfOk result (λ text. text.items ≡ use_diagnostic (option_map (λ at. record { file = at.file.now; line = at.line }) place.entry) what access) }
{
    let mut text = Vec::new(alloc);
    put_place(&mut text, place)?;
    put_kind(alloc, &mut text, what.kind)?;
    put_refusal(&mut text, access)?;
    put_text(&mut text, " at ")?;
    text.extend_from_slice(address_text(what.addr).as_slice())?;
    put_text(&mut text, "H in state ")?;
    kc_base::put_number(&mut text, u128::from(what.at))?;
    put_text(&mut text, "\n")?;
    Ok(text)
}
