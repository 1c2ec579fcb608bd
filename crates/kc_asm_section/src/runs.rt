ghost use Rattle.std.specs.Prelude.{◌≡◌, List, [], ◌∷◌, ◌++◌, OnOk, IfOk};
ghost use Rattle.kc_asm_section.specs.declared.puts.Put.{Put};
ghost use Rattle.kc_asm_section.specs.Runs as spec;

use crate::puts::Put;
use kc_base::{NoMemory, Text};
use kc_obj_module::{Content, Fixup};
use std::alloc::Global;

/// The most bytes of a run.
const LONGEST: usize = 1024;

// A run that may go on.
#[derive(Drop)]
struct Run {
    piece: u16,
    offset: u16,
    bytes: Vec<u8>,
}

// Whether a byte goes on with a run.
fn joins(run: &Run, put: &Put) -> bool
    ensures { result ≡ spec.joins run.now.bytes.items run.now.piece run.now.offset put.now }
{
    let len = run.bytes.len();
    len < LONGEST && run.piece == put.piece && run.offset as usize + len == put.offset as usize
}

fn close(contents: &mut Vec<Content>, run: Run) -> Result<(), NoMemory>
    ensures { OnOk result (contents.new.items ≡ contents.old.items ++ spec.closed run.bytes.items run.piece run.offset) }
{
    if run.bytes.is_empty() {
        return Ok(());
    }
    contents.push(Content {
        piece: run.piece,
        offset: run.offset,
        bytes: Text::from_vec(run.bytes),
    })?;
    Ok(())
}

// A run of one byte.
fn opened(alloc: Global, put: &Put) -> Result<Run, NoMemory>
    ensures { IfOk result (λ r. spec.IsRun r (put.now.byte ∷ []) put.now.piece put.now.offset) }
{
    let mut bytes = Vec::new(alloc);
    bytes.push(put.byte)?;
    Ok(Run {
        piece: put.piece,
        offset: put.offset,
        bytes,
    })
}

fn joined(run: Run, put: &Put) -> Result<Run, NoMemory>
    ensures { IfOk result (λ r. spec.IsRun r (run.bytes.items ++ put.now.byte ∷ []) run.piece run.offset) }
{
    let mut bytes = run.bytes;
    bytes.push(put.byte)?;
    Ok(Run {
        piece: run.piece,
        offset: run.offset,
        bytes,
    })
}

// Goes on with a run, or closes it and opens the next one.
#[tactic(auto, unfolding(crate::specs::Runs::runs))]
fn go_on(alloc: Global, contents: &mut Vec<Content>, run: Run, put: &Put) -> Result<Run, NoMemory>
    ensures { IfOk result (λ r. (rest : List Put) → contents.new.items ++ spec.runs r.bytes.items r.piece r.offset rest ≡ contents.old.items ++ spec.runs run.bytes.items run.piece run.offset (put.now ∷ rest)) }
{
    if joins(&run, put) {
        joined(run, put)
    } else {
        close(contents, run)?;
        opened(alloc, put)
    }
}

// The runs of the bytes, as long as they can be.
#[tactic(auto, unfolding(crate::specs::Runs::runs))]
pub(crate) fn contents_of(alloc: Global, puts: &[Put]) -> Result<Vec<Content>, NoMemory>
    ensures { IfOk result (λ v. v.items ≡ spec.runs [] 0 0 puts.now) }
{
    let mut contents = Vec::new(alloc);
    let mut run = Run {
        piece: 0,
        offset: 0,
        bytes: Vec::new(alloc),
    };
    let mut left = puts;
    while let [first, rest @ ..] = left {
        run = go_on(alloc, &mut contents, run, first)?;
        left = rest;
    }
    close(&mut contents, run)?;
    Ok(contents)
}

fn add_fixup(fixups: &mut Vec<Fixup>, fixup: Option<Fixup>) -> Result<(), NoMemory>
    ensures { OnOk result (fixups.new.items ≡ fixups.old.items ++ spec.listed fixup) }
{
    match fixup {
        None => Ok(()),
        Some(fixup) => {
            fixups.push(fixup)?;
            Ok(())
        }
    }
}

// The relocations, in their order.
#[tactic(auto, unfolding(crate::specs::Runs::fixups_of))]
pub(crate) fn fixups_of(alloc: Global, puts: &[Put]) -> Result<Vec<Fixup>, NoMemory>
    ensures { IfOk result (λ v. v.items ≡ spec.fixups_of puts.now) }
{
    let mut fixups = Vec::new(alloc);
    let mut left = puts;
    while let [first, rest @ ..] = left {
        add_fixup(&mut fixups, first.fixup)?;
        left = rest;
    }
    Ok(fixups)
}
