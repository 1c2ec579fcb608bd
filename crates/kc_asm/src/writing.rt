//! What a statement writes at the end of its piece.

ghost use Rattle.std.specs.Prelude.{◌≡◌, ◌+◌, ◌≤◌, OnOk};
ghost use Rattle.kc_asm_emit.specs.Seen.{seen};
ghost use Rattle.kc_asm_check.specs.Walk.{stood};
ghost use Rattle.kc_asm_unlinked_laws.specs.Collecting as spec;
ghost use Rattle.kc_asm_unlinked_laws.specs.Writable.{HasRoom};
ghost use Rattle.kc_asm.specs.Writing.{ContentFits};

use kc_asm_emit::Content;
use kc_asm_encode::RelocatableByte;
use kc_asm_layout::Location;
use kc_asm_section::Part;
use kc_asm_symbols::Segment;
use kc_base::NoMemory;
use kc_obj_module::SegKind;
use kc_source_statement::Stmt;

/// What stands in code where nothing else does.
const FILLING: u8 = 0xFF;

// So many bytes of filling.
fn fill(part: &mut Part, count: u64) -> Result<(), NoMemory>
    requires { part.old.length + count ≤ 65536 }
    ensures { OnOk result (part.new ≡ spec.led SegKind.Code count part.old) }
{
    let mut left = count;
    while left > 0 {
        part.push(RelocatableByte::Plain(FILLING))?;
        left -= 1;
    }
    Ok(())
}

// Leads on by so many bytes: in code FFH stands there.
fn lead(part: &mut Part, kind: SegKind, count: u64) -> Result<(), NoMemory>
    requires { part.old.length + count ≤ 65536 }
    ensures { OnOk result (part.new ≡ spec.led kind count part.old) }
{
    match kind {
        SegKind::Code => fill(part, count),
        SegKind::Reg | SegKind::Ram | SegKind::Stack => {
            part.skip(count as u32);
            Ok(())
        }
    }
}

// Puts the content of the statement on a line, which stands at a place.
fn put(
    part: &mut Part,
    line: u32,
    kind: SegKind,
    place: u64,
    content: &Content,
) -> Result<(), NoMemory>
    requires { HasRoom part.old.length (seen content.now) place }
    ensures { OnOk result (part.new ≡ spec.put_content line kind place (seen content.now) part.old) }
{
    match content {
        Content::Nothing => Ok(()),
        Content::RelocatableBytes(relocatable_bytes) => part.write(
            line,
            relocatable_bytes.as_slice(),
        ),
        Content::Reserved(count) => {
            part.skip(*count);
            Ok(())
        }
        Content::Upto(to) => {
            part.skip((u64::from(*to) - place) as u32);
            Ok(())
        }
        Content::Even => lead(part, kind, place % 2),
    }
}

/// Writes the content of a statement in a segment at its location, at the end of its piece.
pub(crate) fn write(
    part: &mut Part,
    segment: Segment,
    stmt: &Stmt,
    location: &Location,
    content: &Content,
) -> Result<(), NoMemory>
    requires { ContentFits (seen content.now) location.now part.old.length }
    ensures { OnOk result (part.new ≡ spec.section_with (seen content.now) (stood segment stmt.now location.now) location.now part.old) }
{
    lead(part, segment.kind, location.place - location.before)?;
    put(part, stmt.line, segment.kind, location.place, content)?;
    Ok(())
}
