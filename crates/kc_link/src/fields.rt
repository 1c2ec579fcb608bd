// Fields of lines.
ghost use Rattle.std.specs.Prelude.{◌≡◌};
ghost use Rattle.kc_link.specs.Map as spec;

use kc_obj_module::SegKind;

/// The word for a kind of piece, as refusals and maps have it.
pub fn kind_word(kind: SegKind) -> &'static [u8]
    ensures { result.now ≡ spec.kind_word kind }
{
    match kind {
        SegKind::Reg => b"reg",
        SegKind::Code => b"code",
        SegKind::Ram => b"data",
        SegKind::Stack => b"stack",
    }
}
