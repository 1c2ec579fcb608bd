ghost use Rattle.std.specs.Prelude.{◌≡◌, ◌+◌, ◌<◌, ◌≤◌, ◌^◌};
ghost use Rattle.std.specs.Option.{option_map};
ghost use Rattle.kc_expr.specs.Tree.{tree_of};
ghost use Rattle.kc_source_statement.specs.Trees.{action_tree};
ghost use Rattle.kc_asm_symbols.specs.Located as spec;

use kc_expr::{Base, Expr, Tag, Value};
use kc_obj_module::SegKind;
use kc_obj_module::pieces::number_of;
use kc_source_statement::Action;

/// The segment in force at a statement: the number and the kind of its piece, and how many pieces there are so far. The
/// pieces 0 (registers), 1 (code) and 2 (data) are relocatable; absolute ones follow in the order of the source.
/// (MCS-96 Macro Assembler User's Guide, "Segments and the Location Counter".)
#[derive(Clone, Copy, PartialEq, Eq)]
pub struct Segment {
    pub piece: usize,
    pub kind: SegKind,
    pub count: usize,
}

impl Segment {
    /// That in which a module begins: its relocatable code.
    pub fn first() -> Segment
        ensures { result ≡ spec.first_segment }
    {
        Segment {
            piece: 1,
            kind: SegKind::Code,
            count: 3,
        }
    }

    /// That behind a statement.
    pub fn after(self, action: &Action) -> Segment
        requires { self.count + 1 < 2 ^ 64 }
        ensures value { result ≡ spec.segment_after self (action_tree action.now) }
        ensures few { result.count ≤ self.count + 1 }
    {
        match action {
            Action::Cseg(at) => self.opened(SegKind::Code, at),
            Action::Dseg(at) => self.opened(SegKind::Ram, at),
            Action::Rseg(at) => self.opened(SegKind::Reg, at),
            _ => self,
        }
    }

    fn opened(self, kind: SegKind, at: &Option<Expr>) -> Segment
        requires { self.count + 1 < 2 ^ 64 }
        ensures value { result ≡ spec.opened kind (option_map tree_of at.now) self }
        ensures few { result.count ≤ self.count + 1 }
    {
        match at {
            None => Segment {
                piece: usize::from(number_of(kind)),
                kind,
                count: self.count,
            },
            Some(_) => Segment {
                piece: self.count,
                kind,
                count: self.count + 1,
            },
        }
    }

    /// Whether its piece lies at an address of its own.
    pub fn is_absolute(self) -> bool
        ensures { result ≡ spec.is_absolute self }
    {
        self.piece >= 3
    }

    /// The value of a place in it, an offset or an address.
    pub fn value_at(self, place: u32) -> Value
        ensures { result ≡ spec.value_at self place }
    {
        Value {
            base: self.base(),
            tag: tag_of(self.kind),
            number: (place % 65536) as u16,
        }
    }

    fn base(self) -> Base
        ensures { result ≡ spec.base_of self }
    {
        if self.piece >= 3 {
            Base::Absolute
        } else {
            Base::Piece(self.piece as u16)
        }
    }
}

fn tag_of(kind: SegKind) -> Tag
    ensures { result ≡ spec.tag_of kind }
{
    match kind {
        SegKind::Reg => Tag::Register,
        SegKind::Code | SegKind::Ram | SegKind::Stack => Tag::Memory,
    }
}
