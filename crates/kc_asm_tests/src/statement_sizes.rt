// What statements are to the steps behind the table of sizes.
use crate::sources::sizes_of;
use kc_asm_layout::{Anchor, Body, opens};
use kc_asm_symbols::Segment;
use kc_branch::BranchKind;
use kc_obj_module::SegKind;
use std::test::*;

const MAIN: Segment = Segment {
    piece: 1,
    kind: SegKind::Code,
    count: 3,
};

const FIRST_ABSOLUTE: Segment = Segment {
    piece: 3,
    kind: SegKind::Code,
    count: 4,
};

const SECOND_ABSOLUTE: Segment = Segment {
    piece: 4,
    kind: SegKind::Code,
    count: 5,
};

const REGISTERS: Segment = Segment {
    piece: 0,
    kind: SegKind::Reg,
    count: 5,
};

const THIRD_ABSOLUTE: Segment = Segment {
    piece: 5,
    kind: SegKind::Reg,
    count: 6,
};

const DATA: Segment = Segment {
    piece: 2,
    kind: SegKind::Ram,
    count: 6,
};

/// The lines of a source, each with its segment, what its place is divisible by, its body, and the address that it opens.
type Case = (&'static str, Segment, u32, Body, Option<u16>);

static CASES: [Case; 39] = [
    ("M MODULE", MAIN, 1, Body::Bytes(0), None),
    (" EXTRN X", MAIN, 1, Body::Bytes(0), None),
    (" PUBLIC A", MAIN, 1, Body::Bytes(0), None),
    ("A: NOP", MAIN, 1, Body::Bytes(1), None),
    (
        " BR A",
        MAIN,
        1,
        Body::Branch {
            kind: BranchKind::Jump,
            anchor: Anchor::Statement {
                number: 3,
                distance: 0,
            },
        },
        None,
    ),
    (
        " BR B+5",
        MAIN,
        1,
        Body::Branch {
            kind: BranchKind::Jump,
            anchor: Anchor::Statement {
                number: 22,
                distance: 5,
            },
        },
        None,
    ),
    (
        " CALL A-200",
        MAIN,
        1,
        Body::Branch {
            kind: BranchKind::Call,
            anchor: Anchor::Statement {
                number: 3,
                distance: -200,
            },
        },
        None,
    ),
    (
        " BNE $-3",
        MAIN,
        1,
        Body::Branch {
            kind: BranchKind::Conditional,
            anchor: Anchor::Statement {
                number: 7,
                distance: -3,
            },
        },
        None,
    ),
    ("C EQU B-1", MAIN, 1, Body::Bytes(0), None),
    ("V SET A", MAIN, 1, Body::Bytes(0), None),
    ("W EQU $+2", MAIN, 1, Body::Bytes(0), None),
    (
        " BE C",
        MAIN,
        1,
        Body::Branch {
            kind: BranchKind::Conditional,
            anchor: Anchor::Statement {
                number: 22,
                distance: -1,
            },
        },
        None,
    ),
    (
        " BH V+1",
        MAIN,
        1,
        Body::Branch {
            kind: BranchKind::Conditional,
            anchor: Anchor::Statement {
                number: 3,
                distance: 1,
            },
        },
        None,
    ),
    ("V SET B", MAIN, 1, Body::Bytes(0), None),
    (
        " BBS 20H,3,V",
        MAIN,
        1,
        Body::Branch {
            kind: BranchKind::BitTest,
            anchor: Anchor::Statement {
                number: 22,
                distance: 0,
            },
        },
        None,
    ),
    (
        " BR W",
        MAIN,
        1,
        Body::Branch {
            kind: BranchKind::Jump,
            anchor: Anchor::Statement {
                number: 10,
                distance: 2,
            },
        },
        None,
    ),
    (
        " BR X+2",
        MAIN,
        1,
        Body::Branch {
            kind: BranchKind::Jump,
            anchor: Anchor::External,
        },
        None,
    ),
    (
        " CALL STACK",
        MAIN,
        1,
        Body::Branch {
            kind: BranchKind::Call,
            anchor: Anchor::External,
        },
        None,
    ),
    (
        " BE B-A",
        MAIN,
        1,
        Body::Branch {
            kind: BranchKind::Conditional,
            anchor: Anchor::Nothing,
        },
        None,
    ),
    (
        " BV 2100H",
        MAIN,
        1,
        Body::Branch {
            kind: BranchKind::Conditional,
            anchor: Anchor::Nothing,
        },
        None,
    ),
    (
        " BR UNKNOWN",
        MAIN,
        1,
        Body::Branch {
            kind: BranchKind::Jump,
            anchor: Anchor::Nothing,
        },
        None,
    ),
    (" BR [20H]", MAIN, 1, Body::Bytes(2), None),
    ("B: DCW 1,2", MAIN, 2, Body::Bytes(4), None),
    (" LD 20H,A", MAIN, 1, Body::Bytes(5), None),
    (" LD R,#A-B", MAIN, 1, Body::Bytes(4), None),
    (" ORG 40H", MAIN, 1, Body::Upto(64), None),
    (" EVEN", MAIN, 1, Body::Even, None),
    (" CSEG AT 2080H", MAIN, 1, Body::Bytes(0), Some(8320)),
    (
        "D: BR A",
        FIRST_ABSOLUTE,
        1,
        Body::Branch {
            kind: BranchKind::Jump,
            anchor: Anchor::Statement {
                number: 3,
                distance: 0,
            },
        },
        None,
    ),
    (
        " BE D-1",
        FIRST_ABSOLUTE,
        1,
        Body::Branch {
            kind: BranchKind::Conditional,
            anchor: Anchor::Statement {
                number: 28,
                distance: -1,
            },
        },
        None,
    ),
    (" CSEG AT A", FIRST_ABSOLUTE, 1, Body::Bytes(0), Some(0)),
    (" RSEG", SECOND_ABSOLUTE, 1, Body::Bytes(0), None),
    ("R: DSL 3", REGISTERS, 4, Body::Bytes(12), None),
    (" DSB A", REGISTERS, 1, Body::Bytes(0), None),
    (" RSEG AT 10+20", REGISTERS, 1, Body::Bytes(0), Some(30)),
    (" DSL 1", THIRD_ABSOLUTE, 4, Body::Bytes(4), None),
    (" DSEG", THIRD_ABSOLUTE, 1, Body::Bytes(0), None),
    (" DSL 2", DATA, 2, Body::Bytes(8), None),
    (" END", DATA, 1, Body::Bytes(0), None),
];

#[test]
fn size_records_of_statements(rt: HostRuntime) -> Result<(), Fail> {
    let source = Vec::from_iter(rt.alloc(), CASES.iter().map(|case| case.0))?;
    let statement_sizes = sizes_of(rt.alloc(), &source).expect(
        &rt,
        "the source has no fault of its names",
    );
    let size_records = statement_sizes.size_records();
    assert!(rt; size_records.len() == CASES.len());
    for (size_record, case) in size_records.iter().zip(&CASES) {
        let &(line, segment, alignment, body, opens) = case;
        assert!(rt; size_record.segment == segment, "segment of {line}");
        assert!(rt; size_record.alignment == alignment, "alignment of {line}");
        assert!(rt; size_record.body == body, "body of {line}");
        assert!(rt; size_record.opens == opens, "address of {line}");
    }
    Ok(())
}
