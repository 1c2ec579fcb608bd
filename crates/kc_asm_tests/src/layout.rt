// Places of statements, in pieces too that are longer than a module may have.
use crate::sources::sizes_of;
use kc_asm_layout::{Location, layout};
use kc_branch::Form;
use std::alloc::Global;
use std::test::*;

/// Where the statements of a source stand, if its lines and its names have no fault.
fn locations(alloc: Global, source: &[&str]) -> Option<Vec<Location>> {
    let statement_sizes = sizes_of(alloc, source)?;
    layout(alloc, &statement_sizes).ok()
}

/// Where a piece ended before a statement, its place, where the piece ends behind it, and the address of the piece.
type Stand = (u64, u64, u64, Option<u16>);

/// Statements of several segments, each with where it stands.
static STANDING: [(&str, Stand); 23] = [
    ("A: DSB 3", (0, 0, 3, None)),
    (" DSEG", (3, 3, 3, None)),
    (" DSB 5", (0, 0, 5, None)),
    (" CSEG", (5, 5, 5, None)),
    (" DSW 1", (3, 4, 6, None)),
    (" RSEG AT 1AH", (6, 6, 6, None)),
    (" DSB 1", (0x1A, 0x1A, 0x1B, Some(0x1A))),
    (" DSL 1", (0x1B, 0x1C, 0x20, Some(0x1A))),
    (" DSL 1", (0x20, 0x20, 0x24, Some(0x1A))),
    (" CSEG AT 2080H", (0x24, 0x24, 0x24, Some(0x1A))),
    (" DSB 1", (0x2080, 0x2080, 0x2081, Some(0x2080))),
    (" EVEN", (0x2081, 0x2081, 0x2082, Some(0x2080))),
    (" EVEN", (0x2082, 0x2082, 0x2082, Some(0x2080))),
    (" ORG 3000H", (0x2082, 0x2082, 0x3000, Some(0x2080))),
    (" DSB 1", (0x3000, 0x3000, 0x3001, Some(0x2080))),
    (" DSEG", (0x3001, 0x3001, 0x3001, Some(0x2080))),
    (" DSL 65535", (5, 6, 262_146, None)),
    (" DSB 1", (262_146, 262_146, 262_147, None)),
    (" CSEG", (262_147, 262_147, 262_147, None)),
    (" DSL 65535", (6, 6, 262_146, None)),
    (" ORG 16", (262_146, 262_146, 16, None)),
    (" CALL A", (16, 16, 18, None)),
    (" END", (18, 18, 18, None)),
];

#[test]
fn statements_stand_at_the_ends_of_their_pieces(rt: HostRuntime) -> Result<(), Fail> {
    let source = Vec::from_iter(rt.alloc(), STANDING.iter().map(|row| row.0))?;
    let locations = locations(rt.alloc(), &source).expect(&rt, "its names have no fault");
    assert!(rt; locations.len() == STANDING.len());
    for (location, row) in locations.iter().zip(&STANDING) {
        let &(line, wanted) = row;
        assert!(rt;
            (
                location.before,
                location.place,
                location.after,
                location.address
            ) == wanted,
            "{line}"
        );
    }
    Ok(())
}

/// Where a piece has passed 65,535 bytes a branch counts from whole numbers: forth over a great reserve and back, and near it.
#[test]
fn a_branch_over_a_great_reserve_is_long(rt: HostRuntime) {
    let source = ["A: BE B", " DSL 65535", "B: BE B+129", " BE A", " END"];
    let locations = locations(rt.alloc(), &source).expect(&rt, "its names have no fault");
    let wanted = [
        (0, Form::Third),
        (6, Form::First),
        (262_146, Form::First),
        (262_148, Form::Third),
        (262_153, Form::First),
    ];
    assert!(rt; locations.len() == wanted.len());
    for (location, (place, form)) in locations.iter().zip(&wanted) {
        assert!(rt;
            (location.place, location.form) == (*place, *form),
            "{place}"
        );
    }
}

/// A call over 65,535 bytes, forth and back, is long.
#[test]
fn a_call_over_the_longest_reserve_is_long(rt: HostRuntime) {
    let forth = locations(rt.alloc(), &[" CALL C", " DSB 65535", "C:", " END"]).expect(
        &rt,
        "its names have no fault",
    );
    assert!(rt; forth.len() == 4);
    assert!(rt; (forth[0].form, forth[2].place) == (Form::Second, 65_538));
    let back = locations(rt.alloc(), &["C: DSB 65535", " CALL C", " END"]).expect(
        &rt,
        "its names have no fault",
    );
    assert!(rt; back.len() == 3);
    assert!(rt; (back[1].form, back[1].after) == (Form::Second, 65_538));
}
