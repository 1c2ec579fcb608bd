// The order of a listing's rows, which was worked by hand.
ghost use Rattle.std.specs.Prelude.{◌≤◌, length};

use kc_asm_list::{Spot, rows};
use kc_base::Text;
use kc_obj_module::{Content, Module, SegKind, Segment};
use std::test::*;

// Three bytes of relocatable code.
fn module(rt: &HostRuntime) -> Result<Module, Fail> {
    let alloc = rt.alloc();
    let mut segments = Vec::new(alloc);
    segments.push(Segment {
        kind: SegKind::Code,
        at: None,
        length: 3,
    })?;
    let mut contents = Vec::new(alloc);
    contents.push(Content {
        piece: 0,
        offset: 0,
        bytes: Text::of(alloc, b"\xfd\xfb\xf8").ok().ok_or("memory")?,
    })?;
    let made = Module::new(
        Text::of(alloc, b"M").ok().ok_or("memory")?,
        segments,
        Vec::new(alloc),
        Vec::new(alloc),
        contents,
        Vec::new(alloc),
        None,
    );
    Ok(made.ok_or("a rule is broken")?)
}

// A statement of one byte at a place.
fn spot(line: u32, depth: usize, offset: u32) -> Spot {
    let place = u64::from(offset);
    Spot {
        line,
        depth,
        labelled: false,
        kind: SegKind::Code,
        piece: 1,
        at: None,
        before: place,
        place,
        after: place + 1,
    }
}

const SOURCE: &[u8] = b" DELAY
 CLRC
";

const LISTING: &[u8] = b"      1                                    DELAY
      1 +1 C'0000 FD
      1 +12 C'0001 FB
      2    C'0002 F8                       CLRC
";

/// Statements stand behind a later line's, and are still listed in their order with their own line.
#[test]
fn rows_go_by_lines(rt: HostRuntime) -> Result<(), Fail> {
    let module = module(&rt)?;
    let spots = [spot(2, 0, 2), spot(1, 1, 0), spot(1, 12, 1)];
    let listing = rows(rt.alloc(), SOURCE, &module, spots.to_vec(rt.alloc())?)
        .ok()
        .ok_or("memory")?;
    assert!(rt; listing.as_slice() == LISTING);
    Ok(())
}
