// Expected values are those of a model in another language, which made the texts from the words of the format.
ghost use Rattle.std.specs.Prelude.{◌<◌};

use kc_base::{after, first_line, prefix};
use kc_gen::{program, stimuli};
use std::alloc::Global;
use std::test::Fail;

// The checksum Adler-32 of a text.
fn checksum(text: &[u8]) -> u32 {
    let mut sum = 1u32;
    let mut sums = 0u32;
    for byte in text {
        sum = sum.wrapping_add(u32::from(*byte)) % 65_521;
        sums = sums.wrapping_add(sum) % 65_521;
    }
    sums.wrapping_mul(65_536).wrapping_add(sum)
}

// The line of a text with so many lines before it.
fn line_of(text: &[u8], number: u32) -> Option<&[u8]> {
    let mut rest = text;
    for _ in 0..number {
        if rest.is_empty() {
            return None;
        }
        let (_, used) = first_line(rest);
        rest = after(rest, used);
    }
    if rest.is_empty() {
        return None;
    }
    let (len, _) = first_line(rest);
    Some(prefix(rest, len))
}

fn part_of(alloc: Global, number: u16, part: u8) -> Result<Vec<u8>, Fail>
    requires { part < 4 }
{
    if part == 3 {
        Ok(stimuli(alloc, number)?)
    } else {
        Ok(program(alloc, number, part)?)
    }
}

// Part 3 are the stimuli.
#[test]
fn texts_have_their_lengths_checksums_and_lines(rt: HostRuntime) -> Result<(), Fail> {
    let rows: [(u16, u8, usize, u32); 12] = [
        (0, 0, 200, 0x7FA9_2D17),
        (0, 1, 173, 0x1468_27E0),
        (0, 2, 11_187, 0xF861_AB97),
        (0, 3, 29_520, 0xE80A_4AAC),
        (7, 0, 200, 0x7FA9_2D17),
        (7, 1, 173, 0x1517_27E5),
        (7, 2, 11_158, 0x4090_A5D7),
        (7, 3, 29_521, 0xB192_4AC4),
        (65_535, 0, 200, 0x7FA9_2D17),
        (65_535, 1, 173, 0x1517_27E5),
        (65_535, 2, 11_179, 0x72F6_AB15),
        (65_535, 3, 29_521, 0x8E70_4AC0),
    ];
    for (number, part, len, sum) in rows {
        assert!(rt; part < 4);
        let text = part_of(rt.alloc(), number, part)?;
        assert!(rt; text.len() == len, "part {part} of {number}");
        assert!(rt; checksum(text.as_slice()) == sum, "part {part} of {number}");
    }
    let rows: [(u16, u8, u32, &[u8]); 14] = [
        (7, 0, 8, b" LD 18H,#STACK"),
        (7, 1, 11, b" HSO 36H,17"),
        (7, 1, 12, b" HSO 06H,21"),
        (8, 1, 11, b" HSO 36H,10"),
        (7, 2, 10, b" CSEG AT 2006H"),
        (7, 2, 16, b" LD CB,#0000H"),
        (7, 2, 28, b" DCW 7"),
        (7, 2, 29, b" DCW 58988"),
        (7, 2, 1027, b" DCW 43278"),
        (7, 2, 1028, b" END"),
        (65_535, 3, 0, b"@100 HSI0 1"),
        (65_535, 3, 1, b"@363 HSI0 0"),
        (65_535, 3, 1000, b"@231576 HSI0 1"),
        (65_535, 3, 1999, b"@462790 HSI0 0"),
    ];
    for (number, part, place, line) in rows {
        assert!(rt; part < 4);
        let text = part_of(rt.alloc(), number, part)?;
        assert!(rt;
            line_of(text.as_slice(), place) == Some(line),
            "line {place} of part {part} of {number}"
        );
    }
    Ok(())
}
