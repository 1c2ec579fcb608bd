// The sources of a made input.
ghost use Rattle.std.specs.Prelude.{◌≡◌, ◌≤◌, ◌<◌, ◌+◌, ◌*◌, ◌++◌, [], ◌∷◌, length, decimal, IfOk, OnOk};
ghost use Rattle.kc_base.specs.Limits.{file_limit};
ghost use Rattle.kc_gen.specs.Sources.{main_text, crank_text, log_text, word_line, word_lines, program_text};

use crate::random::random_after;
use kc_base::{NoMemory, put_number};
use std::alloc::Global;

const MAIN: &[u8] = b"MAIN MODULE
 PUBLIC TIME
 EXTRN CRANK,LOGINI
 RSEG AT 1CH
TIME: DSW 1
 CSEG AT 2004H
 DCW CRANK
 CSEG
 LD 18H,#STACK
 CALL LOGINI
 LDB 03H,#01H
 LDB 15H,#01H
 LDB 08H,#0CH
 EI
L: SJMP L
 SSEG 16
 END
";

const CRANK: &[u8] = b"CRANKS MODULE
 PUBLIC CRANK
 RSEG
 EXTRN TIME
 CSEG
HSO MACRO CMD,DT
 LDB 06H,#CMD
 ADD 04H,TIME,#DT
 ENDM
CRANK: PUSHA
 LD TIME,04H
";

const CRANK_END: &[u8] = b" POPA
 RET
 END
";

const LOG: &[u8] = b"LOGS MODULE
 PUBLIC LOGINI
 RSEG
 EXTRN TIME
 RSEG AT 40H
CB: DSB 8
 RSEG AT 60H
LOG: DSW 8
 CSEG AT 2046H
 DCW CB
 CSEG AT 2006H
 DCW AGAIN
 CSEG
LOGINI: LDB 14H,#01H
 LD 04H,#0008H
 LDB 14H,#00H
 LD CB,#0000H
 LD CB+2,#TIME
 LD CB+4,#LOG
 LDB CB+6,#1
 EPTS
 RET
AGAIN: PUSHA
 LDB 14H,#01H
 LD 04H,#0008H
 LDB 14H,#00H
 POPA
 RET
";

const LOG_END: &[u8] = b" END
";

/// How many words of data a made input has.
const WORD_COUNT: u16 = 1000;

// A line of a text before a number, the number, and the end of the line.
fn put_line(text: &mut Vec<u8>, before: &[u8], number: u16) -> Result<(), NoMemory>
    ensures text { OnOk result (text.new.items ≡ text.old.items ++ (before.now ++ decimal number ++ 10 ∷ [])) }
    ensures short { OnOk result (length text.new.items ≤ length text.old.items + length before.now + 6) }
{
    text.extend_from_slice(before)?;
    put_number(text, u128::from(number))?;
    text.push(b'\n')?;
    Ok(())
}

fn crank(alloc: Global, rise: u16) -> Result<Vec<u8>, NoMemory>
    requires { rise ≤ 17 }
    ensures text { IfOk result (λ text. text.items ≡ crank_text rise (rise + 4)) }
    ensures short { IfOk result (λ text. length text.items ≤ file_limit) }
{
    let mut text = Vec::from_slice(alloc, CRANK)?;
    put_line(&mut text, b" HSO 36H,", rise)?;
    put_line(&mut text, b" HSO 06H,", rise + 4)?;
    text.extend_from_slice(CRANK_END)?;
    Ok(text)
}

// Words of data: the random numbers.
fn put_words(text: &mut Vec<u8>, number: u16) -> Result<(), NoMemory>
    ensures text { OnOk result (text.new.items ≡ text.old.items ++ word_lines number WORD_COUNT) }
    ensures short { OnOk result (length text.new.items ≤ length text.old.items + 11 * WORD_COUNT) }
{
    let mut value = number;
    for count in 0..WORD_COUNT {
        put_line(text, b" DCW ", value)?;
        value = random_after(value);
    }
    Ok(())
}

fn log(alloc: Global, number: u16) -> Result<Vec<u8>, NoMemory>
    ensures text { IfOk result (λ text. text.items ≡ log_text number) }
    ensures short { IfOk result (λ text. length text.items ≤ file_limit) }
{
    let mut text = Vec::from_slice(alloc, LOG)?;
    put_words(&mut text, number)?;
    text.extend_from_slice(LOG_END)?;
    Ok(text)
}

/// The text of a source of the made input of a number: part 0 is the module that sets the board up, 1 the one that
/// schedules pulses, 2 the one that logs them, with 1,000 words of data. It is short enough to be read as a file.
pub fn program(alloc: Global, number: u16, part: u8) -> Result<Vec<u8>, NoMemory>
    requires { part < 3 }
    ensures text { IfOk result (λ text. text.items ≡ program_text number part) }
    ensures short { IfOk result (λ text. length text.items ≤ file_limit) }
{
    match part {
        0 => Ok(Vec::from_slice(alloc, MAIN)?),
        1 => crank(alloc, 10 + number % 8),
        _ => log(alloc, number),
    }
}
