// The meanings of all codes, as `docs/LANGUAGE.md`, `docs/OBJECT.md` and `docs/GUIDE.md` have them.
ghost use Rattle.std.specs.Prelude.{◌≡◌, map};
ghost use Rattle.std.specs.Option.{option_map};
ghost use Rattle.kc_kit_messages.specs.Meanings.{said, source_rows, input_rows, run_rows};

use crate::meaning::{Example, Meaning};

/// A code, its sentence, and what is wrong and how it is right. A tuple, since definitions read the table.
pub(crate) type Row = (
    &'static str,
    &'static str,
    Option<(&'static str, &'static str)>,
);

macro_rules! row {
    ($code:literal, $sentence:literal) => {
        ($code, $sentence, None)
    };
    ($code:literal, $sentence:literal; $wrong:literal => $right:literal) => {
        ($code, $sentence, Some(($wrong, $right)))
    };
}

static SOURCES: [Row; 24] = [
    row!("E01", "a line is no statement, or has a character that stands nowhere, a string without its end or a name of over 31 characters"; "LOOP NOP" => "LOOP: NOP"),
    row!("E02", "the source has no END"; " NOP" => " NOP\n END"),
    row!(
        "E03",
        "a line has over 255 characters, or over 255 tokens once its parameters are replaced"
    ),
    row!("E04", "the source has over 65,535 lines once all macros are replaced"; " REPT 65535\n NOP\n ENDM" => " REPT 100\n NOP\n ENDM"),
    row!("E05", "macros or IFs stand in one another over 16 deep"; "M MACRO\n M\n ENDM\n M" => "M MACRO\n NOP\n ENDM\n M"),
    row!("E06", "a name is defined twice"; "A: NOP\nA: NOP" => "A: NOP\nB: NOP"),
    row!("E07", "a name is not defined; or IF or REPT asks for one that has no fixed value yet"; " LD 20H,#SPEED" => "SPEED EQU 10\n LD 20H,#SPEED"),
    row!("E08", "the module has over 16,384 names"),
    row!("E09", "a number is badly written or too large: over FFFFH, in DCL over FFFFFFFFH"; " DCW 70000" => " DCL 70000"),
    row!("E10", "a value that has to be fixed depends on where a piece is placed"; "A: NOP\n DSB A" => "SIZE EQU 4\n DSB SIZE"),
    row!("E11", "a division by 0"; "A EQU 5/0" => "A EQU 5/2"),
    row!("E12", "a value does not fit its place: a byte is over 255, a bit over 7, a count over 15, or a pointer is odd or an external"; " LDB 20H,#-1" => " LDB 20H,#LOW -1"),
    row!("E13", "arithmetic that the linker cannot do with values that depend on where a piece is placed"; "A: NOP\n DCW -A" => "A: NOP\n DCW A+1"),
    row!("E14", "an operation has other operands than it takes"; " ADD 20H" => " ADD 20H,22H"),
    row!("E15", "a line that begins or ends a macro, a repetition or a condition has no match, or not its form"; " IF 1\n NOP" => " IF 1\n NOP\n ENDIF"),
    row!("E16", "a macro is called with more arguments than it has parameters"; "M MACRO A\n ENDM\n M 1,2" => "M MACRO A,B\n ENDM\n M 1,2"),
    row!("E17", "ORG goes backwards, a piece goes past FFFFH, or a stack has over 65,535 bytes"; " CSEG AT 2080H\n NOP\n ORG 2000H" => " CSEG AT 2080H\n NOP\n ORG 2100H"),
    row!("E18", "an instruction or data stands outside CSEG"; " RSEG\n NOP" => " CSEG\n NOP"),
    row!("E19", "a jump does not reach its target"; "L: DSB 200\n SJMP L-1000H" => "L: DSB 200\n BR L"),
    row!("E20", "PUBLIC of a name that is not defined here, or that counts from an external"; " PUBLIC NOWHERE" => " PUBLIC HERE\nHERE: NOP"),
    row!("E21", "EXTRN of a name that is defined here, or that is taken already"; " EXTRN A\nA: NOP" => " EXTRN A\nB: NOP"),
    row!("E22", "AT or a line leads out of the region of its segment"; " CSEG AT 1000H" => " CSEG AT 2080H"),
    row!("E23", "MODULE is not the first statement, or stands twice"; " NOP\nM MODULE" => "M MODULE\n NOP"),
    row!("E24", "a generic branch goes to what is no label, no external and not `$`"; " BE 5" => "L: NOP\n BE L"),
];

static INPUTS: [Row; 31] = [
    row!(
        "O01",
        "an object has a record of a type that does not come at this place"
    ),
    row!(
        "O02",
        "an object ends within a record or before its last one"
    ),
    row!(
        "O03",
        "a number in an object is out of range, or names no piece or external"
    ),
    row!(
        "O04",
        "an object is not in its one spelling: something stands in another order, cut or length"
    ),
    row!("O05", "an object has bytes behind its last record"),
    row!("O06", "what stands for a name in an object is none"),
    row!(
        "B01",
        "a library begins with other bytes, or has not 1 to 64 members"
    ),
    row!("B02", "a library ends before its last member does"),
    row!("B03", "a member of a library is no object"),
    row!("B04", "a name is public in two members of a library"),
    row!(
        "B05",
        "the modules that are linked and the members that they need are over 64 together"
    ),
    row!("B06", "a library has bytes behind its last member"),
    row!("H01", "a line of a hex file is no record"; ":00000001" => ":00000001FF"),
    row!("H02", "the sum of a record of a hex file is wrong"; ":00000001FE" => ":00000001FF"),
    row!(
        "H03",
        "a record of a hex file has a type from 06 on, or one of type 01, 02 or 04 has another length or value"
    ),
    row!(
        "H04",
        "a data record of a hex file lies below 2000H or goes past FFFFH"
    ),
    row!("H05", "a record of a hex file stands behind the end record"),
    row!("H06", "a hex file has no end record"),
    row!("LONG", "the file has over 1,048,576 bytes"),
    row!("BADLINE", "a line of a stimulus file is no stimulus (@TIME PIN LEVEL, as @100 HSI0 1) and no wire (= OUTPUT INPUT, as = HSO0 HSI0), has a time over 10^15, or is a wire behind a stimulus"; "@100 HSI0 high" => "@100 HSI0 1"),
    row!("WIRED", "a line of a stimulus file gives an input that has a wire another wire, or a stimulus"; "= HSO0 HSI0\n@100 HSI0 1" => "= HSO0 HSI0\n@100 HSI1 1"),
    row!("FALLING", "the time of a stimulus is below that of the one before"; "@100 HSI0 1\n@90 HSI0 0" => "@90 HSI0 1\n@100 HSI0 0"),
    row!("TWICE", "a stimulus file gives a pin two levels at one time"; "@100 HSI0 1\n@100 HSI0 0" => "@100 HSI0 1\n@101 HSI0 0"),
    row!("TOOMANY", "a stimulus file has over 65,536 stimuli"),
    row!("BADANALOG", "a line of an analogue file is no channel with its value (@TIME CHANNEL VALUE, as @100 0 512), is earlier than the one before, comes twice at one time, or is one too many"; "@100 0 1024" => "@100 0 1023"),
    row!("BADCOMMAND", "a line of a script is no command of the debugger, or is one too many"; "b 94" => "b 2094"),
    row!("BADMAP", "a line of a line map is no address, module and line, or its address is not above the one before"; "20aA MAIN 7" => "20AA MAIN 7"),
    row!("BADTRACE", "a line is none that a board prints there, or the line X at the end is lacking"; "X 4 stopped" => "X 4 spent"),
    row!("BADRULE", "a line of a rules file is no mark and no rule"; "never P10" => "never P10 rise"),
    row!("BADNAMES", "a line of a linker's map is none of public, number, piece, stack and free, or has no value and names behind the first two"; "public 94 LOOP MAIN" => "public 2094 LOOP MAIN"),
    row!("BADNOTE", "a line of a notes file is no note, names an address that is unknown or not in 2000H-5FFFH, says again what a line before has said of its address, or is one too many"; "loop 2080 03" => "loop 2080 3"),
];

static RUNS: [Row; 48] = [
    row!("unresolved", "a module takes a name that no module gives; or takes STACK, and there is no stack"; " EXTRN SPEED\n CSEG\n LD 20H,#SPEED" => "SPEEDS MODULE\n PUBLIC SPEED\nSPEED EQU 10"),
    row!("duplicate", "two modules give one name"),
    row!("overlap", "two absolute pieces have this address"; " CSEG AT 2080H\n NOP\n CSEG AT 2080H\n NOP" => " CSEG AT 2080H\n NOP\n CSEG AT 2081H\n NOP"),
    row!("capacity", "a piece has no room in the range of its kind"),
    row!(
        "range",
        "a number does not fit the bytes at this offset of a piece"
    ),
    row!("kind1", "a word at an odd address"; " LD 20H,2001H" => " LD 20H,2002H"),
    row!("kind2", "a long register at an address that 4 does not divide"; " MULU 22H,20H" => " MULU 24H,20H"),
    row!(
        "kind3",
        "an opcode that is reserved: EEH, or FEH before a byte that has no signed form"
    ),
    row!(
        "kind4",
        "HSO_TIME is written while the holding register is loaded"
    ),
    row!(
        "kind5",
        "a command on Timer 2 while it counts every state, or the reverse"
    ),
    row!("kind6", "HSO_TIME is written with channel 12 or 13"; " LDB 06H,#0CH\n LD 04H,#10" => " LDB 06H,#20H\n LD 04H,#10"),
    row!(
        "kind7",
        "a register that is not there in this window, as the watchdog, 0AH, without --lives"
    ),
    row!("kind8", "a value of WSR that is no window"; " LDB 14H,#02H" => " LDB 14H,#01H"),
    row!(
        "kind9",
        "the control block of a cycle of the transfer server is bad: its place, its mode or its number of transfers"
    ),
    row!("kind10", "a division by 0"; " LD 22H,#0\n DIVU 20H,22H" => " LD 22H,#5\n DIVU 20H,22H"),
    row!("kind11", "a write to 2000H-5FFFH, where the program stands"; " ST 20H,2000H" => " ST 20H,6000H"),
    row!(
        "kind12",
        "an access to 1FFEH or 1FFFH, where nothing is, or a fetch from there or from below 0200H"
    ),
    row!("kind13", "a byte of a register that is a word"; " LDB 20H,0AH" => " LD 20H,0AH"),
    row!("kind14", "IDLPD with a key other than 1 and 2"; " IDLPD #3" => " IDLPD #1"),
    row!("request0", "overflow of a timer, vector 2000H"),
    row!("request1", "the end of an A/D conversion, vector 2002H"),
    row!("request2", "HSI data, vector 2004H"),
    row!("request3", "an HSO event, vector 2006H"),
    row!("request4", "HSI0 rises, vector 2008H"),
    row!("request5", "a software timer, vector 200AH"),
    row!("request6", "the serial port, vector 200CH"),
    row!("request7", "EXTINT or P0.7 rises, vector 200EH"),
    row!("request8", "the serial port has sent a byte, vector 2030H"),
    row!(
        "request9",
        "the serial port has received a byte, vector 2032H"
    ),
    row!(
        "request10",
        "the fourth entry of the HSI queue, vector 2034H"
    ),
    row!("request11", "Timer 2 is captured, vector 2036H"),
    row!("request12", "overflow of Timer 2, vector 2038H"),
    row!("request13", "EXTINT rises, vector 203AH"),
    row!("request14", "the HSI queue is full, vector 203CH"),
    row!("request15", "NMI rises, vector 203EH"),
    row!("request16", "TRAP, through vector 2010H"),
    row!(
        "request17",
        "an opcode that no instruction has, through vector 2012H"
    ),
    row!(
        "status0",
        "done; a run has ended as spent, in powerdown or by a reset"
    ),
    row!("status1", "the words are no command, or name an address that is not known"; "kc96 run main.a96" => "kc96 run main.a96 --states 1000"),
    row!(
        "status2",
        "a file, or a code that is to be explained, is not there"
    ),
    row!("status3", "a source has a fault"),
    row!(
        "status4",
        "an object, a library, a hex, stimulus or analogue file, a script, a map, a trace, a rules or notes file leaves its form, or a file is too long"
    ),
    row!("status5", "a rule of linking is broken"),
    row!("status6", "the run has ended in an undefined use"),
    row!("status7", "a file could not be read"),
    row!("status8", "the output or a file could not be written"),
    row!("status9", "memory has run out"),
    row!("status10", "a rule is broken, or no bound is found"),
];

/// The faults of sources.
pub(crate) fn sources() -> &'static [Row]
    ensures { map (λ row. record { code = row.0.now; sentence = row.1.now; example = option_map (λ e. (e.0.now, e.1.now)) row.2 }) result.now ≡ source_rows }
{
    &SOURCES
}

/// The faults of all other files.
pub(crate) fn inputs() -> &'static [Row]
    ensures { map (λ row. record { code = row.0.now; sentence = row.1.now; example = option_map (λ e. (e.0.now, e.1.now)) row.2 }) result.now ≡ input_rows }
{
    &INPUTS
}

/// Rules of linking, undefined uses, requests and statuses.
pub(crate) fn runs() -> &'static [Row]
    ensures { map (λ row. record { code = row.0.now; sentence = row.1.now; example = option_map (λ e. (e.0.now, e.1.now)) row.2 }) result.now ≡ run_rows }
{
    &RUNS
}

/// What a row says.
pub(crate) fn meaning_in(row: &Row) -> Meaning
    ensures { said result ≡ record { code = row.now.0.now; sentence = row.now.1.now; example = option_map (λ e. (e.0.now, e.1.now)) row.now.2 } }
{
    let (code, sentence, example) = *row;
    let example = match example {
        Some((wrong, right)) => Some(Example { wrong, right }),
        None => None,
    };
    Meaning {
        code,
        sentence,
        example,
    }
}
