// The texts of `--help` and `--version`.
ghost use Rattle.std.specs.Prelude.{◌≡◌, map};
ghost use Rattle.kc_kit_answer.specs.Help.{help_rows};

/// A command, and the lines of `--help` on it. A tuple, since definitions read the table.
pub type Row = (&'static str, &'static str);

/// The text of `--help` in parts, each with the command that it is on; the first and the last are on none.
pub static HELP: [Row; 16] = [
    (
        "",
        "kc96 assembles, links and runs programs of the 80C196KC.
",
    ),
    (
        "run",
        "  kc96 run NAME.. --states N      assemble and link sources, run them for N state times, print the trace
       [--lives K]                run on after a reset, for K lives at most, with a watchdog
       [--stim FILE]              drive the input pins as a stimulus file says
       [--analog FILE]            drive the analogue inputs as an analogue file says
       [--reg A-B] [--code A-B]   place registers and code from A to B
       [--data A-B] [--stack N]   place data from A to B, reserve N bytes of stack
       [--profile FILE]           write a profile: states by address and line, latencies, depth of the stack
       [--cover FILE]             write the coverage of lines and of conditional jumps, for lcov
",
    ),
    (
        "asm",
        "  kc96 asm NAME --out FILE        assemble the source NAME to the object FILE
       [--list FILE]              write a listing: each line with its address and its bytes
",
    ),
    (
        "lib",
        "  kc96 lib OBJ.. --out FILE       pack objects into the library FILE
",
    ),
    (
        "link",
        "  kc96 link OBJ.. --out FILE      link objects to the Intel hex file FILE
       [--lib FILE]               take the modules that they need from a library
       [--lines FILE]             write a line map: the address of each source line
       [--map FILE]               write a map: the addresses of pieces and names, and what is free
       [--reg A-B] [--code A-B]   place registers and code from A to B
       [--data A-B] [--stack N]   place data from A to B, reserve N bytes of stack
",
    ),
    (
        "hex",
        "  kc96 hex NAME --states N        run the Intel hex file NAME for N state times, print the trace
       [--lives K]                run on after a reset, for K lives at most, with a watchdog
       [--stim FILE]              drive the input pins as a stimulus file says
       [--analog FILE]            drive the analogue inputs as an analogue file says
       [--profile FILE]           write a profile: states by address, latencies, depth of the stack
",
    ),
    (
        "dis",
        "  kc96 dis NAME A-B               disassemble the hex file NAME from address A to B
",
    ),
    (
        "debug",
        "  kc96 debug NAME SCRIPT          debug the hex file NAME by the commands of SCRIPT
       [--lives K]                run on after a reset, for K lives at most, with a watchdog
       [--lines FILE]             show source lines by a line map
       [--stim FILE]              drive the input pins as a stimulus file says
       [--analog FILE]            drive the analogue inputs as an analogue file says
",
    ),
    (
        "vcd",
        "  kc96 vcd TRACE --out FILE       write a trace as waveforms (VCD); TRACE - is standard input
       [--stim FILE]              show the input pins that a stimulus file drives
       [--analog FILE]            show the analogue inputs that an analogue file drives
       [--clock HZ]               set the frequency of the oscillator, else 20000000 Hz
",
    ),
    (
        "check",
        "  kc96 check TRACE RULES          check a trace by timing rules; TRACE - is standard input
       [--stim FILE]              read the edges of input pins from a stimulus file
       [--clock HZ]               set the frequency of the oscillator, else 20000000 Hz
",
    ),
    (
        "bound",
        "  kc96 bound NAME FROM            bound the states of the routine at FROM in the hex file NAME, for every input
       [--to A]                   end the routine at A too, beside its return
       [--notes FILE]             read how often loops turn, where jumps lead, how many words blocks have
       [--map FILE]               take names of addresses from a linker's map
       [--lines FILE]             take lines of sources from a line map
       [--entered]                begin as an interrupt has entered the routine, not as a call has
       [--latency]                print how long interrupts are not asked for, and how long one waits
       [--worst]                  print a way through the routine that costs most, and what each address takes
",
    ),
    (
        "gen",
        "  kc96 gen N                      generate a program from the number N, run it, count its events
",
    ),
    (
        "explain",
        "  kc96 explain CODE               explain a fault (E07), an undefined use (kind7), a request (request3),
                                  a status (status4) or an instruction (LD)
",
    ),
    (
        "--help",
        "  kc96 --help                     print this help; behind a command, the part on it
",
    ),
    (
        "--version",
        "  kc96 --version                  print the name and the version
",
    ),
    (
        "",
        "status: 0 done, 1 wrong words, 2 file missing or code unknown, 3 fault in a source, 4 fault in another file,
        5 rule of linking broken, 6 undefined use, 7 read failed, 8 write failed, 9 out of memory, 10 timing rule broken or
        no bound found
",
    ),
];

/// The line of `--version`.
pub const VERSION: &str = "kc96 0.1.0\n";

/// The text of `--help` in parts.
pub(crate) fn help_rows() -> &'static [Row]
    ensures { map (λ row. (row.0.now, row.1.now)) result.now ≡ help_rows }
{
    &HELP
}
