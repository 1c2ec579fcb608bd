//! The peripheral units of the board joined: all of them in one state time, which of them a Tick touches, the data beside them
//! (the board registers), and their registers below 0018H.
//! It stands on the data of the units (`kc_timers`, `kc_hso`, `kc_hsi`, `kc_intc`, `kc_extra`) and on stimuli (`kc_stim`). It
//! holds plain data, the tables of registers, and definitions with their laws.
//! In window 0 a word read of 0AH is Timer 1, 1 in state 9; a byte read of 0AH is refused as `Kind::ByteAccess`, since it is half
//! of a word register.
#![tactic(auto)]

ghost use Rattle.kc_block_spec.specs.Laws.{QuietTicksAreRests, QuietTicksKeepBoardRegisters, CalmTicksAreNotWorked, UnworkedTicksAreCalm, EighteenEdges, FourTouched};
ghost use Rattle.kc_block_spec.specs.Rows.{Timer2Untouched, HsoUntouched, HsiUntouched, FurtherUntouched};

mod board_registers;
mod register_laws;
mod registers;
mod table;

pub use board_registers::BoardRegisters;
pub use register_laws::{
    both_bytes_are_asked, looks_are_reads, named_registers_answer, odd_words_are_refused,
    other_writes_move_no_pin, reads_are_mild, unnamed_bytes_are_refused, writes_keep_profile,
};
pub use registers::{ReadableByte, ReadableWord, Window, WritableByte, WritableWord};
pub use table::{
    Register, Uses, readable_byte, readable_everywhere, readable_word, writable_byte,
    writable_everywhere, writable_word,
};

/// A Tick in which nothing is worked lets each unit go on by itself, keeps all data beside the units, gives no edge and
/// touches no unit.
pub fn quiet_ticks_are_rests<X>()
    ensures rests { QuietTicksAreRests X }
    ensures board_registers { QuietTicksKeepBoardRegisters X }
{}

/// A Tick is not worked exactly where no input has an edge and each unit by itself is quiet.
pub fn calm_ticks_are_not_worked<X>()
    ensures calm { CalmTicksAreNotWorked X }
    ensures unworked { UnworkedTicksAreCalm X }
{}

/// A unit that a Tick does not touch goes on by itself, whatever else the Tick does; and Timer 2's control stays.
pub fn untouched_units_go_on<X>()
    ensures timer2 { Timer2Untouched X }
    ensures hso { HsoUntouched X }
    ensures hsi { HsiUntouched X }
    ensures further { FurtherUntouched X }
{}

/// A change of the printed pins gives at most eighteen edges.
pub fn eighteen_edges()
    ensures { EighteenEdges }
{}

/// A Tick touches at most four units.
pub fn four_touched<X>()
    ensures { FourTouched X }
{}
