ghost use Rattle.kc_block_spec.specs.RegisterLaws.{NamedRegistersAnswer, UnnamedReads, UnnamedWrites, OddWordsAreRefused, BothBytesReadAreAsked, BothBytesWrittenAreAsked, ReadsAreMild, WritesKeepProfile, OtherWritesMoveNoPin, LooksAreReads, LevelsShownStay};

/// Each register that a table names answers at its address.
pub fn named_registers_answer<X>()
    ensures { NamedRegistersAnswer X }
{}

/// A byte that no table names is refused as half of a word register, or answered by the further unit, or no register.
pub fn unnamed_bytes_are_refused<X>()
    ensures reads { UnnamedReads X }
    ensures writes { UnnamedWrites X }
{}

/// A word access at an odd address is refused as `OddWord`, and changes nothing.
pub fn odd_words_are_refused<X>()
    ensures { OddWordsAreRefused X }
{}

/// A word access at an even address that is two bytes asks both before either acts.
pub fn both_bytes_are_asked<X>()
    ensures reads { BothBytesReadAreAsked X }
    ensures writes { BothBytesWrittenAreAsked X }
{}

/// A read gives no edge and leaves WSR; it changes status bits, the loaded mark of HSI and the further unit at most.
pub fn reads_are_mild<X>()
    ensures { ReadsAreMild X }
{}

/// A write leaves WSR in the profile.
pub fn writes_keep_profile<X>()
    ensures { WritesKeepProfile X }
{}

/// Writes of port 1, port 2 and IOC1 alone give edges.
pub fn other_writes_move_no_pin<X>()
    ensures { OtherWritesMoveNoPin X }
{}

/// A look shows what a read would answer, where no stimulus comes in the present state.
pub fn looks_are_reads<X>()
    ensures looks { LooksAreReads X }
    ensures levels { LevelsShownStay X }
{}
