ghost use Rattle.kc_asm_encode.specs.Said.{OperationsAreSaid};
ghost use Rattle.kc_asm_encode.specs.Laws.{BranchesHaveLengths, FilledIsSpelled, LengthStays, NumbersAreWords, RelocatableBytesArePaired, OperationsAreInstructions, PointersAreEven, SettledIsSound};

/// Once the bases are known, the bytes of an instruction spell it.
pub fn filled_is_spelled()
    ensures { FilledIsSpelled }
{}

/// The two bytes of a number stand together.
pub fn relocatables_are_paired()
    ensures { RelocatableBytesArePaired }
{}

/// An instruction whose numbers fit their bytes is well formed under the bases.
pub fn settled_is_sound()
    ensures { SettledIsSound }
{}

/// An operation is written in full by instructions of the table.
pub fn operations_are_instructions()
    ensures { OperationsAreInstructions }
{}

/// The length of a generic branch is given by its kind and its form: so an inverse jump leads behind the whole.
pub fn branches_have_lengths()
    ensures { BranchesHaveLengths }
{}

/// How many bytes an operation has depends neither on its place nor on numbers that are not fixed.
pub fn length_stays()
    ensures { LengthStays }
{}

/// The numbers of instructions are words where those of the operands are.
pub fn numbers_are_words()
    ensures { NumbersAreWords }
{}

/// Where the operands of an operation have no fault, the registers of its pointers and indices are even.
pub fn pointers_are_even()
    ensures { PointersAreEven }
{}

/// Under bases an operation without fault, whose numbers fit, says well formed instructions, and its bytes spell them.
pub fn operations_are_said()
    ensures { OperationsAreSaid }
{}
