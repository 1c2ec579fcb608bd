ghost use Rattle.kc_kit_messages.specs.Laws.{CodesDiffer, FaultsAreExplained, MnemonicsAreExplained, UsesAreExplained, VectorsAreDescribed};

/// Each fault of a source, an object, a library, a hex file, stimuli and other files is explained, and each rule of linking.
pub fn faults_are_explained()
    ensures { FaultsAreExplained }
{}

/// Each kind of undefined use, each request and each status is explained.
pub fn uses_are_explained()
    ensures { UsesAreExplained }
{}

/// Each instruction is explained by its name.
pub fn mnemonics_are_explained()
    ensures { MnemonicsAreExplained }
{}

/// The sentence of each request ends with the vector through which the machine enters its routine.
pub fn vectors_are_described()
    ensures { VectorsAreDescribed }
{}

/// No two rows have one code.
pub fn codes_differ()
    ensures { CodesDiffer }
{}
