ghost use Rattle.kc_convert.specs.Reading.{FilesGiveValues};
ghost use Rattle.kc_convert.specs.Converted.{ResultsAreConverted, EndsAreKnown};
ghost use Rattle.kc_convert.specs.Pulse.{PulsesAreByWidths};

/// Whatever accesses and starts come, the result is that of the last conversion that no later one ended, by the value that
/// its channel had 8 states after its start.
pub fn results_are_converted()
    ensures { ResultsAreConverted }
{}

/// Whatever accesses and starts come, request 1 comes in exactly the states in which such a conversion has its result.
pub fn ends_are_known()
    ensures { EndsAreKnown }
{}

/// Whatever is written, an output is high in the states of a period below the width that was written last before it.
pub fn pulses_are_by_widths()
    ensures { PulsesAreByWidths }
{}

/// The values that a file gives are ten bits each, of inputs that there are, in the order of their times.
pub fn files_give_values()
    ensures { FilesGiveValues }
{}
