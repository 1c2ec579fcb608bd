ghost use Rattle.kc_serial.specs.History.{LevelsAreKept, FramesAreShown, ReceivedBytesAreSamples};

/// Whatever accesses come, the port keeps the level that RXD had in the state before.
pub fn levels_are_kept()
    ensures { LevelsAreKept }
{}

/// Whatever accesses come, a frame that has begun shows its ten levels and then ends.
pub fn frames_are_shown()
    ensures { FramesAreShown }
{}

/// Whatever accesses come, a byte that is received is the list of the levels of RXD at its eight sample states.
pub fn received_bytes_are_samples()
    ensures { ReceivedBytesAreSamples }
{}
