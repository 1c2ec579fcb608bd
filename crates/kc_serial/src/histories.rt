//! The serial port over whole histories: laws of its frames, its receptions and what it reports of them, without code.

ghost use Rattle.kc_serial.specs.Schedules.{SchedulesAreOne, FramesAreScheduled, LinesShowFrames};
ghost use Rattle.kc_serial.specs.Receptions.{ReceptionsAreOne, FallsAreCaught, BytesAreLast};
ghost use Rattle.kc_serial.specs.Known.{EndsAreRequested, StatusIsByHistory};
ghost use Rattle.kc_serial.specs.Worked.{DrivenFramesAreReceived};

/// What is written, and when, determines all frames: no two schedules are of one history.
pub fn schedules_are_one()
    ensures { SchedulesAreOne }
{}

/// A frame begins exactly where a byte is written and none is under way, and else at the end of the one that is, with the byte
/// that was written last.
pub fn frames_are_scheduled()
    ensures { FramesAreScheduled }
{}

/// TXD shows the levels of the frame under way, and 1 where none is.
pub fn lines_show_frames()
    ensures { LinesShowFrames }
{}

/// RXD and what is written determine all receptions.
pub fn receptions_are_one()
    ensures { ReceptionsAreOne }
{}

/// A reception begins exactly where RXD falls, the port may receive and none is under way; it is dropped where its first sample
/// is 1 or the port may receive no more, and completes in the state of its tenth sample.
pub fn falls_are_caught()
    ensures { FallsAreCaught }
{}

/// SBUF reads as the byte of the last reception that completed.
pub fn bytes_are_last()
    ensures { BytesAreLast }
{}

/// Requests come exactly where a frame ends, ten bits after its start, and where a reception completes.
pub fn ends_are_requested()
    ensures { EndsAreRequested }
{}

/// SP_STAT reports what has happened since it was read last, and whether a byte waits.
pub fn status_is_by_history()
    ensures { StatusIsByHistory }
{}

/// Each byte that is driven on RXD as a frame, at each rate, is received.
pub fn driven_frames_are_received()
    ensures { DrivenFramesAreReceived }
{}
