ghost use Rattle.kc_events.specs.Laws.{LivesAreLives, OneReading, OneTrace, StepsMakeLives, TracesAreRead};

/// What the board prints is read as the lines that were printed.
pub fn traces_are_read()
    ensures { TracesAreRead }
{}

/// A text is read as one list of lines at most.
pub fn one_trace()
    ensures { OneTrace }
{}

/// A text is that of one run, or has one first line that no board prints there, and not both.
pub fn one_reading()
    ensures { OneReading }
{}

/// The steps of a run make up its lives.
pub fn steps_make_lives()
    ensures { StepsMakeLives }
{}

/// What happens in a life stands in the order of states.
pub fn lives_are_lives()
    ensures { LivesAreLives }
{}
