/// A horizontal window over the special function registers, by its value of WSR.
#[derive(Clone, Copy, PartialEq, Eq, Drop)]
pub enum Window {
    Window0,
    Window1,
    Window15,
}

/// A special function register that is read as a byte (80C196KC User's Manual, "Special Function Registers").
#[derive(Clone, Copy, Drop)]
pub enum ReadableByte {
    /// Reads 0.
    Zeros,
    IntMask,
    IntMask1,
    IntPend,
    IntPend1,
    Wsr,
    HsiStatus,
    Port0,
    Port1,
    Port2,
    Ios0,
    Ios1,
    Ios2,
    Ioc3,
}

/// A special function register that is written as a byte.
#[derive(Clone, Copy, Drop)]
pub enum WritableByte {
    /// Ignores writes.
    Zeros,
    IntMask,
    IntMask1,
    IntPend,
    IntPend1,
    Wsr,
    HsiMode,
    HsoCommand,
    Port1,
    Port2,
    Ioc0,
    Ioc1,
    Ioc2,
    Ioc3,
}

/// A special function register that is read as a word.
#[derive(Clone, Copy, Drop)]
pub enum ReadableWord {
    HsiTime,
    Timer1,
    Timer2,
    T2Capture,
    PtsSelect,
    PtsService,
}

/// A special function register that is written as a word.
#[derive(Clone, Copy, Drop)]
pub enum WritableWord {
    HsoTime,
    Timer2,
    PtsSelect,
    PtsService,
}
