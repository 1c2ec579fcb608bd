ghost use Rattle.kc_source.specs.Clear.{NamesAreClear};

/// In lines without a fault a name is defined by one label or one EQU, or by SET alone; a name that EXTRN takes is taken
/// once and defined nowhere; a name that PUBLIC gives is defined.
pub fn names_are_clear()
    ensures { NamesAreClear }
{}
