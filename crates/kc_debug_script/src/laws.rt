ghost use Rattle.kc_debug_script.specs.Laws.{CommandsAreReadBack, MapsAreEntries, MapsAreReadBack, ScriptsAreCommands, ScriptsAreReadBack};

/// A script is lines that are commands, at most 65,535 of them and at most 16 breakpoints; a fault is reported at the first line that
/// makes it none.
pub fn scripts_are_commands()
    ensures { ScriptsAreCommands }
{}

/// A line map is lines that are entries, with rising addresses from 2000H on; a fault is reported at the first line that makes it
/// none.
pub fn maps_are_entries()
    ensures { MapsAreEntries }
{}

/// Each command is read of the line that is written of it.
pub fn commands_are_read_back()
    ensures { CommandsAreReadBack }
{}

/// Commands within the limits of a script are read of the text that is written of them.
pub fn scripts_are_read_back()
    ensures { ScriptsAreReadBack }
{}

/// Entries with rising addresses from 2000H on are read of the text that is written of them, which is that of a linker's line
/// map.
pub fn maps_are_read_back()
    ensures { MapsAreReadBack }
{}
