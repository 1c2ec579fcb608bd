// Laws of libraries. Each function does nothing when it runs.
ghost use Rattle.kc_lib.specs.Laws.{ReadIsLibrary, LibraryIsRead, DoublesAreReported, TakenOnce};

/// Bytes that are read as modules are a library of those modules.
pub fn read_is_library()
    ensures { ReadIsLibrary }
{}

/// A library of modules is read as those modules, in their order.
pub fn library_is_read()
    ensures { LibraryIsRead }
{}

/// A name is reported as given twice exactly where two modules give one, and it is the first one that comes again.
pub fn doubles_are_reported()
    ensures { DoublesAreReported }
{}

/// Of the members of a library modules take one list at most.
pub fn taken_once()
    ensures { TakenOnce }
{}
