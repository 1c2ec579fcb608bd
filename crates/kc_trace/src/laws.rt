ghost use Rattle.kc_trace.specs.Laws.{TextsJoin, RecordsJoin};

/// A text that is put, and then another, are one text that is put.
pub fn texts_join()
    ensures { TextsJoin }
{}

/// Records that are put, and then others, are one list of records that is put.
pub fn records_join()
    ensures { RecordsJoin }
{}
