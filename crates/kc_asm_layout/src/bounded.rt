//! The table of sizes of a module.

ghost use Rattle.std.specs.Prelude.{◌≡◌};
ghost use Rattle.kc_asm_layout.specs.Bounds.{AreBounded};

use crate::size_record::SizeRecord;
use std::marker::Model;

/// The table of sizes of a module: a size record for each of its statements, of which there are at most 65,536. The place of a statement is
/// divisible by 4 at most, a statement goes on by at most 16,777,215 bytes, and the numbers of pieces are below 131,072.
#[derive(Drop)]
pub struct ModuleSizes {
    size_records: Vec<SizeRecord>,
}

impl Model for ModuleSizes {
    ghost use Rattle.std.specs.Prelude.{List};
    ghost use Rattle.kc_asm_layout.specs.declared.size_record.SizeRecord.{SizeRecord as SizeRecordOf};
    ghost use Rattle.kc_asm_layout.specs.Bounds.{AreBounded};

    ghost Value = { List SizeRecordOf };

    ghost invariant = { λ o. AreBounded o.size_records.items };

    ghost view = { λ o. o.size_records.items };
}

impl ModuleSizes {
    /// The table of sizes that has these size records.
    pub(crate) fn of(size_records: Vec<SizeRecord>) -> ModuleSizes
        requires { AreBounded size_records.items }
        ensures { result ≡ size_records.items }
    {
        ModuleSizes { size_records }
    }

    /// The size record of each statement.
    pub fn size_records(&self) -> &[SizeRecord]
        ensures value { result.now ≡ self.now }
        ensures bounded { AreBounded self.now }
    {
        self.size_records.as_slice()
    }
}
