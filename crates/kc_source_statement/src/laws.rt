ghost use Rattle.kc_source_statement.specs.Forms.{OperandsHaveForms};
ghost use Rattle.kc_source_statement.specs.Formed.{StatementsAreFormed, NamesStandOnTheLine};

/// An operation is one, with operands that it takes; items of data have 1, 2 or 4 bytes, and strings stand among bytes alone.
pub fn statements_are_formed()
    ensures { StatementsAreFormed }
{}

/// What holds of every free name among the tokens of a line holds of each name that its statement defines, takes or gives.
pub fn names_stand_on_the_line()
    ensures { NamesStandOnTheLine }
{}

/// An operand is read exactly where the tokens are written in one of its forms, and it is the one that they are.
pub fn operands_have_forms()
    ensures { OperandsHaveForms }
{}
