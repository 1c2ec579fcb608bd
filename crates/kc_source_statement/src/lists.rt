ghost use Rattle.std.specs.Prelude.{◌≡◌, [], ◌∷◌, ◌++◌, OnOk, OnErr};

use crate::statement::{Arg, Item};
use kc_base::{NoMemory, Text};
use std::alloc::Global;
use std::marker::Model;

/// A list of names.
#[derive(Drop)]
pub struct Names {
    names: Vec<Text>,
}

impl Model for Names {
    ghost use Rattle.std.specs.Prelude.{List, ℕ};

    ghost Value = { List (List ℕ) };

    ghost view = { λ n. n.names.items };
}

impl Names {
    /// No names.
    pub fn new(alloc: Global) -> Names
        ensures { result ≡ [] }
    {
        Names {
            names: Vec::new(alloc),
        }
    }

    /// Appends a name. A refusal changes nothing.
    pub fn push(&mut self, name: Text) -> Result<(), NoMemory>
        ensures ok { OnOk result (self.new ≡ self.old ++ name ∷ []) }
        ensures err { OnErr result (self.new ≡ self.old) }
    {
        self.names.push(name)?;
        Ok(())
    }

    /// The names, lent.
    pub fn as_slice(&self) -> &[Text]
        ensures { result.now ≡ self.now }
    {
        self.names.as_slice()
    }
}

/// A list of data items.
#[derive(Drop)]
pub struct Items {
    items: Vec<Item>,
}

impl Model for Items {
    ghost use Rattle.std.specs.Prelude.{List};
    ghost use Rattle.kc_source_statement.specs.declared.statement.Item.{Item};
    ghost use Rattle.kc_expr.specs.contracts.expr.Expr as expr;
    ghost use Rattle.std.specs.Coded.{codes};

    ghost Value = { List Item };

    ghost coded = { Prim.hlevel (codes, expr.the_row.coded) };

    ghost view = { λ i. i.items.items };
}

impl Items {
    /// No items.
    pub fn new(alloc: Global) -> Items
        ensures { result ≡ [] }
    {
        Items {
            items: Vec::new(alloc),
        }
    }

    /// Appends an item. A refusal changes nothing.
    pub fn push(&mut self, item: Item) -> Result<(), NoMemory>
        ensures ok { OnOk result (self.new ≡ self.old ++ item ∷ []) }
        ensures err { OnErr result (self.new ≡ self.old) }
    {
        self.items.push(item)?;
        Ok(())
    }

    /// The items, lent.
    pub fn as_slice(&self) -> &[Item]
        ensures { result.now ≡ self.now }
    {
        self.items.as_slice()
    }
}

/// A list of operands.
#[derive(Drop)]
pub struct Args {
    args: Vec<Arg>,
}

impl Model for Args {
    ghost use Rattle.std.specs.Prelude.{List};
    ghost use Rattle.kc_source_statement.specs.declared.statement.Arg.{Arg};
    ghost use Rattle.kc_expr.specs.contracts.expr.Expr as expr;
    ghost use Rattle.std.specs.Coded.{codes};

    ghost Value = { List Arg };

    ghost coded = { Prim.hlevel (codes, expr.the_row.coded) };

    ghost view = { λ a. a.args.items };
}

impl Args {
    /// No operands.
    pub fn new(alloc: Global) -> Args
        ensures { result ≡ [] }
    {
        Args {
            args: Vec::new(alloc),
        }
    }

    /// Appends an operand. A refusal changes nothing.
    pub fn push(&mut self, arg: Arg) -> Result<(), NoMemory>
        ensures ok { OnOk result (self.new ≡ self.old ++ arg ∷ []) }
        ensures err { OnErr result (self.new ≡ self.old) }
    {
        self.args.push(arg)?;
        Ok(())
    }

    /// The operands, lent.
    pub fn as_slice(&self) -> &[Arg]
        ensures { result.now ≡ self.now }
    {
        self.args.as_slice()
    }
}
