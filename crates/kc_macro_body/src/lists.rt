ghost use Rattle.std.specs.Prelude.{◌≡◌, [], ◌∷◌, ◌++◌, OnOk};

use kc_base::{NoMemory, Text};
use kc_lex::Tokens;
use std::alloc::Global;
use std::marker::Model;

/// A list of names, as that of the parameters of a macro.
#[derive(Drop)]
pub struct Names {
    items: Vec<Text>,
}

impl Model for Names {
    ghost use Rattle.std.specs.Prelude.{List, ℕ};

    ghost Value = { List (List ℕ) };

    ghost view = { λ n. n.items.items };
}

impl Names {
    /// No names.
    pub fn new(alloc: Global) -> Names
        ensures { result ≡ [] }
    {
        Names {
            items: Vec::new(alloc),
        }
    }

    /// Appends a name.
    pub fn push(&mut self, name: Text) -> Result<(), NoMemory>
        ensures { OnOk result (self.new ≡ self.old ++ name ∷ []) }
    {
        self.items.push(name)?;
        Ok(())
    }

    /// The names, lent.
    pub fn as_slice(&self) -> &[Text]
        ensures { result.now ≡ self.now }
    {
        self.items.as_slice()
    }
}

/// Lists of tokens: the lines of a body, or the arguments of a call.
#[derive(Drop)]
pub struct Texts {
    items: Vec<Tokens>,
}

impl Model for Texts {
    ghost use Rattle.std.specs.Prelude.{List};
    ghost use Rattle.kc_lex.specs.declared.token.Token.{Token};

    ghost Value = { List (List Token) };

    ghost view = { λ t. t.items.items };
}

impl Texts {
    /// No lines.
    pub fn new(alloc: Global) -> Texts
        ensures { result ≡ [] }
    {
        Texts {
            items: Vec::new(alloc),
        }
    }

    /// Appends a line.
    pub fn push(&mut self, line: Tokens) -> Result<(), NoMemory>
        ensures { OnOk result (self.new ≡ self.old ++ line ∷ []) }
    {
        self.items.push(line)?;
        Ok(())
    }

    /// The lines, lent.
    pub fn as_slice(&self) -> &[Tokens]
        ensures { result.now ≡ self.now }
    {
        self.items.as_slice()
    }
}
