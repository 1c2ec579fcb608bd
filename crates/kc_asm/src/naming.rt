//! The name of a module.

ghost use Rattle.std.specs.Prelude.{◌≡◌, ℕ, List};
ghost use Rattle.std.specs.Option.{option_map};
ghost use Rattle.kc_source_statement.specs.Trees.{action_tree};
ghost use Rattle.kc_asm_symbols.specs.Located.{located};
ghost use Rattle.kc_asm_unlinked_laws.specs.Collecting as spec;

use kc_source_statement::{Action, Stmt};

/// The name of a module without one.
const NO_NAME: &[u8] = b"NONAME";

// The name that a statement gives the module, if it gives one.
fn name_by(action: &Action) -> Option<&[u8]>
    ensures { (other : List ℕ) → spec.name_or (option_map (λ name. name.now) result) other ≡ spec.name_by (action_tree action.now) other }
{
    match action {
        Action::Module { name, .. } => match name {
            Some(name) => Some(name.as_slice()),
            None => None,
        },
        _ => None,
    }
}

/// The name of a module: that in the first MODULE with a name, else NONAME.
pub(crate) fn name_of(stmts: &[Stmt]) -> &[u8]
    ensures { (places : ℕ → ℕ) → result.now ≡ spec.name_of (located places stmts.now) }
{
    for stmt in stmts {
        if let Some(name) = name_by(&stmt.action) {
            return name;
        }
    }
    NO_NAME
}
