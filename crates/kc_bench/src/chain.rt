//! Finds the forms of one long chain of branches: `bench/run forms` measures by it how the work grows with the chain. Each
//! round raises one branch, so that there are as many rounds as branches.

ghost use Rattle.std.specs.Prelude.{◌≤◌};

use crate::stopped::Stopped;
use kc_base::NoMemory;
use kc_branch::{BranchKind, Form, Piece, sizes};
use std::alloc::Global;

/// The most branches of a chain.
const MOST_BRANCHES: u64 = 1_000_000;

/// How many branches stand between a branch of the chain and its target.
const BETWEEN: u32 = 32;

// Each branch reaches in its first form until all those between it and its target have their second. Those behind the
// chain lead elsewhere.
fn chain(alloc: Global, branches: u32) -> Result<Vec<Piece>, NoMemory>
    requires { branches ≤ 1000000 }
{
    let mut pieces = Vec::new(alloc);
    for at in 0..branches {
        pieces.push(Piece::Branch {
            kind: BranchKind::Conditional,
            target: Some((at + BETWEEN + 1, 0)),
        })?;
    }
    for _ in 0..BETWEEN + 1 {
        pieces.push(Piece::Branch {
            kind: BranchKind::Conditional,
            target: None,
        })?;
    }
    Ok(pieces)
}

// How many branches of a chain take their second form.
fn raised(alloc: Global, branches: u32) -> Result<usize, NoMemory>
    requires { branches ≤ 1000000 }
{
    let pieces = chain(alloc, branches)?;
    let forms = sizes(alloc, &pieces)?;
    Ok(
        forms
            .iter()
            .filter(|form| matches!(form, Form::Second))
            .count(),
    )
}

/// Prints how many branches of a chain of so many, at most MOST_BRANCHES, take their second form.
pub fn run(rt: &HostRuntime, branches: u64) -> Result<(), Stopped> {
    let raised = raised(rt.alloc(), branches.min(MOST_BRANCHES) as u32)?;
    println!(rt; "{raised}")?;
    Ok(())
}
