//! Which form each statement has.

ghost use Rattle.std.specs.Prelude.{◌≡◌, ◌+◌, ◌≤◌, length, drop, IfOk};
ghost use Rattle.kc_asm_layout.specs.Text as spec;

use crate::places::{head_form, rest_of};
use crate::size_record::{Body, SizeRecord};
use crate::text::{is_code, is_main};
use kc_base::NoMemory;
use kc_branch::Form;
use std::alloc::Global;

fn is_branch(body: &Body) -> bool
    ensures { result ≡ spec.is_branch body.now }
{
    match body {
        Body::Branch { .. } => true,
        Body::Bytes(_) | Body::Upto(_) | Body::Even => false,
    }
}

fn is_code_branch(size_record: &SizeRecord) -> bool
    ensures { result ≡ spec.is_code_branch size_record.now }
{
    is_code(size_record.segment) && is_branch(&size_record.body)
}

// Whether it is a branch of the relocatable code.
fn is_main_branch(size_record: &SizeRecord) -> bool
    ensures { result ≡ spec.is_main_branch size_record.now }
{
    is_main(size_record.segment) && is_code_branch(size_record)
}

// Whether it is a branch of an absolute piece of code.
fn is_absolute_branch(size_record: &SizeRecord) -> bool
    ensures { result ≡ spec.is_absolute_branch size_record.now }
{
    size_record.segment.is_absolute() && is_code_branch(size_record)
}

#[tactic(auto, unfolding(crate::specs::Text::count_main))]
fn count_main(size_records: &[SizeRecord]) -> usize
    ensures { result ≡ spec.count_main size_records.now }
{
    let mut count = 0;
    for size_record in size_records {
        if is_main_branch(size_record) {
            count += 1;
        }
    }
    count
}

// The next form of those that are left.
fn form_for(size_record: &SizeRecord, main: &[Form], absolute: &[Form]) -> Form
    ensures { result ≡ spec.form_for size_record.now main.now absolute.now }
{
    if is_main_branch(size_record) {
        head_form(main)
    } else if is_absolute_branch(size_record) {
        head_form(absolute)
    } else {
        Form::First
    }
}

fn left_behind(takes: bool, forms: &[Form]) -> &[Form]
    ensures { result.now ≡ spec.left_behind takes forms.now }
{
    if takes { rest_of(forms) } else { forms }
}

fn behind(forms: &[Form], count: usize) -> &[Form]
    ensures { result.now ≡ drop count forms.now }
{
    forms.get(count..).unwrap_or(&[])
}

// The form of each statement, where the branches have these, those of the relocatable code first.
#[tactic(auto, unfolding(crate::specs::Text::dealt))]
pub(crate) fn statement_forms(
    alloc: Global,
    chosen: &[Form],
    size_records: &[SizeRecord],
) -> Result<Vec<Form>, NoMemory>
    ensures { IfOk result (λ v. v.items ≡ spec.statement_forms chosen.now size_records.now) }
{
    let mut forms = Vec::new(alloc);
    let mut main = chosen;
    let mut absolute = behind(chosen, count_main(size_records));
    for size_record in size_records {
        forms.push(form_for(size_record, main, absolute))?;
        main = left_behind(is_main_branch(size_record), main);
        absolute = left_behind(is_absolute_branch(size_record), absolute);
    }
    Ok(forms)
}
