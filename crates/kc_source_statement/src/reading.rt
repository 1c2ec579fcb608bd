ghost use Rattle.std.specs.Prelude.{◌≡◌, ◌≤◌, length, drop, true, IfOk};
ghost use Rattle.std.specs.Option.{option_map};
ghost use Rattle.kc_lex.specs.Lists.{first_text as first_text_of};
ghost use Rattle.kc_source_statement.specs.Trees.{action_tree, action_read};
ghost use Rattle.kc_source_statement.specs.Operands.{operands_in};
ghost use Rattle.kc_source_statement.specs.Statements as spec;

use crate::forms::{definition, directive};
use crate::operands::are_taken;
use crate::parts::operands;
use crate::statement::Action;
use kc_base::{NoMemory, Text};
use kc_lex::kinds::{has_label, is_free_name, is_name, rest};
use kc_lex::words::{directive_of, operands_for};
use kc_lex::{Directive, Operands, SourceCode, Token};
use std::alloc::Global;

// An operation, or the code of its fault.
fn operation(
    alloc: Global,
    word: &Token,
    form: Operands,
    tokens: &[Token],
) -> Result<Result<Action, u8>, NoMemory>
    ensures { IfOk result (λ r. spec.operation_in word.now.text form (operands_in tokens.now) ≡ action_read r) }
{
    match operands(alloc, tokens)? {
        None => Ok(Err(SourceCode::OtherOperands.number())),
        Some(args) => {
            if are_taken(form, args.as_slice()) {
                let name = Text::of(alloc, word.text.as_slice())?;
                Ok(Ok(Action::Operation { name, args }))
            } else {
                Ok(Err(SourceCode::OtherOperands.number()))
            }
        }
    }
}

fn or_form_fault(action: Option<Action>) -> Result<Action, u8>
    ensures { spec.or_form_fault (option_map action_tree action) ≡ action_read result }
{
    action.ok_or(SourceCode::OtherOperands.number())
}

fn by_directive(
    alloc: Global,
    first: Option<Directive>,
    tokens: &[Token],
) -> Result<Result<Action, u8>, NoMemory>
    ensures { IfOk result (λ r. spec.by_directive first tokens.now ≡ action_read r) }
{
    match first {
        None => Ok(Err(SourceCode::NoStatement.number())),
        Some(word) => {
            let action = directive(alloc, word, tokens)?;
            Ok(or_form_fault(action))
        }
    }
}

fn by_operation(
    alloc: Global,
    word: &Token,
    form: Option<Operands>,
    tokens: &[Token],
) -> Result<Result<Action, u8>, NoMemory>
    ensures { IfOk result (λ r. spec.by_operation word.now.text form tokens.now ≡ action_read r) }
{
    match form {
        Some(form) => operation(alloc, word, form, tokens),
        None => by_directive(alloc, directive_of(word.text.as_slice()), tokens),
    }
}

fn by_word(alloc: Global, word: &Token, tokens: &[Token]) -> Result<Result<Action, u8>, NoMemory>
    ensures { IfOk result (λ r. spec.by_word word.now tokens.now ≡ action_read r) }
{
    if is_name(word) {
        by_operation(alloc, word, operands_for(word.text.as_slice()), tokens)
    } else {
        Ok(Err(SourceCode::NoStatement.number()))
    }
}

fn directive_at(token: &Token) -> Option<Directive>
    ensures { result ≡ spec.directive_at token.now }
{
    if is_name(token) {
        directive_of(token.text.as_slice())
    } else {
        None
    }
}

fn first_directive(tokens: &[Token]) -> Option<Directive>
    ensures { result ≡ spec.first_directive tokens.now }
{
    match tokens {
        [] => None,
        [first, ..] => directive_at(first),
    }
}

fn second_directive(tokens: &[Token]) -> Option<Directive>
    ensures { result ≡ spec.second_directive tokens.now }
{
    match tokens {
        [first, second, ..] => {
            let directive = directive_at(second)?;
            if is_free_name(first) {
                Some(directive)
            } else {
                None
            }
        }
        _ => None,
    }
}

fn is_defining(directive: Directive) -> bool
    ensures { result ≡ spec.is_defining directive }
{
    match directive {
        Directive::Equ => true,
        Directive::Set => true,
        Directive::Module => true,
        _ => false,
    }
}

fn only_defining(directive: Option<Directive>) -> Option<Directive>
    ensures { result ≡ spec.only_defining directive }
{
    match directive {
        None => None,
        Some(directive) => {
            if is_defining(directive) {
                Some(directive)
            } else {
                None
            }
        }
    }
}

fn past_first(tokens: &[Token]) -> &[Token]
    ensures { result.now ≡ drop 1 tokens.now }
{
    if tokens.is_empty() {
        tokens
    } else {
        rest(tokens, 1)
    }
}

// What the words say behind the first one, where the second may define it.
fn by_first(
    alloc: Global,
    first: &Token,
    defining: Option<Directive>,
    tokens: &[Token],
) -> Result<Result<Action, u8>, NoMemory>
    ensures { IfOk result (λ r. spec.by_first first.now defining tokens.now ≡ action_read r) }
{
    match defining {
        None => by_word(alloc, first, tokens),
        Some(word) => {
            let action = definition(alloc, first, word, past_first(tokens))?;
            Ok(or_form_fault(action))
        }
    }
}

// What the words of a line without label say, or the code of its fault.
#[tactic(auto, unfolding(crate::specs::Statements::action_in))]
fn action(alloc: Global, tokens: &[Token]) -> Result<Result<Action, u8>, NoMemory>
    ensures { IfOk result (λ r. spec.action_in tokens.now ≡ action_read r) }
{
    match tokens {
        [] => Ok(Ok(Action::Bare)),
        [first, ..] => {
            let defining = only_defining(second_directive(tokens));
            by_first(alloc, first, defining, rest(tokens, 1))
        }
    }
}

fn bars_label(directive: Option<Directive>) -> bool
    ensures { result ≡ spec.bars_label directive }
{
    match directive {
        None => false,
        Some(directive) => bars(directive),
    }
}

fn bars(directive: Directive) -> bool
    ensures { result ≡ spec.bars directive }
{
    match directive {
        Directive::Equ => true,
        Directive::Set => true,
        Directive::Macro => true,
        Directive::Module => true,
        Directive::Local => true,
        Directive::Exitm => true,
        Directive::Else => true,
        Directive::Endif => true,
        Directive::Endm => true,
        _ => false,
    }
}

fn behind_label(alloc: Global, tokens: &[Token]) -> Result<Result<Action, u8>, NoMemory>
    ensures { IfOk result (λ r. spec.behind_label tokens.now ≡ action_read r) }
{
    if bars_label(first_directive(tokens)) || bars_label(second_directive(tokens)) {
        Ok(Err(SourceCode::NoStatement.number()))
    } else {
        action(alloc, tokens)
    }
}

/// What the tokens of a line say behind its label, if it has one; or the code of its fault: 1 for what is no statement, 14
/// for what has not the form of its statement. (MCS-96 Macro Assembler User's Guide, "Assembler Directives"; forms and
/// codes are this kit's own.)
#[tactic(auto, unfolding(crate::specs::Statements::statement_in))]
pub fn read_statement(alloc: Global, tokens: &[Token]) -> Result<Result<Action, u8>, NoMemory>
    ensures { IfOk result (λ r. spec.statement_in tokens.now ≡ action_read r) }
{
    if has_label(tokens) {
        behind_label(alloc, rest(tokens, 2))
    } else {
        action(alloc, tokens)
    }
}

fn first_text(tokens: &[Token]) -> &[u8]
    ensures { result.now ≡ first_text_of tokens.now }
{
    match tokens {
        [] => b"",
        [first, ..] => first.text.as_slice(),
    }
}

/// The label of a line, if it has one.
#[tactic(auto, unfolding(crate::specs::Statements::label_in))]
pub fn read_label(alloc: Global, tokens: &[Token]) -> Result<Option<Text>, NoMemory>
    ensures { IfOk result (λ o. spec.label_in tokens.now ≡ o) }
{
    if has_label(tokens) {
        let text = Text::of(alloc, first_text(tokens))?;
        Ok(Some(text))
    } else {
        Ok(None)
    }
}
