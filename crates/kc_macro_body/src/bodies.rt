ghost use Rattle.std.specs.Prelude.{◌≡◌, ◌≤◌, ◌<◌, ◌+◌, ◌^◌, ◌||◌, ◌++◌, [], ◌∷◌, length, drop, is_some, IfOk, position};
ghost use Rattle.std.specs.FinMap as map;
ghost use Rattle.std.specs.Str.{bytes_eq};
ghost use Rattle.kc_macro_body.specs.Bodies as bodies;
ghost use Rattle.kc_macro_body.specs.Words as words;

use crate::arguments::names;
use crate::copying::copy_tokens;
use crate::lists::{Names, Texts};
use crate::macros::{Formals, Locals, Macro};
use crate::words::{Word, word_of};
use kc_base::{NoMemory, Text};
use kc_lex::{Token, Tokens};
use std::alloc::Global;

// In how many texts a line leaves the body, counted from the outermost definition in it.
fn depth_after(line: &Tokens, depth: usize) -> usize
    requires { depth < 2 ^ 63 }
    ensures value { result ≡ bodies.depth_after (words.word_of line.now) depth }
    ensures small { result ≤ depth + 1 }
{
    match word_of(line.as_slice()) {
        Word::Macro => depth + 1,
        Word::Rept | Word::Irp => { if depth == 0 { 0 } else { depth + 1 } }
        Word::Endm => depth.saturating_sub(1),
        _ => depth,
    }
}

fn declares(line: &Tokens, depth: usize) -> bool
    ensures { result ≡ bodies.declares depth line.now }
{
    matches!(word_of(line.as_slice()), Word::Local) && depth == 0
}

// The lines that declare no names.
fn plain_lines(alloc: Global, lines: &[Tokens]) -> Result<Texts, NoMemory>
    ensures { IfOk result (λ t. t ≡ bodies.plain_lines 0 lines.now) }
{
    let mut plain = Texts::new(alloc);
    let mut depth = 0;
    for line in lines {
        if declares(line, depth) {
            continue;
        }
        depth = depth_after(line, depth);
        plain.push(copy_tokens(alloc, line.as_slice())?)?;
    }
    Ok(plain)
}

/// The tokens behind the first.
pub fn behind_first(tokens: &[Token]) -> &[Token]
    ensures { result.now ≡ drop 1 tokens.now }
{
    if tokens.is_empty() {
        tokens
    } else {
        tokens.split_at(1).1
    }
}

fn append(alloc: Global, names: &mut Names, more: &[Text]) -> Result<(), NoMemory>
    ensures { IfOk result (λ _. names.new ≡ names.old ++ more.now) }
{
    for name in more {
        names.push(Text::of(alloc, name.as_slice())?)?;
    }
    Ok(())
}

// The names that LOCAL lines declare, or none where one is no list of names.
fn local_names(alloc: Global, lines: &[Tokens]) -> Result<Option<Names>, NoMemory>
    ensures { IfOk result (λ o. o ≡ bodies.local_names 0 lines.now) }
{
    let mut found = Names::new(alloc);
    let mut depth = 0;
    for line in lines {
        if declares(line, depth) {
            match names(alloc, behind_first(line.as_slice()))? {
                None => return Ok(None),
                Some(more) => append(alloc, &mut found, more.as_slice())?,
            }
        } else {
            depth = depth_after(line, depth);
        }
    }
    Ok(Some(found))
}

/// Whether some names have this one.
pub(crate) fn place_of(name: &[u8], names: &[Text]) -> Option<usize>
    ensures { result ≡ position (bytes_eq name.now) names.now }
{
    names.iter().position(|n| name == n.as_slice())
}

fn has_place(params: &[Text], locals: &Locals, name: &[u8]) -> bool
    ensures { result ≡ (is_some (position (bytes_eq name.now) params.now) || is_some (map.get locals.now.places name.now)) }
{
    place_of(name, params).is_some() || locals.places.look(name).is_some()
}

// Gives the next place to a name that has none.
fn add_local(
    alloc: Global,
    params: &[Text],
    locals: &mut Locals,
    name: &[u8],
) -> Result<(), NoMemory>
    requires { locals.old.count < 2 ^ 63 }
    ensures value { IfOk result (λ _. locals.new ≡ bodies.with_local params.now locals.old name.now) }
    ensures small { IfOk result (λ _. locals.new.count ≤ locals.old.count + 1) }
{
    if !has_place(params, locals, name) {
        let place = locals.count;
        locals.places.set(Text::of(alloc, name)?, place)?;
        locals.count = place + 1;
    }
    Ok(())
}

fn placed(alloc: Global, params: &[Text], names: &[Text]) -> Result<Locals, NoMemory>
    ensures { IfOk result (λ l. l ≡ bodies.placed params.now bodies.no_locals names.now) }
{
    let mut locals = Locals::new(alloc);
    for name in names {
        add_local(alloc, params, &mut locals, name.as_slice())?;
    }
    Ok(locals)
}

/// The macro with these parameters and lines.
#[tactic(auto, unfolding(crate::specs::Bodies::macro_of))]
pub fn macro_of(alloc: Global, params: Names, lines: &[Tokens]) -> Result<Macro, NoMemory>
    ensures { IfOk result (λ m. m ≡ bodies.macro_of params lines.now) }
{
    let body = plain_lines(alloc, lines)?;
    let found = local_names(alloc, lines)?;
    let sound = found.is_some();
    let names = match found {
        None => Names::new(alloc),
        Some(names) => names,
    };
    let locals = placed(alloc, params.as_slice(), names.as_slice())?;
    Ok(Macro {
        formals: Formals { params, locals },
        sound,
        body,
    })
}

/// No names.
pub fn nothing(alloc: Global) -> Formals
    ensures { result ≡ bodies.only [] }
{
    Formals {
        params: Names::new(alloc),
        locals: Locals::new(alloc),
    }
}

/// One parameter.
pub fn only(alloc: Global, name: Text) -> Result<Formals, NoMemory>
    ensures { IfOk result (λ f. f ≡ bodies.only (name ∷ [])) }
{
    let mut params = Names::new(alloc);
    params.push(name)?;
    Ok(Formals {
        params,
        locals: Locals::new(alloc),
    })
}
