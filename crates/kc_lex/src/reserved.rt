ghost use Rattle.std.specs.Prelude.{◌≡◌, map};
ghost use Rattle.kc_lex.specs.Words as words;
ghost use Rattle.kc_lex.specs.Reserved as reserved;

use crate::chars::{compared, is_short_word};
use crate::words::{Directive, Operands};

/// What a reserved word is that is no instruction, or not only one.
#[derive(Clone, Copy)]
pub(crate) enum Word {
    Operator,
    /// A generic branch on a condition.
    Condition,
    /// Another generic branch, with the operands that it takes.
    Branch(Operands),
    Directive(Directive),
    Stack,
}

// An index of the reserved words beside the instructions, in the order of the alphabet. What stands here is proved to be what
// the lists of words say.
static WORDS: [(&str, Word); 62] = [
    ("AND", Word::Operator),
    ("BBC", Word::Branch(Operands::Triple)),
    ("BBS", Word::Branch(Operands::Triple)),
    ("BC", Word::Condition),
    ("BE", Word::Condition),
    ("BGE", Word::Condition),
    ("BGT", Word::Condition),
    ("BH", Word::Condition),
    ("BLE", Word::Condition),
    ("BLT", Word::Condition),
    ("BNC", Word::Condition),
    ("BNE", Word::Condition),
    ("BNH", Word::Condition),
    ("BNST", Word::Condition),
    ("BNV", Word::Condition),
    ("BNVT", Word::Condition),
    ("BST", Word::Condition),
    ("BV", Word::Condition),
    ("BVT", Word::Condition),
    ("CALL", Word::Branch(Operands::One)),
    ("CSEG", Word::Directive(Directive::Cseg)),
    ("DCB", Word::Directive(Directive::Dcb)),
    ("DCL", Word::Directive(Directive::Dcl)),
    ("DCW", Word::Directive(Directive::Dcw)),
    ("DSB", Word::Directive(Directive::Dsb)),
    ("DSEG", Word::Directive(Directive::Dseg)),
    ("DSL", Word::Directive(Directive::Dsl)),
    ("DSW", Word::Directive(Directive::Dsw)),
    ("ELSE", Word::Directive(Directive::Else)),
    ("END", Word::Directive(Directive::End)),
    ("ENDIF", Word::Directive(Directive::Endif)),
    ("ENDM", Word::Directive(Directive::Endm)),
    ("EQ", Word::Operator),
    ("EQU", Word::Directive(Directive::Equ)),
    ("EVEN", Word::Directive(Directive::Even)),
    ("EXITM", Word::Directive(Directive::Exitm)),
    ("EXTRN", Word::Directive(Directive::Extrn)),
    ("GE", Word::Operator),
    ("GT", Word::Operator),
    ("HIGH", Word::Operator),
    ("IF", Word::Directive(Directive::If)),
    ("IRP", Word::Directive(Directive::Irp)),
    ("LE", Word::Operator),
    ("LOCAL", Word::Directive(Directive::Local)),
    ("LOW", Word::Operator),
    ("LT", Word::Operator),
    ("MACRO", Word::Directive(Directive::Macro)),
    ("MOD", Word::Operator),
    ("MODULE", Word::Directive(Directive::Module)),
    ("NE", Word::Operator),
    ("NOT", Word::Operator),
    ("OR", Word::Operator),
    ("ORG", Word::Directive(Directive::Org)),
    ("PUBLIC", Word::Directive(Directive::Public)),
    ("REPT", Word::Directive(Directive::Rept)),
    ("RSEG", Word::Directive(Directive::Rseg)),
    ("SET", Word::Directive(Directive::Set)),
    ("SHL", Word::Operator),
    ("SHR", Word::Operator),
    ("SSEG", Word::Directive(Directive::Sseg)),
    ("STACK", Word::Stack),
    ("XOR", Word::Operator),
];

fn all_words() -> &'static [(&'static str, Word)]
    ensures { map (λ entry. (entry.0.now, entry.1)) result.now ≡ reserved.word_list }
{
    &WORDS
}

/// What a word in upper case is, if it is reserved and not an instruction alone.
pub(crate) fn find(word: &[u8]) -> Option<Word>
    ensures operator { words.is_operator_word word.now ≡ reserved.is_operator result }
    ensures condition { words.is_generic_conditional word.now ≡ reserved.is_condition result }
    ensures branch { words.generic_operands_of word.now ≡ reserved.operands_in result }
    ensures directive { words.directive_of word.now ≡ reserved.directive_in result }
    ensures stack { words.is_stack word.now ≡ reserved.is_stack result }
{
    if !is_short_word(word) {
        return None;
    }
    let words = all_words();
    match words.binary_search_by(|entry| compared(entry.0.as_bytes(), word)) {
        Ok(at) => Some(words[at].1),
        Err(_) => None,
    }
}
