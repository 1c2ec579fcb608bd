ghost use Rattle.std.specs.Prelude.{◌≡◌};
ghost use Rattle.std.specs.Str.{bytes_eq};
ghost use Rattle.kc_asm_encode.specs.Branches as branches;

use crate::argument::Argument;
use kc_branch::BranchKind;
use kc_lex::words::is_generic_conditional;

fn is(word: &[u8], other: &[u8]) -> bool
    ensures { result ≡ bytes_eq word.now other.now }
{
    word == other
}

fn plain_branch(args: &[Argument]) -> Option<BranchKind>
    ensures { result ≡ branches.plain_branch args.now }
{
    match args {
        [Argument::Plain(_)] => Some(BranchKind::Jump),
        _ => None,
    }
}

/// The kind of a generic branch, or none where the word in upper case, with these operands, is no generic branch: BR is one
/// with a plain operand, and an instruction with a pointer.
#[tactic(auto, unfolding(crate::specs::Branches::branch_kind))]
pub fn branch_kind(word: &[u8], args: &[Argument]) -> Option<BranchKind>
    ensures { result ≡ branches.branch_kind word.now args.now }
{
    if is(word, b"BR") {
        plain_branch(args)
    } else if is(word, b"CALL") {
        Some(BranchKind::Call)
    } else if is_generic_conditional(word) {
        Some(BranchKind::Conditional)
    } else if is(word, b"BBC") || is(word, b"BBS") {
        Some(BranchKind::BitTest)
    } else {
        None
    }
}

/// The jump of a conditional branch or of a bit test.
#[tactic(auto, unfolding(crate::specs::Branches::jump_of))]
pub(crate) fn jump_of(word: &[u8]) -> &'static [u8]
    ensures { result.now ≡ branches.jump_of word.now }
{
    if is(word, b"BE") {
        b"JE"
    } else if is(word, b"BNE") {
        b"JNE"
    } else if is(word, b"BH") {
        b"JH"
    } else if is(word, b"BNH") {
        b"JNH"
    } else if is(word, b"BGT") {
        b"JGT"
    } else if is(word, b"BLE") {
        b"JLE"
    } else if is(word, b"BGE") {
        b"JGE"
    } else if is(word, b"BLT") {
        b"JLT"
    } else if is(word, b"BC") {
        b"JC"
    } else if is(word, b"BNC") {
        b"JNC"
    } else if is(word, b"BV") {
        b"JV"
    } else if is(word, b"BNV") {
        b"JNV"
    } else if is(word, b"BVT") {
        b"JVT"
    } else if is(word, b"BNVT") {
        b"JNVT"
    } else if is(word, b"BST") {
        b"JST"
    } else if is(word, b"BNST") {
        b"JNST"
    } else if is(word, b"BBC") {
        b"JBC"
    } else if is(word, b"BBS") {
        b"JBS"
    } else {
        b""
    }
}

/// The jump that is taken exactly where that one is not.
#[tactic(auto, unfolding(crate::specs::Branches::inverse_of))]
pub(crate) fn inverse_of(word: &[u8]) -> &'static [u8]
    ensures { result.now ≡ branches.inverse_of word.now }
{
    if is(word, b"BE") {
        b"JNE"
    } else if is(word, b"BNE") {
        b"JE"
    } else if is(word, b"BH") {
        b"JNH"
    } else if is(word, b"BNH") {
        b"JH"
    } else if is(word, b"BGT") {
        b"JLE"
    } else if is(word, b"BLE") {
        b"JGT"
    } else if is(word, b"BGE") {
        b"JLT"
    } else if is(word, b"BLT") {
        b"JGE"
    } else if is(word, b"BC") {
        b"JNC"
    } else if is(word, b"BNC") {
        b"JC"
    } else if is(word, b"BV") {
        b"JNV"
    } else if is(word, b"BNV") {
        b"JV"
    } else if is(word, b"BVT") {
        b"JNVT"
    } else if is(word, b"BNVT") {
        b"JVT"
    } else if is(word, b"BST") {
        b"JNST"
    } else if is(word, b"BNST") {
        b"JST"
    } else if is(word, b"BBC") {
        b"JBS"
    } else if is(word, b"BBS") {
        b"JBC"
    } else {
        b""
    }
}
