ghost use Rattle.std.specs.Prelude.{◌≡◌, ◌+◌, ◌-◌, ◌*◌, ◌<◌, ◌^◌, IfOk, IsTrue};
ghost use Rattle.kc_isa.specs.Formed.{is_formed};
ghost use Rattle.kc_exec_spec.specs.Effect.{Gives, run};
ghost use Rattle.kc_exec_spec.specs.BlockMoves.{set_up, after_words, cpu_after_words, less_one, write_pointers, write_count, move_one, moved_word, word_states_of, IsUnderWay, IsOfMove};
ghost use Rattle.kc_exec_spec.specs.Effects.{Performs};
ghost use Rattle.kc_bus.specs.Counting.{KeepsCount};

use crate::jumping::following;
use kc_base::{Kind, REGISTER_FILE_END};
use kc_bus::Bus;
use kc_exec_operands::{read_at, read_long, read_register, write_at, write_long, write_register};
use kc_exec_spec::{After, Cpu, Words};
use kc_isa::Insn;

/// Reads the pointers and the count of a block move.
#[tactic(auto, using(kc_exec_spec::proofs::Running::run_bind), unfolding(kc_exec_spec::specs::BlockMoves::set_up))]
pub(crate) fn start_words<B: Bus>(
    bus: &mut B,
    interruptible: bool,
    wsr: u8,
    insn: &Insn,
) -> Result<Words, Kind>
    ensures gives { Gives (λ x. x) result (B.held bus.new) (run B.meaning (set_up interruptible wsr insn.now) (B.held bus.old)) }
    ensures count { KeepsCount B.spent B.held B.allowed B.lent bus.old bus.new }
    ensures all { IfOk result (λ w. w.left ≡ w.count) }
    ensures kind { IfOk result (λ w. w.interruptible ≡ interruptible) }
{
    let pointers = read_long(bus, wsr, insn.regs[1])?;
    let count = read_register(bus, false, wsr, insn.regs[0])?;
    Ok(Words {
        source: (pointers % 0x1_0000) as u16,
        target: (pointers / 0x1_0000) as u16,
        count,
        left: count,
        interruptible,
    })
}

/// What follows, where these words are left.
pub(crate) fn follow_words(words: Words) -> After
    ensures { result ≡ after_words words }
{
    if words.left == 0 {
        After::Next
    } else {
        After::MoreWords(words)
    }
}

/// The registers, where these words are left.
pub(crate) fn cpu_behind(insn: &Insn, words: Words, cpu: Cpu) -> Cpu
    requires { IsTrue (is_formed insn.now) }
    ensures { result ≡ cpu_after_words insn.now words cpu }
{
    if words.left == 0 {
        Cpu {
            pc: following(insn, cpu.pc),
            psw_high: cpu.psw_high,
        }
    } else {
        cpu
    }
}

fn behind_one(words: Words) -> Words
    requires { 0 < words.left }
    ensures { result ≡ less_one words }
{
    Words {
        source: words.source.wrapping_add(2),
        target: words.target.wrapping_add(2),
        count: words.count,
        left: words.left - 1,
        interruptible: words.interruptible,
    }
}

fn joined(low: u16, high: u16) -> u32
    ensures { result ≡ low + 0x10000 * high }
{
    u32::from(low) + 0x1_0000 * u32::from(high)
}

#[tactic(auto, using(kc_exec_spec::proofs::Running::run_bind), unfolding(kc_exec_spec::specs::BlockMoves::write_pointers))]
fn put_pointers<B: Bus>(bus: &mut B, wsr: u8, insn: &Insn, words: Words) -> Result<(), Kind>
    ensures gives { Gives (λ x. x) result (B.held bus.new) (run B.meaning (write_pointers wsr insn.now words) (B.held bus.old)) }
    ensures count { KeepsCount B.spent B.held B.allowed B.lent bus.old bus.new }
{
    if words.interruptible || words.left == 0 {
        write_long(bus, wsr, insn.regs[1], joined(words.source, words.target))
    } else {
        Ok(())
    }
}

#[tactic(auto, using(kc_exec_spec::proofs::Running::run_bind), unfolding(kc_exec_spec::specs::BlockMoves::write_count))]
fn put_count<B: Bus>(bus: &mut B, wsr: u8, insn: &Insn, words: Words) -> Result<(), Kind>
    ensures gives { Gives (λ x. x) result (B.held bus.new) (run B.meaning (write_count wsr insn.now words) (B.held bus.old)) }
    ensures count { KeepsCount B.spent B.held B.allowed B.lent bus.old bus.new }
{
    if !words.interruptible {
        return Ok(());
    }
    let shown = if words.left == 0 {
        words.count
    } else {
        words.left
    };
    write_register(bus, false, wsr, insn.regs[0], shown)
}

#[tactic(auto, using(kc_exec_spec::proofs::Running::run_bind), unfolding(kc_exec_spec::specs::BlockMoves::move_one))]
fn do_word<B: Bus>(bus: &mut B, wsr: u8, insn: &Insn, words: Words) -> Result<(), Kind>
    requires { 0 < words.left }
    ensures gives { Gives (λ x. x) result (B.held bus.new) (run B.meaning (move_one wsr insn.now words) (B.held bus.old)) }
    ensures count { KeepsCount B.spent B.held B.allowed B.lent bus.old bus.new }
{
    let n = read_at(bus, false, words.source)?;
    write_at(bus, false, words.target, n)?;
    let rest = behind_one(words);
    put_pointers(bus, wsr, insn, rest)?;
    put_count(bus, wsr, insn, rest)
}

/// Moves one word of the block move at `cpu.pc`. After a refusal the bus is as after the accesses before the refused
/// one, and the registers are as before (80C196KC User's Manual, "Instruction Set").
#[tactic(auto, using(kc_exec_spec::proofs::Running::run_bind), unfolding(kc_exec_spec::specs::BlockMoves::moved_word))]
pub fn move_word<B: Bus>(
    insn: &Insn,
    words: Words,
    cpu: &mut Cpu,
    bus: &mut B,
) -> Result<After, Kind>
    requires formed { IsTrue (is_formed insn.now) }
    requires under_way { IsUnderWay insn.now words }
    ensures effect { Performs result cpu.old cpu.new (B.held bus.new) (run B.meaning (moved_word insn.now words cpu.old) (B.held bus.old)) }
    ensures rest { IfOk result (λ after. IsOfMove insn.now after) }
    ensures count { KeepsCount B.spent B.held B.allowed B.lent bus.old bus.new }
{
    let wsr = bus.masks().wsr;
    do_word(bus, wsr, insn, words)?;
    let rest = behind_one(words);
    *cpu = cpu_behind(insn, rest, *cpu);
    Ok(follow_words(rest))
}

/// The states of one word: 8, and 3 more for each of its two places that is outside the register file.
pub fn word_states(words: &Words) -> u8
    ensures { result ≡ word_states_of words.now }
{
    let source = if words.source >= REGISTER_FILE_END {
        3
    } else {
        0
    };
    let target = if words.target >= REGISTER_FILE_END {
        3
    } else {
        0
    };
    8 + source + target
}
