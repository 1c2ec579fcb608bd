// The common board of both masters in a state.
ghost use Rattle.std.specs.Prelude.{◌≡◌, ℕ, ◌+◌, ◌*◌, ◌<◌, ◌≤◌, ◌-◌, ◌%◌, Err, IsTrue, OnOk, OnErr, IfOk, All, vec_len, length, [], true, false, IfSome, ◌^◌, bit_or};
ghost use Rattle.std.specs.Bool.{OnTrue};
ghost use Rattle.kc_base.specs.Limits.{max_states};
ghost use Rattle.kc_span.specs.Span.{after};
ghost use Rattle.kc_exec_spec.specs.Access.{Accepts};
ghost use Rattle.kc_exec_spec.specs.declared.access.Access.TheVariants.{ReadByte, ReadWord, WriteByte, WriteWord, SetMasks};
ghost use Rattle.kc_exec_spec.specs.Window.{is_wsr};
ghost use Rattle.kc_block_spec.specs.Touch.{block_rule, touch, edges_of};
ghost use Rattle.kc_block_spec.specs.Leading.{Leads};
ghost use Rattle.kc_block_spec.specs.Looking.{looked};
ghost use Rattle.kc_machine_spec.specs.Board.{masks_of};
ghost use Rattle.kc_machine_spec.specs.Scene.{opened, byte, put, refusing, window_at, scene_answer, after_by};
ghost use Rattle.kc_machine_spec.specs.Machine.{taken, claimed, handed, with_asked};
ghost use Rattle.kc_exec_spec.specs.Memory.{is_rom};
ghost use Rattle.kc_machine.specs.Keeping.{fitting, counted};
ghost use Rattle.kc_exec_predecode.specs.Predecoding.{is_blank};
ghost use Rattle.kc_machine.specs.Prepared.{HasSlot, IsRead, IsSlot, IsTable};

use crate::choosing::fetch;
use crate::noted::Noted;
use crate::weights::{weigh_read, weigh_word, weigh_write, window_for};
use kc_base::{EdgeOut, IMAGE_START, IntSet, Kind, NoMemory, StateTime, Steps};
use kc_block::Block;
use kc_block_spec::Window;
use kc_bus::{Masks, Master};
use kc_code::{Decoded, decode};
use kc_exec_predecode::{Predecoded, predecode};
use kc_exec_spec::Access;
use kc_extra::Extra;
use std::alloc::Global;
use std::sync::ledger::Ledger;

/// The memory and the units of a board, and the predecoded instructions of its ROM. After the Tick of a state they are those that
/// the accesses of the state meet; beside them stand the edges of pins that these accesses have made, how many of their bytes have
/// reached a unit, and the one that was refused.
#[derive(Drop)]
pub struct Common<X: Extra + Drop> {
    pub(crate) memory: Vec<u8>,
    pub(crate) predecoded: Vec<Predecoded>,
    pub(crate) block: Block<X>,
    pub(crate) edges: Noted,
    pub(crate) reached: u8,
    pub(crate) refused: Option<Access>,
    ghost long: { vec_len memory ≡ 65536 },
    ghost slots: { vec_len predecoded ≡ 0x3FFA },
    ghost known: { IsTable predecoded.items memory.items },
}

/// The first address from which an instruction is predecoded, and how many have a slot: all seven bytes of each stand in ROM.
const FIRST: u16 = IMAGE_START;

const SLOTS: usize = 0x3FFA;

// No slot has a predecoded instruction any more.
fn clear(table: &mut [Predecoded])
    ensures none { All (λ r. is_blank r ≡ true) table.new }
    ensures count { length table.new ≡ length table.old }
{
    for slot in table {
        *slot = Predecoded::blank();
    }
}

fn count(reached: u8, more: u8) -> u8
    requires { more ≤ 2 }
    ensures { result ≡ counted reached more }
{
    if reached < 64 {
        reached + more
    } else {
        reached
    }
}

impl<X: Extra + Drop> Common<X> {
    ghost use Rattle.kc_machine.specs.Bus.{held_of};
    ghost use Rattle.kc_block_spec.specs.Costs.{CostsAtMost};
    ghost use Rattle.kc_machine.specs.Accessing.{ReachesNone, CountsAccess};

    /// The board of a memory and its units, with no instruction predecoded and no access made.
    pub(crate) fn new(
        alloc: Global,
        memory: Vec<u8>,
        block: Block<X>,
    ) -> Result<Common<X>, NoMemory>
        requires { vec_len memory ≡ 65536 }
        ensures memory { IfOk result (λ common. common.memory ≡ memory) }
        ensures block { IfOk result (λ common. common.block ≡ block) }
    {
        let predecoded = vec![in alloc; Predecoded::blank(); SLOTS]?;
        Ok(Common {
            memory,
            predecoded,
            block,
            edges: Noted::none(),
            reached: 0,
            refused: None,
        })
    }

    /// Brings the units past so many states from the present one on, and hands out their edges: the last of the states is
    /// that of the accesses that follow.
    #[inline(always)]
    pub(crate) fn advance<O: EdgeOut, L: Ledger>(
        &mut self,
        from: StateTime,
        count: u64,
        out: &mut O,
        steps: &mut Steps<L>,
    )
        requires from { self.old.block.time ≡ from }
        requires some { 0 < count }
        requires room { from + count ≤ 3 * max_states }
        ensures edges { Leads O.led out.old (edges_of X.further from count self.old.block.units) out.new }
        ensures scene { held_of self.new ≡ opened (from + (count - 1)) (record { units = after (block_rule X.further) from count self.old.block.units; memory = self.old.memory.items }) }
        ensures time { self.new.block.time ≡ from + count }
        ensures costs { CostsAtMost (4 * touch X.further from count self.old.block.units) steps.old steps.new self.old.block.moves self.new.block.moves }
    {
        self.block.advance(from + count, out, steps);
        self.edges.forget();
        self.reached = 0;
        self.refused = None;
    }

    /// Keeps an access that is refused, and gives the kind.
    #[inline(never)]
    #[cold]
    pub(crate) fn refuse(&mut self, access: Access, kind: Kind) -> Kind
        ensures kind { result ≡ kind }
        ensures scene { refusing (held_of self.old) access ≡ held_of self.new }
        ensures none { ReachesNone self.old self.new }
    {
        self.refused = Some(access);
        kind
    }

    /// The registers of the units that belong to the processor's state.
    #[inline(always)]
    pub(crate) fn masks(&self) -> Masks
        ensures value { result ≡ masks_of self.now.block.units }
        ensures window { IsTrue (is_wsr result.wsr) }
    {
        let mask = self.block.requests().mask;
        Masks {
            int_mask: (mask % 256) as u8,
            int_mask1: (mask / 256) as u8,
            wsr: self.block.wsr(),
        }
    }

    /// Takes all pending requests away, and answers which they were.
    pub(crate) fn withdraw(&mut self) -> IntSet
        ensures pending { result.0 ≡ self.old.block.units.board_registers.requests.pending }
        ensures scene { held_of self.new ≡ with_asked (λ r. record r { pending = 0 }) (held_of self.old) }
        ensures none { ReachesNone self.old self.new }
    {
        let mut requests = self.block.requests();
        let pending = IntSet(requests.pending);
        requests.pending = 0;
        self.block.set_requests(requests);
        pending
    }

    /// Adds requests to the pending ones.
    pub(crate) fn raise(&mut self, set: IntSet)
        ensures scene { held_of self.new ≡ with_asked (λ r. record r { pending = bit_or r.pending set.0 }) (held_of self.old) }
        ensures none { ReachesNone self.old self.new }
    {
        let mut requests = self.block.requests();
        requests.raise(set);
        self.block.set_requests(requests);
    }

    /// Takes a request away that is entered.
    pub(crate) fn take(&mut self, number: u8)
        requires { number < 16 }
        ensures scene { held_of self.new ≡ taken number (held_of self.old) }
        ensures none { ReachesNone self.old self.new }
    {
        let mut requests = self.block.requests();
        requests.entered(number);
        self.block.set_requests(requests);
    }

    /// Takes the pending request away of a cycle of the transfer server that is set up.
    pub(crate) fn claim(&mut self, number: u8)
        requires { number < 16 }
        ensures scene { held_of self.new ≡ claimed number (held_of self.old) }
        ensures none { ReachesNone self.old self.new }
    {
        let mut requests = self.block.requests();
        requests.taken(number);
        self.block.set_requests(requests);
    }

    /// Where the count of a cycle that has ended is 0, hands its request from the transfer server to its interrupt.
    pub(crate) fn hand(&mut self, number: u8, count: u8)
        requires { number < 16 }
        ensures scene { held_of self.new ≡ handed number count (held_of self.old) }
        ensures none { ReachesNone self.old self.new }
    {
        if count == 0 {
            let mut requests = self.block.requests();
            requests.ended(number);
            self.block.set_requests(requests);
        }
    }

    /// What a byte read below 0018H would give at the start of the present state.
    pub(crate) fn look(&mut self, window: Window, addr: u16) -> u8
        requires { addr < 24 }
        ensures value { result ≡ looked X.further self.old.block.time window self.old.block.units addr }
        ensures time { self.new.block.time ≡ self.old.block.time }
        ensures units { self.new.block.units ≡ self.old.block.units }
        ensures memory { self.new.memory ≡ self.old.memory }
        ensures moves { self.new.block.moves ≤ self.old.block.moves + 1 }
    {
        self.block.look(window, addr as u8)
    }

    #[inline(always)]
    pub(crate) fn byte_at(&self, addr: u16) -> u8
        ensures { result ≡ byte (held_of self.now) addr }
    {
        self.memory[addr as usize]
    }

    /// Writes a byte of RAM.
    #[inline(always)]
    #[tactic(auto, using(crate::proofs::Prepared::table_put))]
    pub(crate) fn put_byte(&mut self, addr: u16, value: u8)
        requires { is_rom addr ≡ false }
        ensures scene { held_of self.new ≡ put (held_of self.old) addr value }
        ensures count { self.new.reached ≡ self.old.reached }
        ensures block { self.new.block ≡ self.old.block }
    {
        self.memory[addr as usize] = value;
    }

    // No instruction is predecoded any more.
    #[tactic(auto, using(crate::proofs::Prepared::table_cleared))]
    fn forget_all(&mut self)
        ensures none { All (λ r. is_blank r ≡ true) self.new.predecoded.items }
        ensures memory { self.new.memory ≡ self.old.memory }
        ensures edges { self.new.edges ≡ self.old.edges }
        ensures count { self.new.reached ≡ self.old.reached }
        ensures refused { self.new.refused ≡ self.old.refused }
        ensures block { self.new.block ≡ self.old.block }
    {
        clear(&mut self.predecoded);
    }

    /// Changes the byte at an address, ROM too.
    #[tactic(auto, using(crate::proofs::Prepared::table_cleared))]
    pub(crate) fn poke(&mut self, addr: u16, value: u8)
        ensures scene { held_of self.new ≡ put (held_of self.old) addr value }
        ensures count { self.new.reached ≡ self.old.reached }
        ensures block { self.new.block ≡ self.old.block }
    {
        self.forget_all();
        self.memory[addr as usize] = value;
    }

    /// Whether an address has a slot in the table of predecoded instructions.
    #[inline(always)]
    pub(crate) fn has_slot(&self, addr: u16) -> bool
        ensures { OnTrue result (HasSlot addr) }
    {
        (FIRST..FIRST + SLOTS as u16).contains(&addr)
    }

    /// The instruction at an address, where it is predecoded; else the blank one.
    #[inline(always)]
    pub(crate) fn predecoded_at(&self, addr: u16) -> Predecoded
        requires { HasSlot addr }
        ensures { IsSlot self.now.memory.items addr result }
    {
        self.predecoded[(addr - FIRST) as usize]
    }

    /// The instruction at an address, where it is predecoded.
    pub(crate) fn known_at(&self, addr: u16) -> Option<Predecoded>
        ensures { IfSome result (IsRead self.now.memory.items addr) }
    {
        if !self.has_slot(addr) {
            return None;
        }
        let predecoded = self.predecoded_at(addr);
        if predecoded.is_blank() {
            None
        } else {
            Some(predecoded)
        }
    }

    // The instruction at an address, predecoded; the blank one where there is none.
    fn prepared_at(&self, addr: u16) -> Predecoded
        ensures { IsSlot self.now.memory.items addr result }
    {
        let bytes = fetch(&self.memory, addr);
        match decode(bytes.as_slice()) {
            Decoded::Insn(insn, _) => match predecode(&insn) {
                Some(predecoded) => predecoded,
                None => Predecoded::blank(),
            },
            Decoded::Unimplemented | Decoded::Undefined | Decoded::Short => Predecoded::blank(),
        }
    }

    /// Predecodes the instruction at an address, where it stands in ROM and is not predecoded yet.
    #[inline(never)]
    #[cold]
    #[tactic(auto, using(crate::proofs::Prepared::table_keep))]
    pub(crate) fn look_ahead(&mut self, addr: u16)
        ensures scene { held_of self.new ≡ held_of self.old }
        ensures block { self.new.block ≡ self.old.block }
    {
        if self.has_slot(addr) && self.predecoded_at(addr).is_blank() {
            self.predecoded[(addr - FIRST) as usize] = self.prepared_at(addr);
        }
    }

    #[inline(always)]
    fn window(&self, by: Master) -> Window
        ensures { result ≡ window_at (held_of self.now) by }
    {
        window_for(by, self.block.wsr())
    }

    /// A byte read below 0018H.
    #[inline(never)]
    #[cold]
    pub(crate) fn read_byte<L: Ledger>(
        &mut self,
        by: Master,
        addr: u16,
        steps: &mut Steps<L>,
    ) -> Result<u8, Kind>
        requires { addr < 24 }
        ensures answer { scene_answer X.further (held_of self.old) (ReadByte by addr) ≡ result }
        ensures ok { OnOk result (after_by X.further fitting (held_of self.old) (ReadByte by addr) ≡ held_of self.new) }
        ensures err { OnErr result (held_of self.old ≡ held_of self.new) }
        ensures counts { CountsAccess self.old self.new steps.old steps.new }
    {
        let window = self.window(by);
        let value = self.block.read8_here(window, addr as u8, steps)?;
        self.reached = count(self.reached, weigh_read(addr as u8));
        Ok(value)
    }

    /// A word read below 0018H. The zero register is not looked up: it reads 0, and no unit is reached.
    #[inline(never)]
    #[cold]
    pub(crate) fn read_word<L: Ledger>(
        &mut self,
        by: Master,
        addr: u16,
        steps: &mut Steps<L>,
    ) -> Result<u16, Kind>
        requires register { addr < 24 }
        requires even { addr % 2 ≡ 0 }
        ensures answer { scene_answer X.further (held_of self.old) (ReadWord by addr) ≡ result }
        ensures ok { OnOk result (after_by X.further fitting (held_of self.old) (ReadWord by addr) ≡ held_of self.new) }
        ensures err { OnErr result (held_of self.old ≡ held_of self.new) }
        ensures counts { CountsAccess self.old self.new steps.old steps.new }
    {
        if addr < 2 {
            return Ok(0);
        }
        let window = self.window(by);
        let value = self.block.read16_here(window, addr as u8, steps)?;
        self.reached = count(self.reached, weigh_word(addr as u8));
        Ok(value)
    }

    /// A word read below 0018H, in line: the room for the answer is cleared where such a word is read, and nowhere else.
    #[inline(always)]
    pub(crate) fn read_word_here<L: Ledger>(
        &mut self,
        by: Master,
        addr: u16,
        steps: &mut Steps<L>,
    ) -> Result<u16, Kind>
        requires register { addr < 24 }
        requires even { addr % 2 ≡ 0 }
        ensures answer { scene_answer X.further (held_of self.old) (ReadWord by addr) ≡ result }
        ensures ok { OnOk result (after_by X.further fitting (held_of self.old) (ReadWord by addr) ≡ held_of self.new) }
        ensures err { OnErr result (held_of self.old ≡ held_of self.new) }
        ensures counts { CountsAccess self.old self.new steps.old steps.new }
    {
        self.read_word(by, addr, steps)
    }

    /// A byte write below 0018H.
    #[inline(never)]
    #[cold]
    pub(crate) fn write_byte<L: Ledger>(
        &mut self,
        by: Master,
        addr: u16,
        value: u8,
        steps: &mut Steps<L>,
    ) -> Result<(), Kind>
        requires { addr < 24 }
        ensures answer { Accepts result (scene_answer X.further (held_of self.old) (WriteByte by addr value)) }
        ensures ok { OnOk result (after_by X.further fitting (held_of self.old) (WriteByte by addr value) ≡ held_of self.new) }
        ensures err { OnErr result (held_of self.old ≡ held_of self.new) }
        ensures counts { CountsAccess self.old self.new steps.old steps.new }
    {
        let window = self.window(by);
        match self
            .block
            .write8_here(window, addr as u8, value, &mut self.edges, steps)
        {
            Ok(()) => {
                self.reached = count(self.reached, weigh_write(addr as u8));
                Ok(())
            }
            Err(kind) => Err(kind),
        }
    }

    /// A word write below 0018H. The zero register is not looked up: it ignores it, and no unit is reached.
    #[inline(never)]
    #[cold]
    pub(crate) fn write_word<L: Ledger>(
        &mut self,
        by: Master,
        addr: u16,
        value: u16,
        steps: &mut Steps<L>,
    ) -> Result<(), Kind>
        requires register { addr < 24 }
        requires even { addr % 2 ≡ 0 }
        ensures answer { Accepts result (scene_answer X.further (held_of self.old) (WriteWord by addr value)) }
        ensures ok { OnOk result (after_by X.further fitting (held_of self.old) (WriteWord by addr value) ≡ held_of self.new) }
        ensures err { OnErr result (held_of self.old ≡ held_of self.new) }
        ensures counts { CountsAccess self.old self.new steps.old steps.new }
    {
        if addr < 2 {
            return Ok(());
        }
        let window = self.window(by);
        match self
            .block
            .write16_here(window, addr as u8, value, &mut self.edges, steps)
        {
            Ok(()) => {
                self.reached = count(self.reached, weigh_word(addr as u8));
                Ok(())
            }
            Err(kind) => Err(kind),
        }
    }

    /// Puts other values into the masks and WSR.
    pub(crate) fn set_masks(&mut self, masks: Masks)
        requires { IsTrue (is_wsr masks.wsr) }
        ensures scene { after_by X.further fitting (held_of self.old) (SetMasks masks) ≡ held_of self.new }
        ensures none { ReachesNone self.old self.new }
    {
        let mut requests = self.block.requests();
        requests.mask = u16::from(masks.int_mask) + 256 * u16::from(masks.int_mask1);
        self.block.set_requests(requests);
        self.block.set_wsr(masks.wsr);
    }
}
