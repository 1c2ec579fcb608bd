// What each instruction does, and its forms. Made by tools/list_instructions from the instruction table: in parts, since one table of
// all is more than the prover takes at once.
ghost use Rattle.std.specs.Prelude.{◌≡◌, map};
ghost use Rattle.std.specs.Option.{option_map};
ghost use Rattle.kc_kit_messages.specs.Meanings.{first_rows, second_rows, third_rows, fourth_rows};

use crate::table::Row;

static FIRST: [Row; 26] = [
    (
        "SKIP",
        "nothing; the byte behind the opcode is passed over.\nSKIP D: opcode 00, then D; states 3; flags none",
        None,
    ),
    (
        "CLR",
        "D becomes 0.\nCLR D: opcode 01, then D; states 3; flags Z N C V",
        None,
    ),
    (
        "NOT",
        "each bit of D is turned.\nNOT D: opcode 02, then D; states 3; flags Z N C V",
        None,
    ),
    (
        "NEG",
        "D becomes 0 less D.\nNEG D: opcode 03, then D; states 3; flags Z N C V VT",
        None,
    ),
    (
        "XCH",
        "D and S change places.\nXCH D,S: opcode 04, 0B, then S D; states 5, -, -, 8, and 5 more where S is at 0200H or above; flags none",
        None,
    ),
    (
        "DEC",
        "D becomes D less 1.\nDEC D: opcode 05, then D; states 3; flags Z N C V VT",
        None,
    ),
    (
        "EXT",
        "the sign of the low word of the long register D fills its high word.\nEXT D: opcode 06, then D; states 4; flags Z N C V",
        None,
    ),
    (
        "INC",
        "D becomes D plus 1.\nINC D: opcode 07, then D; states 3; flags Z N C V VT",
        None,
    ),
    (
        "SHR",
        "D goes to the right by the count, zeros come in.\nSHR D,count: opcode 08, then count D; states 6 + count; flags Z N C V ST",
        None,
    ),
    (
        "SHL",
        "D goes to the left by the count.\nSHL D,count: opcode 09, then count D; states 6 + count; flags Z N C V VT",
        None,
    ),
    (
        "SHRA",
        "D goes to the right by the count, the sign stays.\nSHRA D,count: opcode 0A, then count D; states 6 + count; flags Z N C V ST",
        None,
    ),
    (
        "SHRL",
        "D goes to the right by the count, zeros come in.\nSHRL D,count: opcode 0C, then count D; states 7 + count; flags Z N C V ST",
        None,
    ),
    (
        "SHLL",
        "D goes to the left by the count.\nSHLL D,count: opcode 0D, then count D; states 7 + count; flags Z N C V VT",
        None,
    ),
    (
        "SHRAL",
        "D goes to the right by the count, the sign stays.\nSHRAL D,count: opcode 0E, then count D; states 7 + count; flags Z N C V ST",
        None,
    ),
    (
        "NORML",
        "the long register D goes to the left until its top bit is 1, 31 places at most; R gets how many.\nNORML D,R: opcode 0F, then R D; states 8 + places; flags Z N C",
        None,
    ),
    (
        "CLRB",
        "D becomes 0.\nCLRB D: opcode 11, then D; states 3; flags Z N C V",
        None,
    ),
    (
        "NOTB",
        "each bit of D is turned.\nNOTB D: opcode 12, then D; states 3; flags Z N C V",
        None,
    ),
    (
        "NEGB",
        "D becomes 0 less D.\nNEGB D: opcode 13, then D; states 3; flags Z N C V VT",
        None,
    ),
    (
        "XCHB",
        "D and S change places.\nXCHB D,S: opcode 14, 1B, then S D; states 5, -, -, 8, and 5 more where S is at 0200H or above; flags none",
        None,
    ),
    (
        "DECB",
        "D becomes D less 1.\nDECB D: opcode 15, then D; states 3; flags Z N C V VT",
        None,
    ),
    (
        "EXTB",
        "the sign of the low byte of the word D fills its high byte.\nEXTB D: opcode 16, then D; states 4; flags Z N C V",
        None,
    ),
    (
        "INCB",
        "D becomes D plus 1.\nINCB D: opcode 17, then D; states 3; flags Z N C V VT",
        None,
    ),
    (
        "SHRB",
        "D goes to the right by the count, zeros come in.\nSHRB D,count: opcode 18, then count D; states 6 + count; flags Z N C V ST",
        None,
    ),
    (
        "SHLB",
        "D goes to the left by the count.\nSHLB D,count: opcode 19, then count D; states 6 + count; flags Z N C V VT",
        None,
    ),
    (
        "SHRAB",
        "D goes to the right by the count, the sign stays.\nSHRAB D,count: opcode 1A, then count D; states 6 + count; flags Z N C V ST",
        None,
    ),
    (
        "SJMP",
        "goes on up to 1,023 bytes ahead or 1,024 back.\nSJMP address: opcode 20 to 27, then low; states 7; flags none",
        None,
    ),
];

/// The instructions of the first part of the instruction table, in its order.
pub(crate) fn first() -> &'static [Row]
    ensures { map (λ row. record { code = row.0.now; sentence = row.1.now; example = option_map (λ e. (e.0.now, e.1.now)) row.2 }) result.now ≡ first_rows }
{
    &FIRST
}

static SECOND: [Row; 26] = [
    (
        "SCALL",
        "pushes the return address and goes on like SJMP.\nSCALL address: opcode 28 to 2F, then low; states 11, and 2 more where the stack is; flags none",
        None,
    ),
    (
        "JBC",
        "goes on elsewhere where the bit of the register is 0.\nJBC R,bit,address: opcode 30 to 37, then R distance; states 9; flags none",
        None,
    ),
    (
        "JBS",
        "goes on elsewhere where the bit of the register is 1.\nJBS R,bit,address: opcode 38 to 3F, then R distance; states 9; flags none",
        None,
    ),
    (
        "AND",
        "bits that both have.\nAND D,S: opcode 60 to 63, then S D; states 4, 5, 6, 6, and 2 more where S is at 0200H or above; flags Z N C V.\nAND D,A,S: opcode 40 to 43, then S A D; states 5, 6, 7, 7, and 3 more where S is at 0200H or above; flags Z N C V",
        None,
    ),
    (
        "ADD",
        "the sum.\nADD D,S: opcode 64 to 67, then S D; states 4, 5, 6, 6, and 2 more where S is at 0200H or above; flags Z N C V VT.\nADD D,A,S: opcode 44 to 47, then S A D; states 5, 6, 7, 7, and 3 more where S is at 0200H or above; flags Z N C V VT",
        None,
    ),
    (
        "SUB",
        "the difference, less S.\nSUB D,S: opcode 68 to 6B, then S D; states 4, 5, 6, 6, and 2 more where S is at 0200H or above; flags Z N C V VT.\nSUB D,A,S: opcode 48 to 4B, then S A D; states 5, 6, 7, 7, and 3 more where S is at 0200H or above; flags Z N C V VT",
        None,
    ),
    (
        "MULU",
        "the product of two words, in the long register D.\nMULU D,S: opcode 6C to 6F, then S D; states 14, 15, 16, 17, and 2 more where S is at 0200H or above; flags none.\nMULU D,A,S: opcode 4C to 4F, then S A D; states 14, 15, 16, 17, and 2 more where S is at 0200H or above; flags none",
        None,
    ),
    (
        "ANDB",
        "bits that both have.\nANDB D,S: opcode 70 to 73, then S D; states 4, 5, 6, 6, and 2 more where S is at 0200H or above; flags Z N C V.\nANDB D,A,S: opcode 50 to 53, then S A D; states 5, 6, 7, 7, and 3 more where S is at 0200H or above; flags Z N C V",
        None,
    ),
    (
        "ADDB",
        "the sum.\nADDB D,S: opcode 74 to 77, then S D; states 4, 5, 6, 6, and 2 more where S is at 0200H or above; flags Z N C V VT.\nADDB D,A,S: opcode 54 to 57, then S A D; states 5, 6, 7, 7, and 3 more where S is at 0200H or above; flags Z N C V VT",
        None,
    ),
    (
        "SUBB",
        "the difference, less S.\nSUBB D,S: opcode 78 to 7B, then S D; states 4, 5, 6, 6, and 2 more where S is at 0200H or above; flags Z N C V VT.\nSUBB D,A,S: opcode 58 to 5B, then S A D; states 5, 6, 7, 7, and 3 more where S is at 0200H or above; flags Z N C V VT",
        None,
    ),
    (
        "MULUB",
        "the product of two bytes, in the word D.\nMULUB D,S: opcode 7C to 7F, then S D; states 14, 15, 16, 17, and 2 more where S is at 0200H or above; flags none.\nMULUB D,A,S: opcode 5C to 5F, then S A D; states 14, 15, 16, 17, and 2 more where S is at 0200H or above; flags none",
        None,
    ),
    (
        "OR",
        "D: bits that one of D and S has.\nOR D,S: opcode 80 to 83, then S D; states 4, 5, 6, 6, and 2 more where S is at 0200H or above; flags Z N C V",
        None,
    ),
    (
        "XOR",
        "D: bits that exactly one of D and S has.\nXOR D,S: opcode 84 to 87, then S D; states 4, 5, 6, 6, and 2 more where S is at 0200H or above; flags Z N C V",
        None,
    ),
    (
        "CMP",
        "flags of D less S; nothing is written.\nCMP D,S: opcode 88 to 8B, then S D; states 4, 5, 6, 6, and 2 more where S is at 0200H or above; flags Z N C V VT",
        None,
    ),
    (
        "DIVU",
        "the long register D by S: quotient in the low word, remainder in the high word.\nDIVU D,S: opcode 8C to 8F, then S D; states 24, 25, 26, 27, and 2 more where S is at 0200H or above; flags V VT",
        None,
    ),
    (
        "ORB",
        "D: bits that one of D and S has.\nORB D,S: opcode 90 to 93, then S D; states 4, 5, 6, 6, and 2 more where S is at 0200H or above; flags Z N C V",
        None,
    ),
    (
        "XORB",
        "D: bits that exactly one of D and S has.\nXORB D,S: opcode 94 to 97, then S D; states 4, 5, 6, 6, and 2 more where S is at 0200H or above; flags Z N C V",
        None,
    ),
    (
        "CMPB",
        "flags of D less S; nothing is written.\nCMPB D,S: opcode 98 to 9B, then S D; states 4, 5, 6, 6, and 2 more where S is at 0200H or above; flags Z N C V VT",
        None,
    ),
    (
        "DIVUB",
        "the word D by S: quotient in the low byte, remainder in the high byte.\nDIVUB D,S: opcode 9C to 9F, then S D; states 16, 17, 18, 19, and 2 more where S is at 0200H or above; flags V VT",
        None,
    ),
    (
        "LD",
        "D becomes S.\nLD D,S: opcode A0 to A3, then S D; states 4, 5, 5, 6, and 3 more where S is at 0200H or above; flags none",
        None,
    ),
    (
        "ADDC",
        "D becomes D plus S plus C; Z stays 0 where it was 0.\nADDC D,S: opcode A4 to A7, then S D; states 4, 5, 6, 6, and 2 more where S is at 0200H or above; flags Z N C V VT",
        None,
    ),
    (
        "SUBC",
        "D becomes D less S, less 1 more where C is 0; Z stays 0 where it was 0.\nSUBC D,S: opcode A8 to AB, then S D; states 4, 5, 6, 6, and 2 more where S is at 0200H or above; flags Z N C V VT",
        None,
    ),
    (
        "LDBZE",
        "the word D becomes the byte S, its high byte 0.\nLDBZE D,S: opcode AC to AF, then S D; states 4, 5, 5, 6, and 3 more where S is at 0200H or above; flags none",
        None,
    ),
    (
        "LDB",
        "D becomes S.\nLDB D,S: opcode B0 to B3, then S D; states 4, 5, 5, 6, and 3 more where S is at 0200H or above; flags none",
        None,
    ),
    (
        "ADDCB",
        "D becomes D plus S plus C; Z stays 0 where it was 0.\nADDCB D,S: opcode B4 to B7, then S D; states 4, 5, 6, 6, and 2 more where S is at 0200H or above; flags Z N C V VT",
        None,
    ),
    (
        "SUBCB",
        "D becomes D less S, less 1 more where C is 0; Z stays 0 where it was 0.\nSUBCB D,S: opcode B8 to BB, then S D; states 4, 5, 6, 6, and 2 more where S is at 0200H or above; flags Z N C V VT",
        None,
    ),
];

/// The instructions of the second part of the instruction table, in its order.
pub(crate) fn second() -> &'static [Row]
    ensures { map (λ row. record { code = row.0.now; sentence = row.1.now; example = option_map (λ e. (e.0.now, e.1.now)) row.2 }) result.now ≡ second_rows }
{
    &SECOND
}

static THIRD: [Row; 26] = [
    (
        "LDBSE",
        "the word D becomes the byte S with its sign.\nLDBSE D,S: opcode BC to BF, then S D; states 4, 5, 5, 6, and 3 more where S is at 0200H or above; flags none",
        None,
    ),
    (
        "ST",
        "S becomes A.\nST A,S: opcode C0, C2, C3, then S A; states 4, -, 5, 6, and 3 more where S is at 0200H or above; flags none",
        None,
    ),
    (
        "BMOV",
        "moves words from the first pointer to the second until the count is 0; no request is served meanwhile.\nBMOV pointers,count: opcode C1, then count pointers; states 6, and 8 to 14 a word; flags none",
        None,
    ),
    (
        "STB",
        "S becomes A.\nSTB A,S: opcode C4, C6, C7, then S A; states 4, -, 5, 6, and 3 more where S is at 0200H or above; flags none",
        None,
    ),
    (
        "CMPL",
        "flags of the long register D less the long register S; nothing is written.\nCMPL D,S: opcode C5, then S D; states 7; flags Z N C V VT",
        None,
    ),
    (
        "PUSH",
        "SP goes down by 2, S is stored there.\nPUSH S: opcode C8 to CB, then S; states 6, 7, 9, 10, and 3 more where S is at 0200H or above, and 2 more where the stack is; flags none",
        None,
    ),
    (
        "POP",
        "S becomes the word at SP, SP goes up by 2.\nPOP S: opcode CC, CE, CF, then S; states 8, -, 10, 11, and 3 more where S is at 0200H or above, and 2 more where the stack is; flags none",
        None,
    ),
    (
        "BMOVI",
        "as BMOV; a request may be served between two words.\nBMOVI pointers,count: opcode CD, then count pointers; states 7, and 8 to 14 a word; flags none",
        None,
    ),
    (
        "JNST",
        "goes on elsewhere where ST is 0.\nJNST address: opcode D0, then distance; states 4; 8 where it jumps; flags none",
        None,
    ),
    (
        "JNH",
        "goes on elsewhere where not higher, without signs: C is 0 or Z is 1.\nJNH address: opcode D1, then distance; states 4; 8 where it jumps; flags none",
        None,
    ),
    (
        "JGT",
        "goes on elsewhere where greater, with signs: N and Z are 0.\nJGT address: opcode D2, then distance; states 4; 8 where it jumps; flags none",
        None,
    ),
    (
        "JNC",
        "goes on elsewhere where C is 0.\nJNC address: opcode D3, then distance; states 4; 8 where it jumps; flags none",
        None,
    ),
    (
        "JNVT",
        "goes on elsewhere where VT is 0; where VT is 1, it clears it.\nJNVT address: opcode D4, then distance; states 4; 8 where it jumps; flags VT",
        None,
    ),
    (
        "JNV",
        "goes on elsewhere where V is 0.\nJNV address: opcode D5, then distance; states 4; 8 where it jumps; flags none",
        None,
    ),
    (
        "JGE",
        "goes on elsewhere where greater or equal, with signs: N is 0.\nJGE address: opcode D6, then distance; states 4; 8 where it jumps; flags none",
        None,
    ),
    (
        "JNE",
        "goes on elsewhere where not equal: Z is 0.\nJNE address: opcode D7, then distance; states 4; 8 where it jumps; flags none",
        None,
    ),
    (
        "JST",
        "goes on elsewhere where ST is 1.\nJST address: opcode D8, then distance; states 4; 8 where it jumps; flags none",
        None,
    ),
    (
        "JH",
        "goes on elsewhere where higher, without signs: C is 1 and Z is 0.\nJH address: opcode D9, then distance; states 4; 8 where it jumps; flags none",
        None,
    ),
    (
        "JLE",
        "goes on elsewhere where less or equal, with signs: N or Z is 1.\nJLE address: opcode DA, then distance; states 4; 8 where it jumps; flags none",
        None,
    ),
    (
        "JC",
        "goes on elsewhere where C is 1.\nJC address: opcode DB, then distance; states 4; 8 where it jumps; flags none",
        None,
    ),
    (
        "JVT",
        "goes on elsewhere where VT is 1, which it clears.\nJVT address: opcode DC, then distance; states 4; 8 where it jumps; flags VT",
        None,
    ),
    (
        "JV",
        "goes on elsewhere where V is 1.\nJV address: opcode DD, then distance; states 4; 8 where it jumps; flags none",
        None,
    ),
    (
        "JLT",
        "goes on elsewhere where less, with signs: N is 1.\nJLT address: opcode DE, then distance; states 4; 8 where it jumps; flags none",
        None,
    ),
    (
        "JE",
        "goes on elsewhere where equal: Z is 1.\nJE address: opcode DF, then distance; states 4; 8 where it jumps; flags none",
        None,
    ),
    (
        "DJNZ",
        "the byte goes down by 1; goes on elsewhere unless it is 0.\nDJNZ R,address: opcode E0, then R distance; states 9; flags none",
        None,
    ),
    (
        "DJNZW",
        "the word goes down by 1; goes on elsewhere unless it is 0.\nDJNZW R,address: opcode E1, then R distance; states 10; flags none",
        None,
    ),
];

/// The instructions of the third part of the instruction table, in its order.
pub(crate) fn third() -> &'static [Row]
    ensures { map (λ row. record { code = row.0.now; sentence = row.1.now; example = option_map (λ e. (e.0.now, e.1.now)) row.2 }) result.now ≡ third_rows }
{
    &THIRD
}

static FOURTH: [Row; 24] = [
    (
        "TIJMP",
        "goes on at the word of the table whose number is the byte at the index under the mask.\nTIJMP table,[index],#mask: opcode E2, then index mask table; states 15; flags none",
        None,
    ),
    (
        "BR",
        "goes on at the address in the register.\nBR [R]: opcode E3, then R; states 7; flags none",
        None,
    ),
    (
        "LJMP",
        "goes on at any address.\nLJMP address: opcode E7, then low high; states 7; flags none",
        None,
    ),
    (
        "DPTS",
        "PSE becomes 0: the transfer server serves nothing.\nDPTS: opcode EC; states 2; flags none",
        None,
    ),
    (
        "EPTS",
        "PSE becomes 1: the transfer server serves what is selected.\nEPTS: opcode ED; states 2; flags none",
        None,
    ),
    (
        "LCALL",
        "pushes the return address and goes on at any address.\nLCALL address: opcode EF, then low high; states 11, and 2 more where the stack is; flags none",
        None,
    ),
    (
        "RET",
        "goes on at the address that it pops.\nRET: opcode F0; states 11, and 2 more where the stack is; flags none",
        None,
    ),
    (
        "PUSHF",
        "pushes the PSW and clears it.\nPUSHF: opcode F2; states 6, and 2 more where the stack is; flags all",
        None,
    ),
    (
        "POPF",
        "pops the PSW.\nPOPF: opcode F3; states 7, and 2 more where the stack is; flags all",
        None,
    ),
    (
        "PUSHA",
        "pushes the PSW with INT_MASK and then INT_MASK1 with WSR; clears the PSW and both masks.\nPUSHA: opcode F4; states 12, and 2 more where the stack is; flags all",
        None,
    ),
    (
        "POPA",
        "pops what PUSHA pushed.\nPOPA: opcode F5; states 12, and 2 more where the stack is; flags all",
        None,
    ),
    (
        "IDLPD",
        "key 1: idle until a request is served; key 2: power down; any other is an undefined use.\nIDLPD #key: opcode F6, then key; states 8; flags none",
        None,
    ),
    (
        "TRAP",
        "enters through 2010H.\nTRAP: opcode F7; states 16, and 2 more where the stack is; flags none",
        None,
    ),
    (
        "CLRC",
        "C becomes 0.\nCLRC: opcode F8; states 2; flags C",
        None,
    ),
    (
        "SETC",
        "C becomes 1.\nSETC: opcode F9; states 2; flags C",
        None,
    ),
    (
        "DI",
        "I becomes 0: no interrupt is entered.\nDI: opcode FA; states 2; flags none",
        None,
    ),
    (
        "EI",
        "I becomes 1, from behind the next instruction on.\nEI: opcode FB; states 2; flags none",
        None,
    ),
    (
        "CLRVT",
        "VT becomes 0.\nCLRVT: opcode FC; states 2; flags VT",
        None,
    ),
    (
        "NOP",
        "nothing.\nNOP: opcode FD; states 2; flags none",
        None,
    ),
    (
        "RST",
        "resets the chip.\nRST: opcode FF; states 4; flags none",
        None,
    ),
    (
        "MUL",
        "the product of two words with signs, in the long register D.\nMUL D,S: opcode FE 6C to 6F, then S D; states 16, 17, 18, 19, and 2 more where S is at 0200H or above; flags none.\nMUL D,A,S: opcode FE 4C to 4F, then S A D; states 16, 17, 18, 19, and 2 more where S is at 0200H or above; flags none",
        None,
    ),
    (
        "MULB",
        "the product of two bytes with signs, in the word D.\nMULB D,S: opcode FE 7C to 7F, then S D; states 16, 17, 18, 19, and 2 more where S is at 0200H or above; flags none.\nMULB D,A,S: opcode FE 5C to 5F, then S A D; states 16, 17, 18, 19, and 2 more where S is at 0200H or above; flags none",
        None,
    ),
    (
        "DIV",
        "as DIVU, with signs; the remainder has the sign of the dividend.\nDIV D,S: opcode FE 8C to 8F, then S D; states 26, 27, 28, 29, and 2 more where S is at 0200H or above; flags V VT",
        None,
    ),
    (
        "DIVB",
        "as DIVUB, with signs; the remainder has the sign of the dividend.\nDIVB D,S: opcode FE 9C to 9F, then S D; states 18, 19, 20, 21, and 2 more where S is at 0200H or above; flags V VT",
        None,
    ),
];

/// The instructions of the fourth part of the instruction table, in its order.
pub(crate) fn fourth() -> &'static [Row]
    ensures { map (λ row. record { code = row.0.now; sentence = row.1.now; example = option_map (λ e. (e.0.now, e.1.now)) row.2 }) result.now ≡ fourth_rows }
{
    &FOURTH
}
