// Programs of boards that have a beacon. A load of a register from a number has five state times, from a register four; EI and
// NOP have two, a jump to itself seven, DJNZ nine, an entry with the stack in the register file twelve. The access is made in
// the last of them. A period of n states that is written in state w ends in w + n and each n states later.

/// A program at 2080H, with its service routine at 2100H, to which the vector of request 6 leads; what drives the inputs; up to
/// which state it runs; what is printed first; and what stands in memory then.
pub struct Row {
    pub shows: &'static str,
    pub program: &'static [u8],
    pub service: &'static [u8],
    pub stimuli: &'static str,
    pub until: u64,
    pub printed: &'static str,
    pub memory: &'static [(u16, u8)],
}

/// Boards with a beacon alone. The comment over each has its program, and how its states are counted.
pub static ROWS: [Row; 13] = [
    // LDB 02H,#10; LDB 16H,#01H; L: SJMP L
    // The count is written in state 4. 16H of window 0 is IOC1, so no period begins in state 9. After 49 five states of the
    // period that ends in 54 are left.
    Row {
        shows: "the first lamp turns at each end of a period, the second where the first goes out",
        program: &[0xB1, 0x0A, 0x02, 0xB1, 0x01, 0x16, 0x27, 0xFE],
        service: &[],
        stimuli: "",
        until: 50,
        printed: "P 14 HSO2 1\nP 24 HSO2 0\nP 24 HSO3 1\nP 34 HSO2 1\nP 44 HSO2 0\nP 44 HSO3 0\nX 50 spent\nPC 2086\n",
        memory: &[(0x02, 5)],
    },
    // LDB 16H,#10H; LDB 06H,#24H; LD 04H,#8; LDB 02H,#26; NOP; NOP; NOP; LDB 22H,#4; L: DJNZ 22H,L; LDB 0FH,#0FEH; M: SJMP M
    // The command for HSO4 is loaded in state 14, so slot 15 mod 8 takes it, which looks in 8 * 8 + 7 = 71. The count is written
    // in state 19: 45, 71. The loads, six states of NOP and 36 of DJNZ lead to 66, so P10 is written in 71.
    Row {
        shows: "in one state the edges of the units come first, then those of the beacon, then those of an access",
        program: &[
            0xB1, 0x10, 0x16, 0xB1, 0x24, 0x06, 0xA1, 0x08, 0x00, 0x04, 0xB1, 0x1A, 0x02, 0xFD,
            0xFD, 0xFD, 0xB1, 0x04, 0x22, 0xE0, 0x22, 0xFD, 0xB1, 0xFE, 0x0F, 0x27, 0xFE,
        ],
        service: &[],
        stimuli: "",
        until: 90,
        printed: "P 45 HSO2 1\nP 71 HSO4 1\nP 71 HSO2 0\nP 71 HSO3 1\nP 71 P10 0\nX 90 spent\nPC 2099\n",
        memory: &[],
    },
    // LD 18H,#0100H; LDB 08H,#40H; LDB 02H,#30; EI; L: SJMP L
    // 2100H: LDB 20H,02H; LDB 14H,#1; LDB 21H,16H; LDB 22H,16H; LDB 14H,#0; M: SJMP M
    // The count is written in state 14: 44, 74. The jump begins in 17, 24, 31 and 38; the choice of 45 sees the request, and
    // the entry ends in 56. In 60 sixteen of the thirty states have passed. In 69 and 73 the first lamp is lit, and a period
    // has ended since the last read, then not. The return address 208BH is pushed.
    Row {
        shows: "its request is entered, and both registers are read in their windows",
        program: &[
            0xA1, 0x00, 0x01, 0x18, 0xB1, 0x40, 0x08, 0xB1, 0x1E, 0x02, 0xFB, 0x27, 0xFE,
        ],
        service: &[
            0xB0, 0x02, 0x20, 0xB1, 0x01, 0x14, 0xB0, 0x16, 0x21, 0xB0, 0x16, 0x22, 0xB1, 0x00,
            0x14, 0x27, 0xFE,
        ],
        stimuli: "",
        until: 90,
        printed: "P 44 HSO2 1\nI 56 6 208B\nP 74 HSO2 0\nP 74 HSO3 1\nX 90 spent\nPC 210F\nPSW 0240\nWSR 00\n",
        memory: &[
            (0x20, 14),
            (0x21, 0x82),
            (0x22, 0x02),
            (0xFE, 0x8B),
            (0xFF, 0x20),
        ],
    },
    // LDB 14H,#1; LDB 02H,#5
    Row {
        shows: "the count is no register of window 1",
        program: &[0xB1, 0x01, 0x14, 0xB1, 0x05, 0x02],
        service: &[],
        stimuli: "",
        until: 90,
        printed: "U 9 7 2083\nX 9 undefined\nPC 2083\n",
        memory: &[],
    },
    // LDB 14H,#0FH; LDB 20H,16H
    Row {
        shows: "the lamps are no register of window 15",
        program: &[0xB1, 0x0F, 0x14, 0xB0, 0x16, 0x20],
        service: &[],
        stimuli: "",
        until: 90,
        printed: "U 8 7 2083\nX 8 undefined\nPC 2083\n",
        memory: &[],
    },
    // LD 20H,02H
    Row {
        shows: "a word of the count and of HSI_MODE, which is not read, is refused",
        program: &[0xA0, 0x02, 0x20],
        service: &[],
        stimuli: "",
        until: 90,
        printed: "U 3 7 2080\nX 3 undefined\nPC 2080\n",
        memory: &[],
    },
    // LDB 02H,#10; LDB 14H,#1; LD 16H,#1
    // The period that was begun in state 4 ends in the state of the refusal, which leaves the first lamp lit, single states as
    // the unit, and an end that was not read.
    Row {
        shows: "the second byte of a word is no register of window 1, and so neither is written",
        program: &[0xB1, 0x0A, 0x02, 0xB1, 0x01, 0x14, 0xA1, 0x01, 0x00, 0x16],
        service: &[],
        stimuli: "",
        until: 90,
        printed: "P 14 HSO2 1\nU 14 7 2086\nX 14 undefined\nPC 2086\n",
        memory: &[(0x16, 0x82)],
    },
    // LD 02H,#0110H; L: SJMP L
    // The count is written in state 4, and 01H into HSI_MODE.
    Row {
        shows: "a word is written to the beacon and to the board, byte by byte",
        program: &[0xA1, 0x10, 0x01, 0x02, 0x27, 0xFE],
        service: &[],
        stimuli: "",
        until: 30,
        printed: "P 20 HSO2 1\nX 30 spent\nPC 2084\n",
        memory: &[],
    },
    // LDB 02H,#100; LDB 14H,#1; LDB 16H,#1; LDB 14H,#0; IDLPD #1
    // 16H of window 1 is written in state 14, and begins a period of 100 * 4294967296 states.
    Row {
        shows: "long periods are idled through at once",
        program: &[
            0xB1, 0x64, 0x02, 0xB1, 0x01, 0x14, 0xB1, 0x01, 0x16, 0xB1, 0x00, 0x14, 0xF6, 0x01,
        ],
        service: &[],
        stimuli: "",
        until: 1_000_000_000_000,
        printed: "P 429496729614 HSO2 1\nP 858993459214 HSO2 0\nP 858993459214 HSO3 1\nX 1000000000000 spent\nPC 208E\n",
        memory: &[],
    },
    // LDB 06H,#20H; LD 04H,#10; LDB 06H,#00H; LD 04H,#12; LDB 02H,#58; L: SJMP L
    // HSO0 is loaded in states 9 and 19, so slots 2 and 4 look in 82 and 100. The count is written in 24: 82. HSI3 is high from
    // 83 to 100, eighteen states: 82 + 58 + 18 = 158.
    Row {
        shows: "an output that is wired to HSI3 holds the beacon from the state after on",
        program: &[
            0xB1, 0x20, 0x06, 0xA1, 0x0A, 0x00, 0x04, 0xB1, 0x00, 0x06, 0xA1, 0x0C, 0x00, 0x04,
            0xB1, 0x3A, 0x02, 0x27, 0xFE,
        ],
        service: &[],
        stimuli: "= HSO0 HSI3\n",
        until: 170,
        printed: "P 82 HSO0 1\nP 82 HSO2 1\nP 100 HSO0 0\nP 158 HSO2 0\nP 158 HSO3 1\nX 170 spent\nPC 2091\n",
        memory: &[],
    },
    // LDB 02H,#10; L: SJMP L
    Row {
        shows: "a wire carries the output, and not what a further unit does to its pin",
        program: &[0xB1, 0x0A, 0x02, 0x27, 0xFE],
        service: &[],
        stimuli: "= HSO2 HSI3\n",
        until: 30,
        printed: "P 14 HSO2 1\nP 24 HSO2 0\nP 24 HSO3 1\nX 30 spent\nPC 2083\n",
        memory: &[],
    },
    // LDB 02H,#10; L: SJMP L
    // In state 14 one state of the period is left, and HSI3 is high: it passes in 20.
    Row {
        shows: "a stimulus holds the beacon in its own state",
        program: &[0xB1, 0x0A, 0x02, 0x27, 0xFE],
        service: &[],
        stimuli: "@14 HSI3 1\n@20 HSI3 0\n",
        until: 32,
        printed: "P 20 HSO2 1\nP 30 HSO2 0\nP 30 HSO3 1\nX 32 spent\nPC 2083\n",
        memory: &[],
    },
    // LDB 06H,#0FH; LD 04H,#5; LDB 02H,#30; L: SJMP L
    // Channel 15 is loaded in state 9, so slot 2 looks in 42, two states before the end of the period of 14: 42 + 30 = 72.
    Row {
        shows: "channel 15 begins a period",
        program: &[
            0xB1, 0x0F, 0x06, 0xA1, 0x05, 0x00, 0x04, 0xB1, 0x1E, 0x02, 0x27, 0xFE,
        ],
        service: &[],
        stimuli: "",
        until: 80,
        printed: "P 72 HSO2 1\nX 80 spent\nPC 208A\n",
        memory: &[],
    },
];

/// A board with a beacon and a metronome: `LDB 02H,#205`; `L: SJMP L`. The beacon is held before its count is written in state 4,
/// and until 795: 795 + 205 - 1 = 999. That is the first state in which the metronome beats. Before it no request was raised.
pub static ROW_OF_TWO: Row = Row {
    shows: "two units end in one state: their edges come in the order of the pins, and both requests are raised",
    program: &[0xB1, 0xCD, 0x02, 0x27, 0xFE],
    service: &[],
    stimuli: "@1 HSI3 1\n@795 HSI3 0\n",
    until: 1000,
    printed: "P 999 HSO1 1\nP 999 HSO2 1\nX 1000 spent\nPC 2083\n",
    memory: &[(0x02, 205), (0x09, 0x40), (0x12, 0x02)],
};
