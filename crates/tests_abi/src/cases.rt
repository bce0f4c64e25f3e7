//! The worked cases. Each one is the code from 0x10000 on, which begins with `ebreak`, with the source of each word beside it,
//! and what is to be told of it.

/// A procedure, and its name.
pub(crate) struct Named {
    pub(crate) address: u64,
    pub(crate) name: &'static str,
}

/// The walk that shows a clobbered register, the procedure's entry left out.
pub(crate) struct Walk {
    pub(crate) procedure: u64,
    pub(crate) register: u8,
    pub(crate) addresses: &'static [u64],
}

/// A case: its code, its procedures, the walks of its clobbered registers in their order, and its lines.
pub(crate) struct Case {
    pub(crate) code: &'static [u32],
    pub(crate) procedures: &'static [Named],
    pub(crate) walks: &'static [Walk],
    pub(crate) lines: &'static str,
}

// A frame, all kept; frame pointer.
const C01: &[u32] = &[
    0x00100073, // ebreak
    0xfe010113, // f: addi sp,sp,-32
    0x00113c23, // sd ra,24(sp)
    0x00813823, // sd s0,16(sp)
    0x02010413, // addi s0,sp,32
    0x00000097, // auipc ra,0
    0x020080e7, // jalr 32(ra)
    0x00040113, // mv sp,s0
    0xfe010113, // addi sp,sp,-32
    0x01813083, // ld ra,24(sp)
    0x01013403, // ld s0,16(sp)
    0x02010113, // addi sp,sp,32
    0x00008067, // ret
    0x00150513, // g: addi a0,a0,1
    0x00008067, // ret
];

// A restore is missing on one path.
const C02: &[u32] = &[
    0x00100073, // ebreak
    0xff010113, // f: addi sp,sp,-16
    0x00813423, // sd s0,8(sp)
    0x00050413, // mv s0,a0
    0x00050463, // beqz a0,0x10018
    0x00813403, // ld s0,8(sp)
    0x01010113, // addi sp,sp,16
    0x00008067, // ret
];

// Wrong offset, and a slot of another register.
const C03: &[u32] = &[
    0x00100073, // ebreak
    0xfe010113, // f: addi sp,sp,-32
    0x00813823, // sd s0,16(sp)
    0x00913423, // sd s1,8(sp)
    0x00050413, // mv s0,a0
    0x00058493, // mv s1,a1
    0x00813403, // ld s0,8(sp)
    0x01013483, // ld s1,16(sp)
    0x02010113, // addi sp,sp,32
    0x00008067, // ret
];

// Sp unbalanced on one path.
const C04: &[u32] = &[
    0x00100073, // ebreak
    0xfe010113, // f: addi sp,sp,-32
    0x00050463, // beqz a0,0x10010
    0x01010113, // addi sp,sp,16
    0x01010113, // addi sp,sp,16
    0x00008067, // ret
];

// A frame above 2 KB, as clang has it.
const C05: &[u32] = &[
    0x00100073, // ebreak
    0x81010113, // f: addi sp,sp,-2032
    0x7e113423, // sd ra,2024(sp)
    0x7e813023, // sd s0,2016(sp)
    0x00002537, // lui a0,2
    0xc185051b, // addiw a0,a0,-1000
    0x40a10133, // sub sp,sp,a0
    0x00010413, // mv s0,sp
    0x00000097, // auipc ra,0
    0x024080e7, // jalr 36(ra)
    0x00002537, // lui a0,2
    0xc185051b, // addiw a0,a0,-1000
    0x00a10133, // add sp,sp,a0
    0x7e813083, // ld ra,2024(sp)
    0x7e013403, // ld s0,2016(sp)
    0x7f010113, // addi sp,sp,2032
    0x00008067, // ret
    0x00008067, // g: ret
];

// A word stored by half over a slot.
const C06: &[u32] = &[
    0x00100073, // ebreak
    0xff010113, // f: addi sp,sp,-16
    0x00813423, // sd s0,8(sp)
    0x00500413, // li s0,5
    0x00a12623, // sw a0,12(sp)
    0x00813403, // ld s0,8(sp)
    0x01010113, // addi sp,sp,16
    0x00008067, // ret
];

// Sw and lw of a saved register.
const C07: &[u32] = &[
    0x00100073, // ebreak
    0xff010113, // f: addi sp,sp,-16
    0x00912423, // sw s1,8(sp)
    0x00500493, // li s1,5
    0x00812483, // lw s1,8(sp)
    0x01010113, // addi sp,sp,16
    0x00008067, // ret
];

// Ra lost by a call; a caller of a bad routine.
const C08: &[u32] = &[
    0x00100073, // ebreak
    0xff010113, // h: addi sp,sp,-16
    0x00113423, // sd ra,8(sp)
    0x00000097, // auipc ra,0
    0x01c080e7, // jalr 28(ra)
    0x00000097, // auipc ra,0
    0x02c080e7, // jalr 44(ra)
    0x00813083, // ld ra,8(sp)
    0x01010113, // addi sp,sp,16
    0x00008067, // ret
    0xff010113, // f: addi sp,sp,-16
    0x00000097, // auipc ra,0
    0x010080e7, // jalr 16(ra)
    0x01010113, // addi sp,sp,16
    0x00008067, // ret
    0x00008067, // g: ret
    0x00100913, // k: li s2,1
    0x00008067, // ret
];

// Function pointer, CSR, a computed tail call.
const C09: &[u32] = &[
    0x00100073, // ebreak
    0xff010113, // f: addi sp,sp,-16
    0x00113423, // sd ra,8(sp)
    0xf14025f3, // csrr a1,mhartid
    0x000500e7, // jalr a0
    0x00813083, // ld ra,8(sp)
    0x01010113, // addi sp,sp,16
    0x00008067, // ret
    0x00053783, // t: ld a5,0(a0)
    0x00078067, // jr a5
];

// Dynamic allocation; sp from the frame pointer, and without it.
const C10: &[u32] = &[
    0x00100073, // ebreak
    0xfe010113, // f: addi sp,sp,-32
    0x00113c23, // sd ra,24(sp)
    0x00813823, // sd s0,16(sp)
    0x02010413, // addi s0,sp,32
    0x40a10133, // sub sp,sp,a0
    0x00010513, // mv a0,sp
    0x00000097, // auipc ra,0
    0x028080e7, // jalr 40(ra)
    0xfe040113, // addi sp,s0,-32
    0x01813083, // ld ra,24(sp)
    0x01013403, // ld s0,16(sp)
    0x02010113, // addi sp,sp,32
    0x00008067, // ret
    0x40a10133, // b: sub sp,sp,a0
    0x00a10133, // add sp,sp,a0
    0x00008067, // ret
    0x00008067, // g: ret
];

// -msave-restore, and a return by t0.
const C11: &[u32] = &[
    0x00100073, // ebreak
    0x028002ef, // f: jal t0,0x1002c
    0x00050413, // mv s0,a0
    0x00000097, // auipc ra,0
    0x00c080e7, // jalr 12(ra)
    0x0280006f, // j 0x1003c
    0x00008293, // g: mv t0,ra
    0x008000ef, // jal 0x10024
    0x00028067, // jr t0
    0x00150513, // h: addi a0,a0,1
    0x00008067, // ret
    0xff010113, // __riscv_save_1: addi sp,sp,-16
    0x00813023, // sd s0,0(sp)
    0x00113423, // sd ra,8(sp)
    0x00028067, // jr t0
    0x00013403, // __riscv_restore_1: ld s0,0(sp)
    0x00813083, // ld ra,8(sp)
    0x01010113, // addi sp,sp,16
    0x00008067, // ret
];

// A jump that is computed in an open frame; an unknown word; longjmp.
const C12: &[u32] = &[
    0x00100073, // ebreak
    0xff010113, // f: addi sp,sp,-16
    0x00813423, // sd s0,8(sp)
    0x00251513, // slli a0,a0,2
    0x00b50533, // add a0,a0,a1
    0x00050067, // jr a0
    0x00813403, // ld s0,8(sp)
    0x01010113, // addi sp,sp,16
    0x00008067, // ret
    0x0000007f, // u: no instruction
    0x00008067, // ret
    0x00053083, // longjmp: ld ra,0(a0)
    0x00853403, // ld s0,8(a0)
    0x01053103, // ld sp,16(a0)
    0x00058513, // mv a0,a1
    0x00008067, // ret
];

pub(crate) const CASES: &[Case] = &[
    Case {
        code: C01,
        procedures: &[
            Named {
                address: 0x10004,
                name: "f",
            },
            Named {
                address: 0x10034,
                name: "g",
            },
        ],
        walks: &[],
        lines: "affine-check 1\n\
         proc 0x10004 32 f\nsp kept\nra kept\ns0 kept\ns1 kept\ns2 kept\ns3 kept\ns4 kept\ns5 kept\ns6 kept\ns7 kept\ns8 kept\ns9 kept\ns10 kept\ns11 kept\n\
         proc 0x10034 0 g\nsp kept\nra kept\ns0 kept\ns1 kept\ns2 kept\ns3 kept\ns4 kept\ns5 kept\ns6 kept\ns7 kept\ns8 kept\ns9 kept\ns10 kept\ns11 kept\n\
         end 28 0 0 0\n",
    },
    Case {
        code: C02,
        procedures: &[Named {
            address: 0x10004,
            name: "f",
        }],
        walks: &[Walk {
            procedure: 0x10004,
            register: 8,
            addresses: &[0x10008, 0x1000c, 0x10010, 0x10018, 0x1001c],
        }],
        lines: "affine-check 1\n\
         proc 0x10004 16 f\nsp kept\nra kept\ns0 clobbered 0x1000c return 0x1001c is a0+0\ns1 kept\ns2 kept\ns3 kept\ns4 kept\ns5 kept\ns6 kept\ns7 kept\ns8 kept\ns9 kept\ns10 kept\ns11 kept\n\
         end 13 1 0 0\n",
    },
    Case {
        code: C03,
        procedures: &[Named {
            address: 0x10004,
            name: "f",
        }],
        walks: &[
            Walk {
                procedure: 0x10004,
                register: 8,
                addresses: &[
                    0x10008, 0x1000c, 0x10010, 0x10014, 0x10018, 0x1001c, 0x10020, 0x10024,
                ],
            },
            Walk {
                procedure: 0x10004,
                register: 9,
                addresses: &[
                    0x10008, 0x1000c, 0x10010, 0x10014, 0x10018, 0x1001c, 0x10020, 0x10024,
                ],
            },
        ],
        lines: "affine-check 1\n\
         proc 0x10004 32 f\nsp kept\nra kept\ns0 clobbered 0x10018 return 0x10024 is s1+0\ns1 clobbered 0x1001c return 0x10024 is s0+0\ns2 kept\ns3 kept\ns4 kept\ns5 kept\ns6 kept\ns7 kept\ns8 kept\ns9 kept\ns10 kept\ns11 kept\n\
         end 12 2 0 0\n",
    },
    Case {
        code: C04,
        procedures: &[Named {
            address: 0x10004,
            name: "f",
        }],
        walks: &[Walk {
            procedure: 0x10004,
            register: 2,
            addresses: &[0x10008, 0x10010, 0x10014],
        }],
        lines: "affine-check 1\n\
         proc 0x10004 32? f\nsp clobbered 0x10010 return 0x10014 is sp-16\nra kept\ns0 kept\ns1 kept\ns2 kept\ns3 kept\ns4 kept\ns5 kept\ns6 kept\ns7 kept\ns8 kept\ns9 kept\ns10 kept\ns11 kept\n\
         end 13 1 0 0\n",
    },
    Case {
        code: C05,
        procedures: &[
            Named {
                address: 0x10004,
                name: "f",
            },
            Named {
                address: 0x10044,
                name: "g",
            },
        ],
        walks: &[],
        lines: "affine-check 1\n\
         proc 0x10004 9224 f\nsp kept\nra kept\ns0 kept\ns1 kept\ns2 kept\ns3 kept\ns4 kept\ns5 kept\ns6 kept\ns7 kept\ns8 kept\ns9 kept\ns10 kept\ns11 kept\n\
         proc 0x10044 0 g\nsp kept\nra kept\ns0 kept\ns1 kept\ns2 kept\ns3 kept\ns4 kept\ns5 kept\ns6 kept\ns7 kept\ns8 kept\ns9 kept\ns10 kept\ns11 kept\n\
         end 28 0 0 0\n",
    },
    Case {
        code: C06,
        procedures: &[Named {
            address: 0x10004,
            name: "f",
        }],
        walks: &[Walk {
            procedure: 0x10004,
            register: 8,
            addresses: &[0x10008, 0x1000c, 0x10010, 0x10014, 0x10018, 0x1001c],
        }],
        lines: "affine-check 1\n\
         proc 0x10004 16 f\nsp kept\nra kept\ns0 clobbered 0x10014 return 0x1001c by overwritten 0x10010\ns1 kept\ns2 kept\ns3 kept\ns4 kept\ns5 kept\ns6 kept\ns7 kept\ns8 kept\ns9 kept\ns10 kept\ns11 kept\n\
         end 13 1 0 0\n",
    },
    Case {
        code: C07,
        procedures: &[Named {
            address: 0x10004,
            name: "f",
        }],
        walks: &[Walk {
            procedure: 0x10004,
            register: 9,
            addresses: &[0x10008, 0x1000c, 0x10010, 0x10014, 0x10018],
        }],
        lines: "affine-check 1\n\
         proc 0x10004 16 f\nsp kept\nra kept\ns0 kept\ns1 clobbered 0x10010 return 0x10018 by narrow\ns2 kept\ns3 kept\ns4 kept\ns5 kept\ns6 kept\ns7 kept\ns8 kept\ns9 kept\ns10 kept\ns11 kept\n\
         end 13 1 0 0\n",
    },
    Case {
        code: C08,
        procedures: &[
            Named {
                address: 0x10004,
                name: "h",
            },
            Named {
                address: 0x10028,
                name: "f",
            },
            Named {
                address: 0x1003c,
                name: "g",
            },
            Named {
                address: 0x10040,
                name: "k",
            },
        ],
        walks: &[
            Walk {
                procedure: 0x10028,
                register: 1,
                addresses: &[0x1002c, 0x10030, 0x10034, 0x10038],
            },
            Walk {
                procedure: 0x10040,
                register: 18,
                addresses: &[0x10044],
            },
        ],
        lines: "affine-check 1\n\
         proc 0x10004 16 h\nsp unknown 0x10010 callee 0x10028\nra unknown 0x10010 callee 0x10028\ns0 unknown 0x10010 callee 0x10028\ns1 unknown 0x10010 callee 0x10028\ns2 unknown 0x10010 callee 0x10028\ns3 unknown 0x10010 callee 0x10028\ns4 unknown 0x10010 callee 0x10028\ns5 unknown 0x10010 callee 0x10028\ns6 unknown 0x10010 callee 0x10028\ns7 unknown 0x10010 callee 0x10028\ns8 unknown 0x10010 callee 0x10028\ns9 unknown 0x10010 callee 0x10028\ns10 unknown 0x10010 callee 0x10028\ns11 unknown 0x10010 callee 0x10028\n\
         proc 0x10028 16 f\nsp unknown 0x10038 leaves\nra clobbered 0x10030 return 0x10038 is 0x10034\ns0 unknown 0x10038 leaves\ns1 unknown 0x10038 leaves\ns2 unknown 0x10038 leaves\ns3 unknown 0x10038 leaves\ns4 unknown 0x10038 leaves\ns5 unknown 0x10038 leaves\ns6 unknown 0x10038 leaves\ns7 unknown 0x10038 leaves\ns8 unknown 0x10038 leaves\ns9 unknown 0x10038 leaves\ns10 unknown 0x10038 leaves\ns11 unknown 0x10038 leaves\n\
         proc 0x1003c 0 g\nsp kept\nra kept\ns0 kept\ns1 kept\ns2 kept\ns3 kept\ns4 kept\ns5 kept\ns6 kept\ns7 kept\ns8 kept\ns9 kept\ns10 kept\ns11 kept\n\
         proc 0x10040 0 k\nsp kept\nra kept\ns0 kept\ns1 kept\ns2 clobbered 0x10040 return 0x10044 is 0x1\ns3 kept\ns4 kept\ns5 kept\ns6 kept\ns7 kept\ns8 kept\ns9 kept\ns10 kept\ns11 kept\n\
         assumes leaves 1\n\
         end 27 2 27 0\n",
    },
    Case {
        code: C09,
        procedures: &[
            Named {
                address: 0x10004,
                name: "f",
            },
            Named {
                address: 0x10020,
                name: "t",
            },
        ],
        walks: &[],
        lines: "affine-check 1\n\
         proc 0x10004 16 f\nsp kept\nra kept\ns0 kept\ns1 kept\ns2 kept\ns3 kept\ns4 kept\ns5 kept\ns6 kept\ns7 kept\ns8 kept\ns9 kept\ns10 kept\ns11 kept\n\
         proc 0x10020 0 t\nsp kept\nra kept\ns0 kept\ns1 kept\ns2 kept\ns3 kept\ns4 kept\ns5 kept\ns6 kept\ns7 kept\ns8 kept\ns9 kept\ns10 kept\ns11 kept\n\
         assumes foreign 1\nassumes tails 1\n\
         end 28 0 0 0\n",
    },
    Case {
        code: C10,
        procedures: &[
            Named {
                address: 0x10004,
                name: "f",
            },
            Named {
                address: 0x10038,
                name: "b",
            },
            Named {
                address: 0x10044,
                name: "g",
            },
        ],
        walks: &[],
        lines: "affine-check 1\n\
         proc 0x10004 32? f\nsp kept\nra kept\ns0 kept\ns1 kept\ns2 kept\ns3 kept\ns4 kept\ns5 kept\ns6 kept\ns7 kept\ns8 kept\ns9 kept\ns10 kept\ns11 kept\n\
         proc 0x10038 0? b\nsp unknown 0x1003c lost-sp\nra kept\ns0 kept\ns1 kept\ns2 kept\ns3 kept\ns4 kept\ns5 kept\ns6 kept\ns7 kept\ns8 kept\ns9 kept\ns10 kept\ns11 kept\n\
         proc 0x10044 0 g\nsp kept\nra kept\ns0 kept\ns1 kept\ns2 kept\ns3 kept\ns4 kept\ns5 kept\ns6 kept\ns7 kept\ns8 kept\ns9 kept\ns10 kept\ns11 kept\n\
         assumes stack 1\n\
         end 41 0 1 0\n",
    },
    Case {
        code: C11,
        procedures: &[
            Named {
                address: 0x10004,
                name: "f",
            },
            Named {
                address: 0x10018,
                name: "g",
            },
            Named {
                address: 0x10024,
                name: "h",
            },
        ],
        walks: &[],
        lines: "affine-check 1\n\
         proc 0x10004 16 f\nsp kept\nra kept\ns0 kept\ns1 kept\ns2 kept\ns3 kept\ns4 kept\ns5 kept\ns6 kept\ns7 kept\ns8 kept\ns9 kept\ns10 kept\ns11 kept\n\
         proc 0x10018 0 g\nsp kept\nra kept\ns0 kept\ns1 kept\ns2 kept\ns3 kept\ns4 kept\ns5 kept\ns6 kept\ns7 kept\ns8 kept\ns9 kept\ns10 kept\ns11 kept\n\
         proc 0x10024 0 h\nsp kept\nra kept\ns0 kept\ns1 kept\ns2 kept\ns3 kept\ns4 kept\ns5 kept\ns6 kept\ns7 kept\ns8 kept\ns9 kept\ns10 kept\ns11 kept\n\
         end 42 0 0 0\n",
    },
    Case {
        code: C12,
        procedures: &[
            Named {
                address: 0x10004,
                name: "f",
            },
            Named {
                address: 0x10024,
                name: "u",
            },
            Named {
                address: 0x1002c,
                name: "longjmp",
            },
        ],
        walks: &[],
        lines: "affine-check 1\n\
         proc 0x10004 16 f\nsp unknown 0x10014 jump\nra unknown 0x10014 jump\ns0 unknown 0x10014 jump\ns1 unknown 0x10014 jump\ns2 unknown 0x10014 jump\ns3 unknown 0x10014 jump\ns4 unknown 0x10014 jump\ns5 unknown 0x10014 jump\ns6 unknown 0x10014 jump\ns7 unknown 0x10014 jump\ns8 unknown 0x10014 jump\ns9 unknown 0x10014 jump\ns10 unknown 0x10014 jump\ns11 unknown 0x10014 jump\n\
         proc 0x10024 0 u\nsp unknown 0x10024 no-instruction\nra unknown 0x10024 no-instruction\ns0 unknown 0x10024 no-instruction\ns1 unknown 0x10024 no-instruction\ns2 unknown 0x10024 no-instruction\ns3 unknown 0x10024 no-instruction\ns4 unknown 0x10024 no-instruction\ns5 unknown 0x10024 no-instruction\ns6 unknown 0x10024 no-instruction\ns7 unknown 0x10024 no-instruction\ns8 unknown 0x10024 no-instruction\ns9 unknown 0x10024 no-instruction\ns10 unknown 0x10024 no-instruction\ns11 unknown 0x10024 no-instruction\n\
         proc 0x1002c 0? longjmp\nsp unknown 0x1003c leaves\nra unknown 0x1003c leaves\ns0 unknown 0x1003c leaves\ns1 unknown 0x1003c leaves\ns2 unknown 0x1003c leaves\ns3 unknown 0x1003c leaves\ns4 unknown 0x1003c leaves\ns5 unknown 0x1003c leaves\ns6 unknown 0x1003c leaves\ns7 unknown 0x1003c leaves\ns8 unknown 0x1003c leaves\ns9 unknown 0x1003c leaves\ns10 unknown 0x1003c leaves\ns11 unknown 0x1003c leaves\n\
         assumes partial 2\nassumes leaves 1\n\
         end 0 0 42 0\n",
    },
];
