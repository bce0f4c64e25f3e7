//! One half and more for each row of the table, and halves that no row has.

use rv_decode::{decode, encode};
use rvc_expand::{decode_with_length, expand, length_of};

// A half, and the word of the instruction to which it expands, as an assembler gave them.
const EXPANSIONS: [(u16, u32); 38] = [
    (0x0048, 0x00410513), // c.addi4spn a0,sp,4
    (0x1fe0, 0x3fc10413), // c.addi4spn s0,sp,1020
    (0x5de8, 0x07c5a503), // c.lw a0,124(a1)
    (0x7de8, 0x0f85b503), // c.ld a0,248(a1)
    (0xc05c, 0x00f42223), // c.sw a5,4(s0)
    (0xe698, 0x00e6b423), // c.sd a4,8(a3)
    (0x0001, 0x00000013), // c.nop
    (0x1141, 0xff010113), // c.addi sp,-16
    (0x0ffd, 0x01ff8f93), // c.addi t6,31
    (0x357d, 0xfff5051b), // c.addiw a0,-1
    (0x52bd, 0xfef00293), // c.li t0,-17
    (0x7101, 0xe0010113), // c.addi16sp sp,-512
    (0x617d, 0x1f010113), // c.addi16sp sp,496
    (0x6505, 0x00001537), // c.lui a0,1
    (0x7d81, 0xfffe0db7), // c.lui s11,0xfffe0
    (0x917d, 0x03f55513), // c.srli a0,63
    (0x9481, 0x4204d493), // c.srai s1,32
    (0x9b81, 0xfe07f793), // c.andi a5,-32
    (0x8c09, 0x40a40433), // c.sub s0,a0
    (0x8db1, 0x00c5c5b3), // c.xor a1,a2
    (0x8ed9, 0x00e6e6b3), // c.or a3,a4
    (0x8fe5, 0x0097f7b3), // c.and a5,s1
    (0x9d0d, 0x40b5053b), // c.subw a0,a1
    (0x9e35, 0x00d6063b), // c.addw a2,a3
    (0xb001, 0x801ff06f), // c.j -2048
    (0xab99, 0x5560006f), // c.j 1366
    (0xcab9, 0x04068b63), // c.beqz a3,86
    (0xf081, 0xf00490e3), // c.bnez s1,-256
    (0x12fe, 0x03f29293), // c.slli t0,63
    (0x5ffe, 0x0fc12f83), // c.lwsp t6,252(sp)
    (0x7dfe, 0x1f813d83), // c.ldsp s11,504(sp)
    (0x8782, 0x00078067), // c.jr a5
    (0x8dfe, 0x01f00db3), // c.mv s11,t6
    (0x9002, 0x00100073), // c.ebreak
    (0x9502, 0x000500e7), // c.jalr a0
    (0x9116, 0x00510133), // c.add sp,t0
    (0xdfaa, 0x0ea12e23), // c.swsp a0,252(sp)
    (0xffee, 0x1fb13c23), // c.sdsp s11,504(sp)
];

// Halves just outside the rows.
const OUTSIDE: [u16; 16] = [
    0x0000, // no bits, as C.ADDI4SPN by 0
    0x2000, // a load of floating point
    0xa000, // a store of floating point
    0x8000, // funct3 4 in quadrant 0
    0x2001, // C.ADDIW without a register
    0x6101, // C.ADDI16SP by 0
    0x6081, // C.LUI of 0
    0x9c41, // one operation past C.ADDW
    0x9c61, // two operations past C.ADDW
    0x2002, // a load of floating point at sp
    0x4002, // C.LWSP without a register
    0x6002, // C.LDSP without a register
    0x8002, // C.JR without a register
    0xa002, // a store of floating point at sp
    0x0003, // the low two bits of an instruction of four bytes
    0xffff, // the same
];

fn all_are_expanded() -> bool {
    for (half, word) in EXPANSIONS.iter() {
        match expand(*half) {
            Some(instr) if encode(&instr) == *word => {}
            _ => return false,
        }
    }
    true
}

#[test]
fn rows(rt: HostRuntime) {
    assert!(rt; all_are_expanded());
}

fn none_is_expanded() -> bool {
    for half in OUTSIDE.iter() {
        if expand(*half).is_some() {
            return false;
        }
    }
    true
}

#[test]
fn outside(rt: HostRuntime) {
    assert!(rt; none_is_expanded());
}

// Words with lengths that stand for nothing.
const WRONG_LENGTHS: [(u32, u8); 3] = [(0x4515, 4), (0x1_4515, 2), (0x4515, 3)];

fn none_is_decoded() -> bool {
    for (word, length) in WRONG_LENGTHS.iter() {
        if decode_with_length(*word, *length).is_some() {
            return false;
        }
    }
    true
}

#[test]
fn both_lengths(rt: HostRuntime) {
    let five = decode(0x00500513);
    assert!(rt; length_of(0x15) == 2 && length_of(0x13) == 4);
    assert!(rt; decode_with_length(0x00500513, 4) == five && decode_with_length(0x4515, 2) == five);
    assert!(rt; none_is_decoded());
}
