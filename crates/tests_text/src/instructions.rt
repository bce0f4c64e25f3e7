//! Words and their texts, as an assembler gives them.

use rv_decode::{decode, encode};
use rv_text::write_instr;
use std::alloc::{AllocError, Global};

/// The words of small programs.
const PROGRAMS: [(u32, &str); 28] = [
    (0x00000513, "addi a0,zero,0"),
    (0x008000ef, "jal ra,8"),
    (0x00850513, "addi a0,a0,8"),
    (0x00c000ef, "jal ra,12"),
    (0xfeb51ee3, "bne a0,a1,-4"),
    (0xff5ff0ef, "jal ra,-12"),
    (0x00151593, "slli a1,a0,1"),
    (0x0000006f, "jal zero,0"),
    (0x00a585b3, "add a1,a1,a0"),
    (0x00050463, "beq a0,zero,8"),
    (0x03f51513, "slli a0,a0,63"),
    (0x00028067, "jalr zero,0(t0)"),
    (0xfff54593, "xori a1,a0,-1"),
    (0x00030067, "jalr zero,0(t1)"),
    (0x00154593, "xori a1,a0,1"),
    (0x00008067, "jalr zero,0(ra)"),
    (0xff010113, "addi sp,sp,-16"),
    (0x00000097, "auipc ra,0x0"),
    (0x01010113, "addi sp,sp,16"),
    (0x00c080e7, "jalr ra,12(ra)"),
    (0x00113423, "sd ra,8(sp)"),
    (0x00012423, "sw zero,8(sp)"),
    (0x00813083, "ld ra,8(sp)"),
    (0x00053023, "sd zero,0(a0)"),
    (0x00000073, "ecall"),
    (0x008002ef, "jal t0,8"),
    (0x00100073, "ebreak"),
    (0x0020006f, "jal zero,2"),
];

/// A word of each row of the table.
const ROWS: [(u32, &str); 66] = [
    (0xfffff537, "lui a0,0xfffff"),
    (0x00001117, "auipc sp,0x1"),
    (0xff5ff0ef, "jal ra,-12"),
    (0x7ffff06f, "jal zero,1048574"),
    (0x00c080e7, "jalr ra,12(ra)"),
    (0x00050463, "beq a0,zero,8"),
    (0xfeb51ee3, "bne a0,a1,-4"),
    (0x7e944fe3, "blt s0,s1,4094"),
    (0x81ff5063, "bge t5,t6,-4096"),
    (0x00d660e3, "bltu a2,a3,2048"),
    (0xfef77fe3, "bgeu a4,a5,-2"),
    (0xfff58503, "lb a0,-1(a1)"),
    (0x00259503, "lh a0,2(a1)"),
    (0x8005a503, "lw a0,-2048(a1)"),
    (0x00813083, "ld ra,8(sp)"),
    (0x7ff1c283, "lbu t0,2047(gp)"),
    (0x00025303, "lhu t1,0(tp)"),
    (0x004de383, "lwu t2,4(s11)"),
    (0xfea58fa3, "sb a0,-1(a1)"),
    (0x00c69fa3, "sh a2,31(a3)"),
    (0x00012423, "sw zero,8(sp)"),
    (0x80113023, "sd ra,-2048(sp)"),
    (0xff010113, "addi sp,sp,-16"),
    (0x8005a513, "slti a0,a1,-2048"),
    (0x7ff5b513, "sltiu a0,a1,2047"),
    (0xfff54593, "xori a1,a0,-1"),
    (0x0018e813, "ori a6,a7,1"),
    (0x00f9f913, "andi s2,s3,15"),
    (0x03f51513, "slli a0,a0,63"),
    (0x02065593, "srli a1,a2,32"),
    (0x40175693, "srai a3,a4,1"),
    (0xfff5851b, "addiw a0,a1,-1"),
    (0x01f5951b, "slliw a0,a1,31"),
    (0x0016d61b, "srliw a2,a3,1"),
    (0x4107d71b, "sraiw a4,a5,16"),
    (0x00a585b3, "add a1,a1,a0"),
    (0x416a8a33, "sub s4,s5,s6"),
    (0x019c1bb3, "sll s7,s8,s9"),
    (0x01cdad33, "slt s10,s11,t3"),
    (0x01ff3eb3, "sltu t4,t5,t6"),
    (0x00c5c533, "xor a0,a1,a2"),
    (0x00f756b3, "srl a3,a4,a5"),
    (0x4088d833, "sra a6,a7,s0"),
    (0x013964b3, "or s1,s2,s3"),
    (0x007372b3, "and t0,t1,t2"),
    (0x02c58533, "mul a0,a1,a2"),
    (0x02f716b3, "mulh a3,a4,a5"),
    (0x0258a833, "mulhsu a6,a7,t0"),
    (0x03c3b333, "mulhu t1,t2,t3"),
    (0x02c5c533, "div a0,a1,a2"),
    (0x02f756b3, "divu a3,a4,a5"),
    (0x0258e833, "rem a6,a7,t0"),
    (0x03c3f333, "remu t1,t2,t3"),
    (0x00c5853b, "addw a0,a1,a2"),
    (0x40f706bb, "subw a3,a4,a5"),
    (0x0058983b, "sllw a6,a7,t0"),
    (0x01c3d33b, "srlw t1,t2,t3"),
    (0x4124d43b, "sraw s0,s1,s2"),
    (0x02c5853b, "mulw a0,a1,a2"),
    (0x02f746bb, "divw a3,a4,a5"),
    (0x0258d83b, "divuw a6,a7,t0"),
    (0x03c3e33b, "remw t1,t2,t3"),
    (0x0324f43b, "remuw s0,s1,s2"),
    (0x0ff0000f, "fence"),
    (0x00000073, "ecall"),
    (0x00100073, "ebreak"),
];

/// Whether each word of the table means an instruction with this text, which has that word again.
fn are_written(alloc: Global, table: &[(u32, &str)]) -> Result<bool, AllocError> {
    for (word, text) in table {
        let Some(instr) = decode(*word) else {
            return Ok(false);
        };
        if encode(&instr) != *word || write_instr(alloc, &instr)?.as_str() != *text {
            return Ok(false);
        }
    }
    Ok(true)
}

#[test]
fn texts(rt: HostRuntime) {
    assert!(rt; are_written(rt.alloc(), &PROGRAMS) == Ok(true));
    assert!(rt; are_written(rt.alloc(), &ROWS) == Ok(true));
}
