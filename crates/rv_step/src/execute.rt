//! What each instruction does to the machine.

ghost use Rattle.std.specs.Prelude.{◌≡◌, ◌<◌, ℕ, None, Some, OnOk, OnErr, IfOk};
ghost use Rattle.rv_decode.specs.Instructions.{IsWellFormed};
ghost use Rattle.rv_step.specs.Harts.{IsSame, x};
ghost use Rattle.rv_step.specs.Effects.{Stores};
ghost use Rattle.rv_step.specs.Machines.{hart_of, made_of};
ghost use Rattle.rv_step.specs.Own.{IsOwn, IsStore};
ghost use Rattle.rv_step.specs.Steps.{Executes, even, loaded, store_width};
ghost use Rattle.rv_step.specs.Records.{store_of, stored_at};

use crate::alu::{imm_result, is_taken, plus, reg_result, shift_result, upper};
use crate::machine::Machine;
use crate::records::StoreRec;
use crate::words::extended;
use rv_decode::{Instr, LoadOp, StoreOp};
use std::alloc::AllocError;

impl Machine {
    /// Does the row of an instruction, and tells its store.
    pub(crate) fn execute(
        &mut self,
        instr: Instr,
        next: u64,
    ) -> Result<Option<StoreRec>, AllocError>
        requires well_formed { IsWellFormed instr }
        requires own { IsOwn instr }
        ensures executes { OnOk result (Executes instr next (hart_of self.old) (hart_of self.new)) }
        ensures store { IfOk result (λ store. store ≡ store_of instr (hart_of self.old) (hart_of self.new)) }
        ensures only { OnErr result (IsStore instr) }
        ensures stays { OnErr result (IsSame (hart_of self.new) (hart_of self.old)) }
        ensures made { made_of self.new ≡ made_of self.old }
    {
        if let Instr::Store { op, rs1, rs2, imm } = instr {
            let address = plus(self.register(rs1), imm);
            let store = self.store(op, address, rs2, next)?;
            Ok(Some(store))
        } else {
            self.change(instr, next);
            Ok(None)
        }
    }

    // Does the row of an instruction that is no store.
    fn change(&mut self, instr: Instr, next: u64)
        requires well_formed { IsWellFormed instr }
        requires own { IsOwn instr }
        requires no_store { IsStore instr → ⊥ }
        ensures executes { Executes instr next (hart_of self.old) (hart_of self.new) }
        ensures made { made_of self.new ≡ made_of self.old }
    {
        match instr {
            Instr::Lui { rd, imm } => self.write(rd, upper(imm), next),
            Instr::Auipc { rd, imm } => self.write(rd, self.pc.wrapping_add(upper(imm)), next),
            Instr::Jal { rd, off } => self.write(rd, next, plus(self.pc, off)),
            Instr::Jalr { rd, rs1, imm } => {
                self.write(rd, next, even(plus(self.register(rs1), imm)));
            }
            Instr::Branch { op, rs1, rs2, off } => {
                let taken = is_taken(op, self.register(rs1), self.register(rs2));
                self.write(0, 0, if taken { plus(self.pc, off) } else { next });
            }
            Instr::Load { op, rd, rs1, imm } => {
                let address = plus(self.register(rs1), imm);
                self.write(rd, self.load(op, address), next);
            }
            Instr::Imm { op, rd, rs1, imm } => {
                self.write(rd, imm_result(op, self.register(rs1), imm), next);
            }
            Instr::Shift { op, rd, rs1, by } => {
                self.write(rd, shift_result(op, self.register(rs1), by), next);
            }
            Instr::Reg { op, rd, rs1, rs2 } => {
                let value = reg_result(op, self.register(rs1), self.register(rs2));
                self.write(rd, value, next);
            }
            _ => self.write(0, 0, next),
        }
    }

    // What a load gives.
    #[tactic(auto, using(elf_image::proofs::Laws::read_1))]
    fn load(&self, op: LoadOp, address: u64) -> u64
        ensures { result ≡ loaded op (hart_of self.now).memory address }
    {
        match op {
            LoadOp::Lb => i64::from(self.memory.byte(address).cast_signed()).cast_unsigned(),
            LoadOp::Lh => i64::from(self.memory.half(address).cast_signed()).cast_unsigned(),
            LoadOp::Lw => extended(self.memory.word(address)),
            LoadOp::Ld => self.memory.double(address),
            LoadOp::Lbu => u64::from(self.memory.byte(address)),
            LoadOp::Lhu => u64::from(self.memory.half(address)),
            LoadOp::Lwu => u64::from(self.memory.word(address)),
        }
    }

    // Stores the low bytes of register `rs2`, and tells the bytes before and after.
    fn store(
        &mut self,
        op: StoreOp,
        address: u64,
        rs2: u8,
        next: u64,
    ) -> Result<StoreRec, AllocError>
        requires { rs2 < 32 }
        ensures stores { OnOk result (Stores (hart_of self.old) (store_width op) address (x (hart_of self.old) rs2) next (hart_of self.new)) }
        ensures told { IfOk result (λ told. told ≡ stored_at op address (hart_of self.old) (hart_of self.new)) }
        ensures stays { OnErr result (IsSame (hart_of self.new) (hart_of self.old)) }
        ensures made { made_of self.new ≡ made_of self.old }
    {
        let value = self.register(rs2);
        let width = width(op);
        let before = self.memory.read(address, op);
        self.memory.store(address, width, value)?;
        self.pc = next;
        Ok(StoreRec {
            address,
            width,
            before,
            after: self.memory.read(address, op),
        })
    }
}

// How many bytes a store writes.
fn width(op: StoreOp) -> u8
    ensures { result ≡ store_width op }
{
    match op {
        StoreOp::Sb => 1,
        StoreOp::Sh => 2,
        StoreOp::Sw => 4,
        StoreOp::Sd => 8,
    }
}

// The address with bit 0 cleared.
fn even(address: u64) -> u64
    ensures { result ≡ even address }
{
    address - address % 2
}
