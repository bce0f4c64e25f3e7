//! One step.

ghost use Rattle.std.specs.Prelude.{◌≡◌, ◌≢◌, ◌+◌, ◌-◌, ◌^◌, min, Err, OnOk, OnErr, IfOk, IfErr, IfSome};
ghost use Rattle.rv_step.specs.Harts.{Hart, IsSame};
ghost use Rattle.rv_step.specs.Machines.{hart_of, made_of};
ghost use Rattle.rv_step.specs.Own.{IsOwn, IsStore};
ghost use Rattle.rv_step.specs.Steps.{Step, IsAt};
ghost use Rattle.rv_step.specs.Records.{StopsWith, StopsAt, IsAtStore, IsRecord};
ghost use Rattle.rv_decode.specs.Instructions.{IsWellFormed};
ghost use Rattle.rv_step.specs.declared.records.Stop.{Stop};

use crate::Memory;
use crate::machine::Machine;
use crate::records::{StepRec, Stop};
use elf_image::Fetched;
use rv_decode::Instr;
use rvc_expand::decode_with_length;

/// The number of ECALL's service `exit` in a7.
const EXIT: u64 = 93;

const A0: u8 = 10;

const A7: u8 = 17;

impl Machine {
    /// Makes one step, by the table of what instructions do, and tells it. Where there is none, by ECALL
    /// or for want of memory, the machine stays as it was, and the answer says why. Memory is wanted
    /// only by stores.
    pub fn step(&mut self) -> Result<StepRec, Stop>
        ensures stepped { OnOk result (Step (hart_of self.old) (hart_of self.new)) }
        ensures only { OnOk result ((n : Hart) → Step (hart_of self.old) n → IsSame (hart_of self.new) n) }
        ensures told { IfOk result (IsRecord self.old self.new) }
        ensures counted { OnOk result (made_of self.new ≡ min (made_of self.old + 1) (2 ^ 64 - 1)) }
        ensures stays { OnErr result (IsSame (hart_of self.new) (hart_of self.old)) }
        ensures count_stays { OnErr result (made_of self.new ≡ made_of self.old) }
        ensures stops { (why : Stop) → StopsWith (hart_of self.old) why → result ≡ Err why }
        ensures stopped { IfErr result (λ why. why ≢ Stop.Memory → StopsWith (hart_of self.old) why) }
        ensures at_store { IfErr result (λ why. why ≡ Stop.Memory → IsAtStore (hart_of self.old)) }
    {
        let Some(at) = self.fetch() else {
            return Err(Stop::Outside(self.pc));
        };
        let Some(instr) = decode_with_length(at.word, at.length) else {
            return Err(Stop::Illegal(at.word));
        };
        if let Some(why) = self.stop_at(instr) {
            return Err(why);
        }
        self.make(at, instr)
    }

    // Why the machine makes no step of its own at an instruction.
    fn stop_at(&self, instr: Instr) -> Option<Stop>
        ensures { StopsAt (hart_of self.now) instr result }
    {
        match instr {
            Instr::Ebreak => Some(Stop::Break(self.pc)),
            Instr::Ecall if self.register(A7) == EXIT => Some(Stop::Exit(self.register(A0))),
            Instr::Ecall => Some(Stop::Ecall(self.register(A7))),
            _ => None,
        }
    }

    /// What is fetched at pc and the instruction that it means, where the machine makes a step of its own there.
    pub fn own(&self) -> Option<(Fetched, Instr)>
        ensures is_at { IfSome result (λ own. IsAt (hart_of self.now) own.0 own.1) }
        ensures own { IfSome result (λ own. IsOwn own.1) }
        ensures well_formed { IfSome result (λ own. IsWellFormed own.1) }
    {
        let at = self.fetch()?;
        let instr = decode_with_length(at.word, at.length)?;
        match instr {
            Instr::Ecall | Instr::Ebreak => None,
            _ => Some((at, instr)),
        }
    }

    /// Makes the step of an instruction at pc that is the machine's own, and tells nothing of it.
    pub fn advance(&mut self, at: Fetched, instr: Instr) -> Result<(), Memory>
        requires is_at { IsAt (hart_of self.old) at instr }
        requires well_formed { IsWellFormed instr }
        requires own { IsOwn instr }
        ensures stepped { OnOk result (Step (hart_of self.old) (hart_of self.new)) }
        ensures counted { OnOk result (made_of self.new ≡ min (made_of self.old + 1) (2 ^ 64 - 1)) }
        ensures stays { OnErr result (IsSame (hart_of self.new) (hart_of self.old)) }
        ensures count_stays { OnErr result (made_of self.new ≡ made_of self.old) }
        ensures at_store { OnErr result (IsStore instr) }
    {
        let next = self.pc.wrapping_add(u64::from(at.length));
        match self.execute(instr, next) {
            Ok(_) => {
                self.made = self.made.saturating_add(1);
                Ok(())
            }
            Err(_) => Err(Memory),
        }
    }

    // Makes the step of an instruction.
    fn make(&mut self, at: Fetched, instr: Instr) -> Result<StepRec, Stop>
        requires is_at { IsAt (hart_of self.old) at instr }
        requires well_formed { IsWellFormed instr }
        requires own { IsOwn instr }
        ensures stepped { OnOk result (Step (hart_of self.old) (hart_of self.new)) }
        ensures told { IfOk result (IsRecord self.old self.new) }
        ensures counted { OnOk result (made_of self.new ≡ min (made_of self.old + 1) (2 ^ 64 - 1)) }
        ensures stays { OnErr result (IsSame (hart_of self.new) (hart_of self.old)) }
        ensures count_stays { OnErr result (made_of self.new ≡ made_of self.old) }
        ensures memory { IfErr result (λ why. why ≡ Stop.Memory) }
        ensures at_store { OnErr result (IsStore instr) }
    {
        let (index, pc, regs) = (self.made, self.pc, self.registers);
        let next = pc.wrapping_add(u64::from(at.length));
        match self.execute(instr, next) {
            Ok(store) => {
                self.made = index.saturating_add(1);
                Ok(StepRec {
                    index,
                    made: true,
                    pc,
                    word: at.word,
                    length: at.length,
                    regs,
                    next: self.pc,
                    store,
                })
            }
            Err(_) => Err(Stop::Memory),
        }
    }
}
