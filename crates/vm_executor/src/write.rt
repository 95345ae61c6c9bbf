// The accesses that a step makes.
ghost use Rattle.std.specs.Prelude.{◌≡◌, ◌+◌, ◌≤◌, ◌^◌, ℕ, List, Some, IfOk};
ghost use Rattle.std.specs.List.{AllByRecursion};
ghost use Rattle.vm_isa.specs.Blocks.{Meets};
ghost use Rattle.vm_isa.specs.Words.{IsWord};
ghost use Rattle.vm_isa.specs.Means.{Meaning, means_of, next_access_of};
ghost use Rattle.vm_isa.specs.declared.meaning.NextAccess.TheVariants.{Done};
ghost use Rattle.vm_executor.specs.Machine.{times_after};
ghost use Rattle.vm_executor.specs.Memory.{now_of, times_of};
ghost use Rattle.vm_executor.specs.Pages.{Times};
ghost use Rattle.vm_executor.specs.Read.{AreReached};
ghost use Rattle.vm_executor.specs.Write.{AreAt, AreMade, IsPlanned};

use crate::OutOfMemory;
use crate::block::Reached;
use crate::memory::Memory;
use crate::page::is_word;
use crate::read::Reading;
use std::alloc::Global;
use vm_isa::{Access, AccessList, TimedAccess, VmInstr, new_word};

// The time of a block's last access after these accesses, from its time before them.
fn time_after(made: &AccessList, block: &Reached, time: u32) -> u32
    ensures { (times : Times) → times block.now.space block.now.pointer ≡ time → result ≡ times_after times made.now block.now.space block.now.pointer }
{
    let mut last = time;
    for place in 0..made.len() {
        if let Some(earlier) = made.at(place) {
            if earlier.access.space == block.space && earlier.access.pointer == block.pointer {
                last = earlier.time;
            }
        }
    }
    last
}

/// The accesses of an instruction, from what was read for it, beginning at a time.
pub fn plan(
    alloc: Global,
    memory: &Memory,
    instr: &VmInstr,
    reading: &Reading,
    given: [u8; 4],
    time: u32,
) -> Result<AccessList, OutOfMemory>
    requires whole { next_access_of instr.now reading.now.words.items ≡ Done }
    requires meets { (word : List ℕ) (m : Meaning) → means_of instr.now reading.now.words.items word ≡ Some m → Meets (now_of memory.now) m.accesses }
    requires reached { AreReached instr.now memory.now reading.now.words.items reading.now.blocks.items }
    requires begun { 1 ≤ time }
    requires early { time ≤ 2 ^ 29 }
    ensures planned { IfOk result (IsPlanned instr.now reading.now.words.items given time (times_of memory.now)) }
    ensures words { IfOk result (λ planned. AllByRecursion (λ a. IsWord a.access.old) planned) }
{
    let words = reading.words.as_slice();
    let mut planned = AccessList::new(alloc);
    for (number, block) in reading.blocks.iter().enumerate() {
        let old = words[number];
        is_word(&old);
        let access = Access {
            space: block.space,
            pointer: block.pointer,
            old,
            new: new_word(instr, words, number as u32, given),
        };
        let before = time_after(&planned, block, memory.time(block));
        planned.push(TimedAccess {
            access,
            time: time + block.slot,
            before,
        })?;
    }
    Ok(planned)
}

/// Makes accesses of these blocks.
pub fn make(memory: &mut Memory, blocks: &[Reached], planned: &AccessList)
    requires { AreAt memory.old blocks.now planned.now }
    ensures { AreMade memory.old memory.new planned.now }
{
    for (number, block) in blocks.iter().enumerate() {
        if let Some(made) = planned.at(number as u32) {
            memory.put(block, made.access.new, made.time);
        }
    }
}
