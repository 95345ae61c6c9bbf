// What follows from the contract of the top call.
ghost use Rattle.vm_tool.specs.Laws.{AnswerIsOne, Complete, Determined, FaultHasCause, MeaningIsOne, RefusedElfDecides, WrittenFilesAreAccepted};

use crate::tables::program_tables;
use acceptance::laws::accepted_files_spell_hints;
use vm_config::Full;

/// Words are one command, or none.
pub fn meaning_is_one()
    ensures { MeaningIsOne }
{}

/// Words and files have one answer.
pub fn answer_is_one()
    ensures { AnswerIsOne }
{}

/// Over a host that tells the files of the words and counts no fault, a call gives the answer that they
/// have, unless memory was refused.
pub fn is_determined()
    ensures { Determined }
{}

/// Over such a host a call succeeds where its command can, unless memory was refused.
pub fn is_complete()
    ensures { Complete }
{}

/// An ELF file that is told and refused is said to be so, and no other file is opened, whatever else the
/// words name.
pub fn refused_elf_decides()
    ensures { RefusedElfDecides }
{}

/// A host's fault is answered only where the host counted one.
pub fn fault_has_cause()
    ensures { FaultHasCause }
{}

/// What `prove` wrote with status 0 is accepted by `check`, with the same exit code, public bytes and segments.
pub fn written_files_are_accepted()
    ensures { WrittenFilesAreAccepted }
{
    let _tables = program_tables();
    accepted_files_spell_hints::<Full>();
}
