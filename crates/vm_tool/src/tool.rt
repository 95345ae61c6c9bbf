// The top call.
ghost use Rattle.std.specs.Prelude.{◌≡◌, map, string_bytes, Option, IfSome};
ghost use Rattle.std.specs.Option.{option_map};
ghost use Rattle.vm_tool.specs.Command.{Command, IsInLimits, Means};
ghost use Rattle.vm_tool.specs.Form.{command_of};
ghost use Rattle.vm_tool.specs.Headline.{Headline};
ghost use Rattle.vm_tool.specs.Outcome.{Answers, Finds, Speaks, halt_of};

use crate::answer::{Answer, Halt, Status};
use crate::check_command::find_check;
use crate::command::{Form, parse_words};
use crate::prove_command::find_prove;
use crate::run_command::find_run;
use crate::sample_command::find_sample;
use crate::transpile_command::find_transpile;
use std::alloc::Global;
use vm_host::Host;

/// Does what the words say, and answers the status. The words are those after the program's name.
///
/// Where `check` ends with status 0, the ELF file's program runs on the hints that the table file spells and ends as the
/// line says, or two different nodes of trees that these files hold have one digest.
pub fn openvm<H: Host>(alloc: Global, words: &[String], host: &mut H) -> Status
    ensures headline { Headline (map string_bytes words.now) (H.state host.old) (H.state host.new) result }
    ensures answers { (command : Option Command) × Means (map string_bytes words.now) command × Answers command (H.state host.old) (H.state host.new) result }
{
    perform(alloc, parse_words(words), host)
}

// Finds the answer to a form, and says it.
fn perform<H: Host>(alloc: Global, form: Option<Form>, host: &mut H) -> Status
    requires { IfSome (option_map command_of form) IsInLimits }
    ensures { Answers (option_map command_of form.entry) (H.state host.old) (H.state host.new) result }
{
    match find(alloc, form, host) {
        Halt::Found(answer) => say(alloc, &answer, host),
        Halt::Host(error) => Status::from(error),
    }
}

// Finds the answer, before anything is said.
fn find<H: Host>(alloc: Global, form: Option<Form>, host: &mut H) -> Halt
    requires { IfSome (option_map command_of form) IsInLimits }
    ensures { Finds (option_map command_of form.entry) (H.state host.old) (H.state host.new) result }
{
    match form {
        None => Halt::Found(Answer::Words),
        Some(Form::Run { elf, hints, steps }) => halt(find_run(alloc, elf, hints, steps, host)),
        Some(Form::Transpile { elf }) => halt(find_transpile(alloc, elf, host)),
        Some(Form::Check { elf, tables }) => halt(find_check(alloc, elf, tables, host)),
        Some(
            Form::Prove {
                elf,
                hints,
                out,
                per_segment,
            },
        ) => halt(find_prove(alloc, elf, hints, out, per_segment, host)),
        Some(Form::Sample { number, out }) => halt(find_sample(alloc, number, out, host)),
    }
}

fn halt(found: Result<Answer, Halt>) -> Halt
    ensures { result ≡ halt_of found }
{
    match found {
        Ok(answer) => Halt::Found(answer),
        Err(halt) => halt,
    }
}

// Says the answer's line.
fn say<H: Host>(alloc: Global, answer: &Answer, host: &mut H) -> Status
    ensures { Speaks answer.now (H.state host.old) (H.state host.new) result }
{
    let Ok(text) = answer.text(alloc) else {
        return Status::NoMemory;
    };
    match host.say(text.as_bytes()) {
        Ok(()) => answer.status(),
        Err(error) => Status::from(error),
    }
}
