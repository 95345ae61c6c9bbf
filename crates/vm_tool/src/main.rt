//! The program `openvm`: words in, one line and a status out.
#![tactic(auto)]

mod answer;
mod check_command;
mod command;
mod inputs;
mod laws;
mod number;
mod prove_command;
mod run_command;
mod sample_command;
mod tables;
#[cfg(test)]
mod tests;
mod tool;
mod transpile_command;

pub use answer::{Answer, Status};
pub use laws::{
    answer_is_one, fault_has_cause, is_complete, is_determined, meaning_is_one,
    refused_elf_decides, written_files_are_accepted,
};
use std::alloc::AllocError;
use std::process::ExitCode;
use std::{env, io};
pub use tool::openvm;
use vm_host::RealHost;

// The words after the program's name.
fn words_of(rt: &HostRuntime) -> io::Result<Vec<String>> {
    let mut words = Vec::new(rt.alloc());
    for word in env::args(rt)?.skip(1) {
        words.push(word).map_err(AllocError::from)?;
    }
    Ok(words)
}

fn main(rt: HostRuntime) -> ExitCode {
    let status = match words_of(&rt) {
        Ok(words) => openvm(rt.alloc(), &words, &mut RealHost::new(&rt)),
        Err(error) => match error.kind() {
            io::ErrorKind::OutOfMemory => Status::NoMemory,
            _ => Status::HostFault,
        },
    };
    ExitCode::from(status.code())
}
