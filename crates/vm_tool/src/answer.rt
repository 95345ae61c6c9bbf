// What the program answers: a status and a line.
ghost use Rattle.std.specs.Prelude.{◌≡◌, length, IfOk, string_bytes};
ghost use Rattle.hex.specs.Hex.{encode_lower};
ghost use Rattle.vm_tool.specs.Listing.{line_of_row, listing_of};
ghost use Rattle.vm_tool.specs.Answer.{status_of, status_of_error, text_of, refusal_text, cause_text, line_of_accepted, line_of_claim, line_of_exit, line_of_proved, line_of_sample, line_of_trap, code_of};

use elf_image::ImageError;
use rv_run::{Cause, Trap};
use std::alloc::{AllocError, Global};
use vm_checker::{Accepted, Reason};
use vm_host::HostError;
use vm_isa::VmInstr;
use vm_prover::Proved;
use vm_transpile::Program;

/// How the program ends.
#[derive(Clone, Copy, Debug, PartialEq, Eq)]
pub enum Status {
    Done,
    /// A check found its tables wrong.
    Rejected,
    /// The words are no command.
    Words,
    ElfRefused,
    /// A file or the standard output failed.
    HostFault,
    Trapped,
    /// A limit was reached.
    Limit,
    NoMemory,
}

impl Status {
    /// The number that the process ends with.
    pub fn code(self) -> u8
        ensures { result ≡ code_of self }
    {
        self as u8
    }
}

/// What is found, before it is said.
#[derive(Drop)]
pub enum Answer {
    /// The words are no command.
    Words,
    /// The ELF file has more than 2^26 bytes.
    ElfTooLong,
    ElfRefused(ImageError),
    /// The hint file is too long.
    HintLimit,
    /// The run ended by a terminate.
    Exit {
        code: u8,
        public: [u8; 64],
        steps: u64,
    },
    /// The rows of the program.
    Listing(Program),
    /// The table file was written.
    Proved(Proved),
    /// The table file of the sample of this number was written.
    Sampled {
        number: u32,
        claim: Proved,
    },
    /// The run has too many segments.
    SegmentLimit,
    /// The table file is accepted.
    Accepted(Accepted),
    /// The table file is rejected.
    Rejected(Reason),
    Trapped(Trap),
    /// One step more than the limit went on.
    StepLimit {
        limit: u64,
    },
}

/// Why the work ends early: an answer is found, or the host failed, or memory was refused.
#[derive(Drop)]
pub enum Halt {
    Found(Answer),
    Host(HostError),
}

impl From<HostError> for Status {
    ghost from_gives = { λ error status. status ≡ status_of_error error };

    fn from(error: HostError) -> Status {
        match error {
            HostError::Failed => Status::HostFault,
            HostError::OutOfMemory => Status::NoMemory,
        }
    }
}

impl Answer {
    /// The status that the answer ends the program with.
    pub fn status(&self) -> Status
        ensures { result ≡ status_of self.now }
    {
        match self {
            Answer::Words => Status::Words,
            Answer::ElfTooLong | Answer::ElfRefused(_) => Status::ElfRefused,
            Answer::HintLimit | Answer::StepLimit { .. } | Answer::SegmentLimit => Status::Limit,
            Answer::Exit { .. }
            | Answer::Listing(_)
            | Answer::Accepted(_)
            | Answer::Proved(_)
            | Answer::Sampled { .. } => Status::Done,
            Answer::Rejected(_) => Status::Rejected,
            Answer::Trapped(_) => Status::Trapped,
        }
    }

    /// The line or lines, each with its newline.
    pub fn text(&self, alloc: Global) -> Result<String, AllocError>
        ensures { IfOk result (λ text. string_bytes text ≡ text_of self.now) }
    {
        match self {
            Answer::Words => String::from_str(alloc, "words\n"),
            Answer::ElfTooLong => String::from_str(alloc, "elf too-long\n"),
            Answer::ElfRefused(refusal) => {
                let refusal = refusal_name(*refusal);
                format!(in alloc; "elf {refusal}\n")
            }
            Answer::HintLimit => String::from_str(alloc, "limit hints 67108864\n"),
            Answer::Exit {
                code,
                public,
                steps,
            } => {
                let digits = hex::encode(alloc, public.as_slice())?;
                exit_line(alloc, *code, &digits, *steps)
            }
            Answer::Listing(program) => listing(alloc, program),
            Answer::Accepted(accepted) => accepted_line(alloc, accepted),
            Answer::Proved(claim) => proved_line(alloc, claim),
            Answer::Sampled { number, claim } => {
                let digits = hex::encode(alloc, claim.public.as_slice())?;
                sample_line(alloc, *number, claim, &digits)
            }
            Answer::SegmentLimit => String::from_str(alloc, "limit segments 4096\n"),
            Answer::Rejected(reason) => {
                let reason = reason.text(alloc)?;
                format!(in alloc; "rejected {reason}\n")
            }
            Answer::Trapped(trap) => trap_line(alloc, *trap),
            Answer::StepLimit { limit } => format!(in alloc; "limit steps {limit}\n"),
        }
    }
}

fn refusal_name(refusal: ImageError) -> &'static str
    ensures { result.now ≡ refusal_text refusal }
{
    match refusal {
        ImageError::Short => "short",
        ImageError::Magic => "magic",
        ImageError::Class => "class",
        ImageError::Order => "order",
        ImageError::FileType => "file-type",
        ImageError::Machine => "machine",
        ImageError::Compressed => "compressed",
        ImageError::HeaderSize => "header-size",
        ImageError::HeaderTable => "header-table",
        ImageError::SegmentSize => "segment-size",
        ImageError::Truncated => "truncated",
        ImageError::Range => "range",
        ImageError::Overlap => "overlap",
        ImageError::TextSize => "text-size",
        ImageError::Entry => "entry",
        ImageError::OutOfMemory => "out-of-memory",
    }
}

fn cause_name(cause: Cause) -> &'static str
    ensures { result.now ≡ cause_text cause }
{
    match cause {
        Cause::NotText => "not-text",
        Cause::Undecoded => "undecoded",
        Cause::MisalignedTarget => "misaligned-target",
        Cause::Misaligned => "misaligned",
        Cause::OutOfRange => "out-of-range",
        Cause::HintsEnd => "hints-end",
        Cause::PublicIndex => "public-index",
    }
}

fn trap_line(alloc: Global, trap: Trap) -> Result<String, AllocError>
    ensures { IfOk result (λ text. string_bytes text ≡ line_of_trap trap) }
{
    let digits = hex::encode(alloc, trap.pc.to_be_bytes().as_slice())?;
    let cause = cause_name(trap.cause);
    format!(in alloc; "trap {cause} at {digits}\n")
}

fn exit_line(alloc: Global, code: u8, digits: &str, steps: u64) -> Result<String, AllocError>
    ensures { IfOk result (λ text. string_bytes text ≡ line_of_exit code digits.now steps) }
{
    let mut line = format!(in alloc; "exit {code} public {digits}")?;
    let end = format!(in alloc; " steps {steps}\n")?;
    line.push_str(&end)?;
    Ok(line)
}

// What a table file claims, and a count by its name.
fn claim_line(
    alloc: Global,
    name: &str,
    code: u8,
    digits: &str,
    segments: u32,
    counted: &str,
    count: u64,
) -> Result<String, AllocError>
    ensures { IfOk result (λ text. string_bytes text ≡ line_of_claim name.now code digits.now segments counted.now count) }
{
    let mut line = format!(in alloc; "{name} exit {code} public {digits}")?;
    let end = format!(in alloc; " segments {segments} {counted} {count}\n")?;
    line.push_str(&end)?;
    Ok(line)
}

fn accepted_line(alloc: Global, accepted: &Accepted) -> Result<String, AllocError>
    ensures { IfOk result (λ text. string_bytes text ≡ line_of_accepted accepted.now.code (encode_lower accepted.now.public) accepted.now.segments (length accepted.now.hints)) }
{
    let digits = hex::encode(alloc, accepted.public.as_slice())?;
    let hints = accepted.hints.as_slice().len();
    claim_line(
        alloc,
        "accepted",
        accepted.code,
        &digits,
        accepted.segments,
        "hint-bytes",
        hints as u64,
    )
}

fn proved_line(alloc: Global, claim: &Proved) -> Result<String, AllocError>
    ensures { IfOk result (λ text. string_bytes text ≡ line_of_proved claim.now.code (encode_lower claim.now.public) claim.now.segments claim.now.steps) }
{
    let digits = hex::encode(alloc, claim.public.as_slice())?;
    claim_line(
        alloc,
        "proved",
        claim.code,
        &digits,
        claim.segments,
        "steps",
        claim.steps,
    )
}

fn sample_line(
    alloc: Global,
    number: u32,
    claim: &Proved,
    digits: &str,
) -> Result<String, AllocError>
    ensures { IfOk result (λ text. string_bytes text ≡ line_of_sample number claim.now.steps claim.now.code digits.now claim.now.segments) }
{
    let mut line = format!(in alloc; "sample {number} steps {}", claim.steps)?;
    let end = format!(in alloc;
        " exit {} public {digits} segments {}\n",
        claim.code, claim.segments
    )?;
    line.push_str(&end)?;
    Ok(line)
}

// The lines of a program's rows.
fn listing(alloc: Global, program: &Program) -> Result<String, AllocError>
    ensures { IfOk result (λ text. string_bytes text ≡ listing_of program.now) }
{
    let mut text = String::new(alloc);
    for place in 0..program.len() {
        if let Some(row) = program.at(place) {
            let line = row_line(alloc, &row)?;
            text.push_str(&line)?;
        }
    }
    Ok(text)
}

#[tactic(auto, unfolding(vm_isa::specs::Instr::numbers_of))]
fn row_line(alloc: Global, row: &VmInstr) -> Result<String, AllocError>
    ensures { IfOk result (λ line. string_bytes line ≡ line_of_row row.now) }
{
    let mut line = hex::encode(alloc, row.pc.to_be_bytes().as_slice())?;
    let numbers = row.numbers();
    for number in &numbers[1..] {
        let spaced = format!(in alloc; " {number}")?;
        line.push_str(&spaced)?;
    }
    line.push_str("\n")?;
    Ok(line)
}
