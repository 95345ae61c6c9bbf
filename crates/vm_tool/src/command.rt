// The words of the command line.
ghost use Rattle.std.specs.Prelude.{map, string_bytes, codes, ◌∷◌, []};
ghost use Rattle.std.specs.Option.{option_map};
ghost use Rattle.vm_tool.specs.Command.{Means};
ghost use Rattle.vm_tool.specs.Form.{command_of};

use crate::number::parse_number;

const MAX_STEPS: u64 = 1_000_000_000;

const MAX_PER_SEGMENT: u64 = 16_384;

const MAX_NUMBER: u64 = 4_294_967_295;

/// A command, as its words spell it.
#[derive(Clone, Copy)]
pub enum Form<'a> {
    Run {
        elf: &'a str,
        hints: &'a str,
        steps: u64,
    },
    Transpile {
        elf: &'a str,
    },
    Check {
        elf: &'a str,
        tables: &'a str,
    },
    Prove {
        elf: &'a str,
        hints: &'a str,
        out: &'a str,
        per_segment: u32,
    },
    Sample {
        number: u32,
        out: &'a str,
    },
}

/// Reads the words. `None` is for words that are no command.
pub fn parse_words(words: &[String]) -> Option<Form<'_>>
    ensures { Means (map string_bytes words.now) (option_map command_of result) }
{
    match words {
        [name, first] => parse_two(name.as_str(), first.as_str()),
        [name, first, second] => parse_three(name.as_str(), first.as_str(), second.as_str()),
        [name, first, second, third] => parse_four(
            name.as_str(),
            first.as_str(),
            second.as_str(),
            third.as_str(),
        ),
        [name, first, second, third, fourth] => parse_five(
            name.as_str(),
            first.as_str(),
            second.as_str(),
            third.as_str(),
            fourth.as_str(),
        ),
        _ => None,
    }
}

fn parse_two<'a>(name: &str, first: &'a str) -> Option<Form<'a>>
    ensures { Means (name.now ∷ first.now ∷ []) (option_map command_of result) }
{
    if name == "transpile" {
        Some(Form::Transpile { elf: first })
    } else {
        None
    }
}

fn parse_three<'a>(name: &str, first: &'a str, second: &'a str) -> Option<Form<'a>>
    ensures { Means (name.now ∷ first.now ∷ second.now ∷ []) (option_map command_of result) }
{
    if name == "check" {
        Some(Form::Check {
            elf: first,
            tables: second,
        })
    } else if name == "sample" {
        parse_sample(first, second)
    } else {
        None
    }
}

fn parse_four<'a>(name: &str, first: &'a str, second: &'a str, third: &str) -> Option<Form<'a>>
    ensures { Means (name.now ∷ first.now ∷ second.now ∷ third.now ∷ []) (option_map command_of result) }
{
    if name == "run" {
        parse_run(first, second, third)
    } else {
        None
    }
}

fn parse_run<'a>(elf: &'a str, hints: &'a str, steps: &str) -> Option<Form<'a>>
    ensures { Means (codes "run" ∷ elf.now ∷ hints.now ∷ steps.now ∷ []) (option_map command_of result) }
{
    let steps = parse_number(steps, 0, MAX_STEPS)?;
    Some(Form::Run { elf, hints, steps })
}

fn parse_five<'a>(
    name: &str,
    first: &'a str,
    second: &'a str,
    third: &'a str,
    fourth: &str,
) -> Option<Form<'a>>
    ensures { Means (name.now ∷ first.now ∷ second.now ∷ third.now ∷ fourth.now ∷ []) (option_map command_of result) }
{
    if name == "prove" {
        parse_prove(first, second, third, fourth)
    } else {
        None
    }
}

fn parse_prove<'a>(elf: &'a str, hints: &'a str, out: &'a str, number: &str) -> Option<Form<'a>>
    ensures { Means (codes "prove" ∷ elf.now ∷ hints.now ∷ out.now ∷ number.now ∷ []) (option_map command_of result) }
{
    let per_segment = parse_number(number, 1, MAX_PER_SEGMENT)? as u32;
    Some(Form::Prove {
        elf,
        hints,
        out,
        per_segment,
    })
}

fn parse_sample<'a>(number: &str, out: &'a str) -> Option<Form<'a>>
    ensures { Means (codes "sample" ∷ number.now ∷ out.now ∷ []) (option_map command_of result) }
{
    let number = parse_number(number, 0, MAX_NUMBER)? as u32;
    Some(Form::Sample { number, out })
}
