//! The command that shows a run of an exploration.
ghost use Rattle.std.specs.Prelude.{◌≡◌, ◌++◌, OnOk, decimal};
ghost use Rattle.std.specs.String.{string_bytes};
ghost use Rattle.explored_text.specs.Commands as spec;

use crate::setting::Setting;
use itoa::Buffer;
use run_digest::OutcomeText;
use shuffled_phases::Shuffle;
use std::alloc::AllocError;
use std::fmt::Write;
use token::RunOutcome;

/// The bound that a run has if none is given.
const DEFAULT_BOUND: u64 = 1_000_000_000;

/// Appends how a run ended, and the command that shows it.
///
/// # Errors
///
/// Only out of memory. The text may then have some of it.
#[tactic(auto, unfolding(crate::specs::Commands::command_text))]
pub fn push_command(
    text: &mut String,
    setting: &Setting<'_>,
    outcome: RunOutcome,
    shuffle: Shuffle,
) -> Result<(), AllocError>
    ensures { OnOk result (string_bytes text.new ≡ string_bytes text.old ++ spec.command_text setting.now outcome shuffle) }
{
    push_run(text, setting.file, outcome)?;
    text.push_str(" --shuffle ")?;
    push_shuffle(text, shuffle)?;
    push_options(text, setting)?;
    text.push_str("\n")
}

/// Appends how a run ended, and the command's first words.
fn push_run(text: &mut String, file: &str, outcome: RunOutcome) -> Result<(), AllocError>
    ensures { OnOk result (string_bytes text.new ≡ string_bytes text.old ++ spec.run_text file.now outcome) }
{
    write!(text, "{}: dthreads run ", OutcomeText(outcome))?;
    text.push_str(file)
}

/// Appends a schedule's number as the option `--shuffle` takes it.
#[tactic(auto, unfolding(crate::specs::Commands::shuffle_text))]
fn push_shuffle(text: &mut String, shuffle: Shuffle) -> Result<(), AllocError>
    ensures { OnOk result (string_bytes text.new ≡ string_bytes text.old ++ spec.shuffle_text shuffle) }
{
    text.push_str(Buffer::new().format(shuffle.number))?;
    push_phases(text, shuffle.first, shuffle.last)?;
    if shuffle.choices == 0 {
        return Ok(());
    }
    push_number(text, "/", u64::from(shuffle.choices))
}

/// Appends the phases after a schedule's number, unless it shuffles all of them.
fn push_phases(text: &mut String, first: u64, last: u64) -> Result<(), AllocError>
    ensures { OnOk result (string_bytes text.new ≡ string_bytes text.old ++ spec.phases_text first last) }
{
    if first == 1 && last == u64::MAX {
        return Ok(());
    }
    if first == 1 {
        return push_number(text, ":", last);
    }
    push_number(text, ":", first)?;
    push_number(text, "-", last)
}

/// Appends the options that are given.
#[tactic(auto, unfolding(crate::specs::Commands::options_text))]
fn push_options(text: &mut String, setting: &Setting<'_>) -> Result<(), AllocError>
    ensures { OnOk result (string_bytes text.new ≡ string_bytes text.old ++ spec.options_text setting.now) }
{
    push_input(text, setting.input)?;
    push_bound(text, setting.bound)?;
    push_quantum(text, setting.quantum)
}

/// Appends the option of the input, if it has a file.
fn push_input(text: &mut String, input: Option<&str>) -> Result<(), AllocError>
    ensures { OnOk result (string_bytes text.new ≡ string_bytes text.old ++ spec.input_text input.entry) }
{
    let Some(path) = input else {
        return Ok(());
    };
    text.push_str(" --input ")?;
    text.push_str(path)
}

/// Appends the option of the bound, unless it is the default.
fn push_bound(text: &mut String, bound: u64) -> Result<(), AllocError>
    ensures { OnOk result (string_bytes text.new ≡ string_bytes text.old ++ spec.bound_text bound) }
{
    if bound == DEFAULT_BOUND {
        return Ok(());
    }
    push_number(text, " --bound ", bound)
}

/// Appends the option of the quantum, if there is one.
fn push_quantum(text: &mut String, quantum: Option<u64>) -> Result<(), AllocError>
    ensures { OnOk result (string_bytes text.new ≡ string_bytes text.old ++ spec.quantum_text quantum) }
{
    match quantum {
        Some(quantum) => push_number(text, " --quantum ", quantum),
        None => Ok(()),
    }
}

/// Appends a number after what stands before it.
pub(crate) fn push_number(text: &mut String, before: &str, number: u64) -> Result<(), AllocError>
    ensures { OnOk result (string_bytes text.new ≡ string_bytes text.old ++ before.now ++ decimal number) }
{
    text.push_str(before)?;
    text.push_str(Buffer::new().format(number))
}
