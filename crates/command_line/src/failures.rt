//! The commands that show the rows of an exploration that failed.
ghost use Rattle.std.specs.Prelude.{◌≡◌, ◌++◌, IfErr, List, OnOk, Some, ℕ};
ghost use Rattle.std.specs.String.{string_bytes};
ghost use Rattle.runtime.specs.Run.{IsAccepted, IsUnopenedBy};
ghost use Rattle.command_line.specs.Failures as spec;
ghost use Rattle.command_line.specs.Failures.{AreShown, IsShown};

use crate::exploration::Exploration;
use explored_runs::{Row, fails};
use explored_text::{Setting, push_command, push_difference, push_no_phase};
use runtime::{OpenFault, RunOutcome};
use small_schedules::{Small, make_small};
use std::alloc::{AllocError, Global};
use std::sync::Wait;
use std::thread::Threads;

/// Appends a command for each of some rows that failed, which shows a run of it by a schedule that is made small.
pub(crate) fn push_failures<H: Threads + Wait + Sync>(
    rt: &H,
    alloc: Global,
    text: &mut String,
    exploration: &Exploration<'_>,
    elf: &[u8],
    input: &[u8],
    rows: &[Row],
) -> Result<(), OpenFault>
    requires { IsAccepted elf.now input.now exploration.now.config }
    ensures shown { OnOk result ((more : List ℕ) × AreShown exploration.now elf.now input.now rows.now more
        × (string_bytes text.new ≡ string_bytes text.old ++ more)) }
    ensures fault { IfErr result (IsUnopenedBy elf.now input.now exploration.now.config) }
{
    for row in rows {
        push_failure(rt, alloc, text, exploration, elf, input, row)?;
    }
    Ok(())
}

/// Appends the command of a row, if it failed.
fn push_failure<H: Threads + Wait + Sync>(
    rt: &H,
    alloc: Global,
    text: &mut String,
    exploration: &Exploration<'_>,
    elf: &[u8],
    input: &[u8],
    row: &Row,
) -> Result<(), OpenFault>
    requires { IsAccepted elf.now input.now exploration.now.config }
    ensures shown { OnOk result ((more : List ℕ) × IsShown exploration.now elf.now input.now row.now more
        × (string_bytes text.new ≡ string_bytes text.old ++ more)) }
    ensures fault { IfErr result (IsUnopenedBy elf.now input.now exploration.now.config) }
{
    if !fails(row.ending.outcome) {
        return Ok(());
    }
    let small = make_small(rt, alloc, elf, input, &exploration.config, row.first)?;
    push_small(text, exploration, row.ending.outcome, &small)?;
    Ok(())
}

/// Appends the command of a small schedule, if there is one, and in what its last phase differs.
fn push_small(
    text: &mut String,
    exploration: &Exploration<'_>,
    outcome: RunOutcome,
    small: &Option<Small>,
) -> Result<(), AllocError>
    ensures { OnOk result (string_bytes text.new ≡ string_bytes text.old ++ spec.small_text exploration.now outcome small.now) }
{
    let Some(small) = small else {
        return Ok(());
    };
    push_command(text, &setting_of(exploration), outcome, small.shuffle)?;
    push_phase(text, small)
}

/// Appends in what the last phase of a small schedule differs, or that no phase is shuffled.
fn push_phase(text: &mut String, small: &Small) -> Result<(), AllocError>
    ensures { OnOk result (string_bytes text.new ≡ string_bytes text.old ++ spec.phase_text small.now) }
{
    if small.shuffle.last == 0 {
        return push_no_phase(text);
    }
    match &small.difference {
        Some(difference) => push_difference(
            text,
            difference.phase,
            difference.drawn.as_slice(),
            difference.plain.as_slice(),
        ),
        None => Ok(()),
    }
}

/// What the runs of an exploration share.
fn setting_of<'a>(exploration: &Exploration<'a>) -> Setting<'a>
    ensures { result ≡ spec.setting_of exploration.now }
{
    Setting {
        file: exploration.file,
        input: exploration.input,
        bound: exploration.config.bound,
        quantum: exploration.config.quantum,
    }
}
