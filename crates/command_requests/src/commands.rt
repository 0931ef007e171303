//! The commands of the command line, and what each takes.
ghost use Rattle.std.specs.Prelude.{◌≡◌, IfOk};
ghost use Rattle.clap.specs.Simple.{new_shape};
ghost use Rattle.clap.specs.Words.{Shape, app_of};
ghost use Rattle.command_requests.specs.Commands as spec;
ghost use Rattle.command_requests.specs.Commands.{Takes, with_rules};
ghost use Rattle.command_requests.specs.Parameter.{rules_for};

use crate::parameter::{Parameter, arg};
use crate::parameters::{DEBUG, DISASM, EXPLORE, INFO, REPLAY, RUN};
use clap::Command;
use std::alloc::{AllocError, Global};

/// The version of the program.
const VERSION: &str = "0.1.0";

/// The commands of the program, and what each takes.
pub(crate) fn program<'a>(alloc: Global) -> Result<Command<'a>, AllocError>
    ensures { IfOk result (λ program. app_of program ≡ spec.program) }
{
    let run = command(
        alloc,
        "run",
        "Run a program, with standard input as its input",
        &RUN,
    )?;
    let explore = command(
        alloc,
        "explore",
        "Run a program once by each of many schedules, and count how the runs end",
        &EXPLORE,
    )?;
    let debug = command(
        alloc,
        "debug",
        "Debug a program with gdb, forwards and backwards, on standard input and output",
        &DEBUG,
    )?;
    let disasm = command(
        alloc,
        "disasm",
        "Print the instructions of a program",
        &DISASM,
    )?;
    let info = command(
        alloc,
        "info",
        "Print what a file is, and why it is refused as a program",
        &INFO,
    )?;
    let replay = command(
        alloc,
        "replay",
        "Apply a schedule to a program and print the trace",
        &REPLAY,
    )?;
    bare_program(alloc)?
        .subcommand(run)?
        .subcommand(explore)?
        .subcommand(debug)?
        .subcommand(disasm)?
        .subcommand(info)?
        .subcommand(replay)
}

/// The program without its commands.
fn bare_program<'a>(alloc: Global) -> Result<Command<'a>, AllocError>
    ensures { IfOk result (λ program. app_of program ≡ spec.bare_program) }
{
    Ok(
        Command::new(alloc, "dthreads")
            .bin_name("dthreads")?
            .version(VERSION)
            .about("Runs multithreaded RV32IM programs with the same result each time")
            .subcommand_required(true)
            .disable_help_subcommand(true),
    )
}

/// A command of this name, with what help says of it and what it takes.
fn command<'a>(
    alloc: Global,
    name: &'a str,
    about: &'a str,
    parameters: &[Parameter],
) -> Result<Command<'a>, AllocError>
    ensures { IfOk result (Takes (with_rules (new_shape name.entry.now) (rules_for parameters.now))) }
{
    with_parameters(Command::new(alloc, name).about(about), alloc, parameters)
}

/// Adds these parameters.
fn with_parameters<'a>(
    command: Command<'a>,
    alloc: Global,
    parameters: &[Parameter],
) -> Result<Command<'a>, AllocError>
    ensures { (shape : Shape) → Takes shape command.entry → IfOk result (Takes (with_rules shape (rules_for parameters.now))) }
{
    let Some((parameter, others)) = parameters.split_first() else {
        return Ok(command);
    };
    let command = command.arg(arg(alloc, parameter))?;
    with_parameters(command, alloc, others)
}
