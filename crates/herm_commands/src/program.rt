//! The command as which the words are read.
ghost use Rattle.std.specs.Prelude.{◌≡◌, IfOk, false};
ghost use Rattle.clap.specs.Words.{app_of, rule_of};
ghost use Rattle.clap.specs.declared.builder.command.Command.TheViews.{out-Command as fields_of};
ghost use Rattle.herm_commands.specs.Program.{check_app, files_rule, flag_rule, limited_app, make_app, numbered_app, option_rule, options_app, plain_app, run_app};
ghost use Rattle.herm_commands.specs.Program.{program as wanted_program};

use clap::{Arg, ArgAction, Command};
use std::alloc::{AllocError, Global};

// The command with its three subcommands.
pub(crate) fn program<'a>(alloc: Global) -> Result<Command<'a>, AllocError>
    ensures app { IfOk result (λ c. app_of c ≡ wanted_program) }
{
    let check = check_command(alloc)?;
    let run = run_command(alloc)?;
    let make = make_command(alloc)?;
    let program = plain_command(alloc)
        .subcommand(check)?
        .subcommand(run)?
        .subcommand(make)?;
    Ok(program)
}

// The command with no help, no version, and no word for the program itself.
fn plain_command<'a>(alloc: Global) -> Command<'a>
    ensures app { app_of result ≡ plain_app }
    ensures local { (fields_of result).has_globals ≡ false }
{
    Command::new(alloc, "hermes")
        .no_binary_name(true)
        .disable_help_flag(true)
        .disable_version_flag(true)
        .disable_help_subcommand(true)
}

// `check`, of one file or more.
fn check_command<'a>(alloc: Global) -> Result<Command<'a>, AllocError>
    ensures app { IfOk result (λ c. (app_of c ≡ check_app) × ((fields_of c).has_globals ≡ false)) }
{
    let command = Command::new(alloc, "check").arg(files(alloc).required(true))?;
    Ok(command)
}

// `make`, of one number.
fn make_command<'a>(alloc: Global) -> Result<Command<'a>, AllocError>
    ensures app { IfOk result (λ c. (app_of c ≡ make_app) × ((fields_of c).has_globals ≡ false)) }
{
    let command = Command::new(alloc, "make").arg(Arg::new(alloc, "nodes").required(true))?;
    Ok(command)
}

// `run`, of options and files.
fn run_command<'a>(alloc: Global) -> Result<Command<'a>, AllocError>
    ensures app { IfOk result (λ c. (app_of c ≡ run_app) × ((fields_of c).has_globals ≡ false)) }
{
    let command = options_command(alloc)?.arg(files(alloc))?;
    Ok(command)
}

// `run`, of its options.
fn options_command<'a>(alloc: Global) -> Result<Command<'a>, AllocError>
    ensures app { IfOk result (λ c. (app_of c ≡ options_app) × ((fields_of c).has_globals ≡ false)) }
{
    let command = numbered_command(alloc)?
        .arg(option(alloc, "arg"))?
        .arg(flag(alloc, "summary"))?
        .arg(flag(alloc, "journal"))?;
    Ok(command)
}

// `run`, of the options that take a number.
fn numbered_command<'a>(alloc: Global) -> Result<Command<'a>, AllocError>
    ensures app { IfOk result (λ c. (app_of c ≡ numbered_app) × ((fields_of c).has_globals ≡ false)) }
{
    let command = limited_command(alloc)?
        .arg(option(alloc, "ports"))?
        .arg(option(alloc, "make"))?;
    Ok(command)
}

// `run`, of the limits but that of ports.
fn limited_command<'a>(alloc: Global) -> Result<Command<'a>, AllocError>
    ensures app { IfOk result (λ c. (app_of c ≡ limited_app) × ((fields_of c).has_globals ≡ false)) }
{
    let command = Command::new(alloc, "run")
        .arg(option(alloc, "workers"))?
        .arg(option(alloc, "steps"))?
        .arg(option(alloc, "processes"))?;
    Ok(command)
}

fn option<'a>(alloc: Global, name: &'a str) -> Arg<'a>
    ensures rule { rule_of result ≡ option_rule name.entry.now }
    ensures local { result.global ≡ false }
{
    Arg::new(alloc, name).long(name)
}

fn flag<'a>(alloc: Global, name: &'a str) -> Arg<'a>
    ensures rule { rule_of result ≡ flag_rule name.entry.now }
    ensures local { result.global ≡ false }
{
    Arg::new(alloc, name).long(name).action(ArgAction::SetTrue)
}

fn files<'a>(alloc: Global) -> Arg<'a>
    ensures rule { rule_of result ≡ files_rule }
    ensures local { result.global ≡ false }
{
    Arg::new(alloc, "file").action(ArgAction::Append)
}
