//! The command as `clap` reads it.

ghost use Rattle.std.specs.Prelude.{◌≡◌, false, map, codes, IfOk};
ghost use Rattle.clap.specs.Simple.{app_of, new_app, with_rule, with_subcommand};
ghost use Rattle.clap.specs.Walk.{rule_of};
ghost use Rattle.clap.specs.declared.builder.command.Command.TheViews.{out-Command};
ghost use Rattle.registry_cli.specs.Errands.{admin_command};
ghost use Rattle.registry_cli.specs.Subcommands as spec;
ghost use Rattle.registry_cli.specs.Subcommands.{bare, options, with_groups, with_rules, with_subcommands};
ghost use Rattle.registry_cli.specs.Tables.{row_of, rows_of_group, rule_of_parameter};

use crate::subcommand::{
    Need, Parameter, Subcommand, errands, organisations, packages, queries, serving, teams,
};
use clap::builder::ValueParser;
use clap::{Arg, ArgAction, Command};
use std::alloc::{AllocError, Global};

/// The last second of the year 9999.
const LAST_SECOND: i64 = 253_402_300_799;

/// What the program is, with its version.
const ABOUT: &str = "registry 0.1.0, a private npm-compatible package registry";

/// The end of the help: an example, and the commands that ask for no request.
const MORE: &str =
    "Example: registry --db registry.db --operator user-add ann\n\nFor whoever runs it there are init, token-new, check, backup, restore and stop, too: registry check --help";

// The argument of `clap` for a parameter.
fn argument<'a>(alloc: Global, parameter: &Parameter) -> Arg<'a>
    ensures rule { rule_of result ≡ rule_of_parameter parameter.now }
    ensures not_global { result.global ≡ false }
{
    let argument = Arg::new(alloc, parameter.id).help(parameter.help);
    match parameter.need {
        Need::Required => argument.required(true),
        Need::Default(text) => argument.default_value(text),
        Need::Number {
            option,
            greatest,
            default,
        } => argument
            .long(option)
            .value_parser(ValueParser::Signed(1, i64::from(greatest)))
            .default_value(default),
        Need::NumberIfSaid { option, greatest } => argument
            .long(option)
            .value_parser(ValueParser::Signed(1, i64::from(greatest))),
        Need::WordIfSaid { option } => argument.long(option),
        Need::Flag { option } => argument.long(option).action(ArgAction::SetTrue),
    }
}

fn with_argument<'a>(command: Command<'a>, argument: Arg<'a>) -> Result<Command<'a>, AllocError>
    requires no_globals { (out-Command command).has_globals ≡ false }
    requires not_global { argument.global ≡ false }
    ensures app { IfOk result (λ c. app_of c
        ≡ with_rule (app_of command.entry) (rule_of argument.entry)) }
    ensures no_globals { IfOk result (λ c. (out-Command c).has_globals ≡ false) }
{
    command.arg(argument)
}

fn with_parameters<'a>(
    alloc: Global,
    command: Command<'a>,
    parameters: &[Parameter],
) -> Result<Command<'a>, AllocError>
    requires no_globals { (out-Command command).has_globals ≡ false }
    ensures app { IfOk result (λ c. app_of c
        ≡ with_rules (app_of command.entry) (map rule_of_parameter parameters.now)) }
    ensures no_globals { IfOk result (λ c. (out-Command c).has_globals ≡ false) }
{
    let mut command = command;
    for parameter in parameters {
        command = with_argument(command, argument(alloc, parameter))?;
    }
    Ok(command)
}

fn subcommand<'a>(alloc: Global, row: &Subcommand) -> Result<Command<'a>, AllocError>
    ensures app { IfOk result (λ c. app_of c
        ≡ with_rules (new_app (row_of row.now).0) (row_of row.now).1) }
    ensures no_globals { IfOk result (λ c. (out-Command c).has_globals ≡ false) }
{
    let command = Command::new(alloc, row.name)
        .about(row.about)
        .after_help(row.example);
    with_parameters(alloc, command, row.parameters)
}

fn with_subcommand<'a>(
    alloc: Global,
    command: Command<'a>,
    row: &Subcommand,
) -> Result<Command<'a>, AllocError>
    requires no_globals { (out-Command command).has_globals ≡ false }
    ensures app { IfOk result (λ c. app_of c
        ≡ with_subcommand (app_of command.entry) (spec.subcommand (row_of row.now))) }
    ensures no_globals { IfOk result (λ c. (out-Command c).has_globals ≡ false) }
{
    command.subcommand(subcommand(alloc, row)?)
}

fn with_rows<'a>(
    alloc: Global,
    command: Command<'a>,
    rows: &[Subcommand],
) -> Result<Command<'a>, AllocError>
    requires no_globals { (out-Command command).has_globals ≡ false }
    ensures app { IfOk result (λ c. app_of c
        ≡ with_subcommands (app_of command.entry) (map row_of rows.now)) }
    ensures no_globals { IfOk result (λ c. (out-Command c).has_globals ≡ false) }
{
    let mut command = command;
    for row in rows {
        command = with_subcommand(alloc, command, row)?;
    }
    Ok(command)
}

fn with_groups<'a>(
    alloc: Global,
    command: Command<'a>,
    groups: &[&[Subcommand]],
) -> Result<Command<'a>, AllocError>
    requires no_globals { (out-Command command).has_globals ≡ false }
    ensures app { IfOk result (λ c. app_of c
        ≡ with_groups (app_of command.entry) (map rows_of_group groups.now)) }
    ensures no_globals { IfOk result (λ c. (out-Command c).has_globals ≡ false) }
{
    let mut command = command;
    for rows in groups {
        command = with_rows(alloc, command, rows)?;
    }
    Ok(command)
}

// The option that names the file, and the flag that it has to be there.
fn with_file<'a>(alloc: Global, command: Command<'a>) -> Result<Command<'a>, AllocError>
    requires no_globals { (out-Command command).has_globals ≡ false }
    ensures app { IfOk result (λ c. app_of c
        ≡ with_rule (with_rule (app_of command.entry) spec.db) spec.existing) }
    ensures no_globals { IfOk result (λ c. (out-Command c).has_globals ≡ false) }
{
    let db = Arg::new(alloc, "PATH")
        .long("db")
        .help("The file that keeps the registry")
        .default_value("registry.db");
    let command = with_argument(command, db)?;
    let existing = Arg::new(alloc, "existing")
        .long("existing")
        .help("Make no registry where that file isn't there or is empty")
        .action(ArgAction::SetTrue);
    with_argument(command, existing)
}

// The options that say who asks.
fn with_caller<'a>(alloc: Global, command: Command<'a>) -> Result<Command<'a>, AllocError>
    requires no_globals { (out-Command command).has_globals ≡ false }
    ensures app { IfOk result (λ c. app_of c
        ≡ with_rule (with_rule (app_of command.entry) spec.as_user) spec.as_operator) }
    ensures no_globals { IfOk result (λ c. (out-Command c).has_globals ≡ false) }
{
    let user = Arg::new(alloc, "USER").long("as").help("Ask as this user");
    let command = with_argument(command, user)?;
    let operator = Arg::new(alloc, "operator")
        .long("operator")
        .help("Ask as the operator, who adds users, tokens and organisations")
        .action(ArgAction::SetTrue);
    with_argument(command, operator)
}

// The option of the moment.
fn with_moment<'a>(alloc: Global, command: Command<'a>) -> Result<Command<'a>, AllocError>
    requires no_globals { (out-Command command).has_globals ≡ false }
    ensures app { IfOk result (λ c. app_of c ≡ with_rule (app_of command.entry) spec.at_moment) }
    ensures no_globals { IfOk result (λ c. (out-Command c).has_globals ≡ false) }
{
    let at = Arg::new(alloc, "SECONDS")
        .long("at")
        .help("Ask at this second since 1970, and not now")
        .value_parser(ValueParser::Signed(0, LAST_SECOND));
    with_argument(command, at)
}

// The command before its options.
fn bare<'a>(alloc: Global) -> Result<Command<'a>, AllocError>
    ensures app { IfOk result (λ c. app_of c ≡ bare) }
    ensures no_globals { IfOk result (λ c. (out-Command c).has_globals ≡ false) }
{
    Command::new(alloc, "registry")
        .no_binary_name(true)
        .subcommand_required(true)
        .disable_help_subcommand(true)
        .about(ABOUT)
        .after_help(MORE)
        .bin_name("registry")
}

fn with_options<'a>(alloc: Global) -> Result<Command<'a>, AllocError>
    ensures app { IfOk result (λ c. app_of c ≡ with_rules bare options) }
    ensures no_globals { IfOk result (λ c. (out-Command c).has_globals ≡ false) }
{
    let command = with_file(alloc, bare(alloc)?)?;
    with_moment(alloc, with_caller(alloc, command)?)
}

/// The whole command of requests.
pub(crate) fn registry<'a>(alloc: Global) -> Result<Command<'a>, AllocError>
    ensures app { IfOk result (λ c. app_of c ≡ spec.registry) }
    ensures no_globals { IfOk result (λ c. (out-Command c).has_globals ≡ false) }
{
    let groups = [organisations(), teams(), packages(), queries(), serving()];
    with_groups(alloc, with_options(alloc)?, groups.as_slice())
}

/// The command of errands.
pub(crate) fn admin_command<'a>(alloc: Global) -> Result<Command<'a>, AllocError>
    ensures app { IfOk result (λ c. app_of c ≡ admin_command) }
    ensures no_globals { IfOk result (λ c. (out-Command c).has_globals ≡ false) }
{
    with_rows(alloc, with_options(alloc)?, errands())
}
