//! The program as clap knows it, made of the tables of its commands, and what `--help` says of it.
ghost use Rattle.std.specs.Prelude.{[], ◌≡◌, IfOk, false, fold};
ghost use Rattle.clap.specs.Words.{app_of, rule_of};
ghost use Rattle.clap.specs.declared.builder.command.Command.TheViews.{out-Command as fields_of};
ghost use Rattle.clap.specs.Simple.{new_app};
ghost use Rattle.upd_words.specs.Words.{operand_rule, row_shape, upd_app, upd_top, with_row};

use crate::changing::changing_commands;
use crate::keeping::{correcting_commands, keeping_commands};
use crate::querying::querying_commands;
use clap::builder::ValueParser;
use clap::{Arg, ArgAction, Command};
use std::alloc::{AllocError, Global};

/// An operand's name, what help says of it, and what its word has to be.
pub(crate) type Operand = (&'static str, &'static str, ValueParser<'static>);

pub(crate) const FILE: Operand = ("FILE", "the file of a library", ValueParser::String);

pub(crate) const SITE: Operand = ("SITE", "1 to 8 of A-Z and 0-9", ValueParser::String);

pub(crate) const NUMBER: Operand = ("NUMBER", "1 to 999999999", ValueParser::String);

pub(crate) const MODE: Operand = ("MODE", "full, quick or normal", ValueParser::String);

pub(crate) const SINCE: Operand = ("SINCE", "the ident that was youngest", ValueParser::String);

pub(crate) const DECK: Operand = ("DECK", "the name of a deck", ValueParser::String);

/// A row of the tables of commands.
pub(crate) struct CommandRow {
    pub name: &'static str,
    /// What the command does, in a line.
    pub about: &'static str,
    /// What it reads and writes, its exit statuses, and an example.
    pub more: &'static str,
    pub operands: &'static [Operand],
}

/// What the program is, what its words mean, and where to read on: the head of `upd --help`.
const PROGRAM: &str = "\
Keeps a library of program source in a file, and changes it by runs from many sites

A library is a list of decks, with every correction that was ever made to them.
A deck is a list of numbered cards under one name: the lines of one program, say.
A run is a text of lines that adds decks and corrects cards; it acts whole or not at all.

Begin with `upd init FILE`. `upd COMMAND --help` explains a command with an example; `man upd` lists
the lines of a run and the faults; docs/tour.md in the repository shows a first session.

Scripts: upd-bring adds files of source, upd-tree writes them back, upd-put brings in what was changed
there, upd-edit opens decks in an editor.";

/// The program with its commands, one level deep.
pub(crate) fn program<'a>(alloc: Global) -> Result<Command<'a>, AllocError>
    ensures { IfOk result (λ c. app_of c ≡ upd_app) }
{
    let app = with_commands(bare_program(alloc), alloc, changing_commands())?;
    let app = with_commands(app, alloc, querying_commands())?;
    let app = with_commands(app, alloc, correcting_commands())?;
    with_commands(app, alloc, keeping_commands())
}

/// The program before its first command, and with clap's own command `help`.
fn bare_program<'a>(alloc: Global) -> Command<'a>
    ensures { app_of result ≡ upd_top }
{
    Command::new(alloc, "upd")
        .version("1.0")
        .about(PROGRAM)
        .subcommand_required(true)
}

/// A program with the commands of a table more.
fn with_commands<'a>(
    app: Command<'a>,
    alloc: Global,
    commands: &[CommandRow],
) -> Result<Command<'a>, AllocError>
    ensures { IfOk result (λ c. app_of c ≡ fold with_row (app_of app.entry) commands.now) }
{
    let mut app = app;
    for row in commands {
        app = app.subcommand(command(alloc, row)?)?;
    }
    Ok(app)
}

/// A command with its help and its operands in order.
fn command<'a>(alloc: Global, row: &CommandRow) -> Result<Command<'a>, AllocError>
    ensures app { IfOk result (λ c. app_of c ≡ record (new_app []) { top = row_shape row.now }) }
    ensures local { IfOk result (λ c. (fields_of c).has_globals ≡ false) }
{
    let mut command = Command::new(alloc, row.name)
        .about(row.about)
        .after_help(row.more);
    for (name, help, parser) in row.operands {
        command = command.arg(operand(alloc, name, help, *parser))?;
    }
    Ok(command)
}

/// A required word that is named by its place.
fn operand<'a>(alloc: Global, name: &'a str, help: &'a str, parser: ValueParser<'a>) -> Arg<'a>
    ensures rule { rule_of result ≡ operand_rule (name.entry.now, parser.entry) }
    ensures local { result.global ≡ false }
{
    Arg::new(alloc, name)
        .required(true)
        .action(ArgAction::Set)
        .value_parser(parser)
        .help(help)
}
