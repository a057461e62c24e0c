//! What the words of a command line ask for.
ghost use Rattle.std.specs.Prelude.{List, [], ◌∷◌, ◌≡◌, IfErr, IfOk, IfSome, IsSomeAnd, codes, map, true, ◌≢◌};
ghost use Rattle.clap.specs.Words.{Text, found_of, has_subcommand, kind_of, rows_of, subcommand_rows_of};
ghost use Rattle.clap.specs.declared.error.kind.ErrorKind.TheVariants.{OutOfMemory, ValueValidation};
ghost use Rattle.upd_words.specs.Words.{HasCount, HasEndpoint, HasOperands, IsAskedFor, IsOneOf, IsOther, IsPlain, IsRead, IsRequest};
ghost use Rattle.upd_words.specs.Words.{IsUnasked, IsUnreadRequest, SpellsCount, command_name, command_word, file_commands};
ghost use Rattle.upd_words.specs.Words.{no_memory, operand_in, operand_word, request_name, serving_name, upd_commands, word_faults};
ghost use Rattle.upd_words.specs.declared.words.Request.{Request as RequestView};
ghost use Rattle.upd_words.specs.declared.words.Request.TheVariants.{Trial};

use crate::app::program;
use crate::operands::{count, number, read_address, word};
use crate::querying::{Query, read_query};
use clap::error::ErrorKind;
use clap::{ArgMatches, Error};
use std::alloc::{AllocError, Global};
use std::convert::AsStr;
use std::net::SocketAddr;
use upd_text::{Fault, Name};

/// What the words of a command line ask for.
#[derive(Drop)]
pub enum Request<'a> {
    /// `trial MODE`
    Trial(&'a str),
    /// `init FILE`
    Init(&'a str),
    /// A command at the desk of the library in a file.
    Library { file: &'a str, command: Command<'a> },
    /// `backup FILE COPY`
    Backup { file: &'a str, copy: &'a str },
    /// `compact FILE COPY`
    Compact { file: &'a str, copy: &'a str },
    /// `examine FILE`
    Examine(&'a str),
    /// `replay FILE`
    Replay(&'a str),
    /// `migrate FILE`
    Migrate(&'a str),
    /// `explain FAULT`
    Explain(&'a str),
    /// Help or the version, which goes to the output.
    Shown(String),
    /// The words are not read: why, for the fault stream.
    Unread(String),
    /// The address of `serve` is not valid.
    NoAddress(&'a str),
}

/// Where connections are served.
#[derive(Drop)]
pub enum Endpoint<'a> {
    /// `serve`: an IP address and a port.
    Address(SocketAddr),
    /// `serve-local`: the path of a socket on this machine.
    Path(&'a str),
}

/// What a command does at the desk of a library.
#[derive(Drop)]
pub enum Command<'a> {
    Run {
        site: &'a str,
        number: u64,
        mode: &'a str,
        since: Option<Name>,
    },
    Settle {
        site: &'a str,
        number: u64,
    },
    Spool,
    Serve {
        endpoint: Endpoint<'a>,
        count: u32,
    },
    Correct {
        set: &'a str,
    },
    CorrectAt {
        set: &'a str,
        since: Name,
    },
    CorrectParts {
        set: &'a str,
        site: &'a str,
        number: u64,
        mode: &'a str,
    },
    Try {
        mode: &'a str,
        since: Option<Name>,
    },
    Ask(Query),
}

/// Reads the words of a command line, the program's own name first. The fault is NoMemory, or that of an operand that is
/// not valid.
pub fn read_words<'a, S: AsStr>(alloc: Global, words: &'a [S]) -> Result<Request<'a>, Fault>
    ensures ok { IfOk result (IsAskedFor (map S.text words.entry.now)) }
    ensures err { IfErr result (IsUnasked (map S.text words.entry.now)) }
{
    match program(alloc)?.try_get_matches_from(words) {
        Ok(matches) => read_request(&matches),
        Err(error) => unread_request(alloc, words, &error),
    }
}

fn read_request<'a>(matches: &ArgMatches<'a>) -> Result<Request<'a>, Fault>
    requires used { has_subcommand matches.now ≡ true }
    requires known { IfSome (subcommand_rows_of matches.now) (λ command. IsOneOf command.0 upd_commands) }
    ensures { IsSomeAnd (subcommand_rows_of matches.now)
        (λ command. HasCount command → IsRead (IsRequest command) command result) }
{
    match matches.subcommand() {
        Some((name, operands)) => read_command(name, operands),
        None => unreachable!(),
    }
}

/// What a command asks for.
fn read_command<'a>(name: &str, operands: &ArgMatches<'a>) -> Result<Request<'a>, Fault>
    requires known { IsOneOf name.now upd_commands }
    ensures { HasCount (name.now, rows_of (found_of operands.now))
        → IsRead (IsRequest (name.now, rows_of (found_of operands.now))) (name.now, rows_of (found_of operands.now)) result }
{
    match name {
        "trial" => Ok(Request::Trial(word(operands, "MODE"))),
        "init" => Ok(Request::Init(word(operands, "FILE"))),
        "serve" => Ok(read_serving(operands)),
        "serve-local" => Ok(serving(operands, Endpoint::Path(word(operands, "PATH")))),
        "backup" => Ok(Request::Backup {
            file: word(operands, "FILE"),
            copy: word(operands, "COPY"),
        }),
        "compact" => Ok(Request::Compact {
            file: word(operands, "FILE"),
            copy: word(operands, "COPY"),
        }),
        "examine" => Ok(Request::Examine(word(operands, "FILE"))),
        "replay" => Ok(Request::Replay(word(operands, "FILE"))),
        "migrate" => Ok(Request::Migrate(word(operands, "FILE"))),
        "explain" => Ok(Request::Explain(word(operands, "FAULT"))),
        _ => match read_desk_command(name, operands) {
            Ok(command) => Ok(Request::Library {
                file: word(operands, "FILE"),
                command,
            }),
            Err(fault) => Err(fault),
        },
    }
}

/// What `serve` asks for.
fn read_serving<'a>(operands: &ArgMatches<'a>) -> Request<'a>
    ensures { SpellsCount (operand_in (codes "COUNT") (rows_of (found_of operands.now)))
        → IsRequest (codes "serve", rows_of (found_of operands.now)) result }
{
    let address = word(operands, "ADDRESS");
    match read_address(address) {
        Some(place) => serving(operands, Endpoint::Address(place)),
        None => Request::NoAddress(address),
    }
}

/// The request to serve at an endpoint.
fn serving<'a>(operands: &ArgMatches<'a>, endpoint: Endpoint<'a>) -> Request<'a>
    requires { HasEndpoint (rows_of (found_of operands.now)) endpoint }
    ensures { SpellsCount (operand_in (codes "COUNT") (rows_of (found_of operands.now)))
        → IsRequest (serving_name endpoint.entry, rows_of (found_of operands.now)) result }
{
    Request::Library {
        file: word(operands, "FILE"),
        command: Command::Serve {
            endpoint,
            count: count(operands),
        },
    }
}

/// What a command does at the desk of a library, but for those that serve.
fn read_desk_command<'a>(name: &str, operands: &ArgMatches<'a>) -> Result<Command<'a>, Fault>
    requires known { IsOneOf name.now upd_commands }
    requires other { IsOther name.now file_commands }
    ensures { IsRead (λ command. (name.now ≡ command_name command) × HasOperands (rows_of (found_of operands.now)) command)
        (name.now, rows_of (found_of operands.now)) result }
{
    match name {
        "run" => Ok(Command::Run {
            site: word(operands, "SITE"),
            number: number(operands)?,
            mode: word(operands, "MODE"),
            since: None,
        }),
        "run-at" => read_run_at(operands),
        "settle" => Ok(Command::Settle {
            site: word(operands, "SITE"),
            number: number(operands)?,
        }),
        "spool" => Ok(Command::Spool),
        "correct" => Ok(Command::Correct {
            set: word(operands, "SET"),
        }),
        "correct-at" => Ok(Command::CorrectAt {
            set: word(operands, "SET"),
            since: crate::operands::name(operands, "SINCE")?,
        }),
        "correct-parts" => Ok(Command::CorrectParts {
            set: word(operands, "SET"),
            site: word(operands, "SITE"),
            number: number(operands)?,
            mode: word(operands, "MODE"),
        }),
        "try" => Ok(Command::Try {
            mode: word(operands, "MODE"),
            since: None,
        }),
        "try-at" => Ok(Command::Try {
            mode: word(operands, "MODE"),
            since: Some(crate::operands::name(operands, "SINCE")?),
        }),
        _ => match read_query(name, operands) {
            Ok(query) => Ok(Command::Ask(query)),
            Err(fault) => Err(fault),
        },
    }
}

/// What `run-at` asks for.
fn read_run_at<'a>(operands: &ArgMatches<'a>) -> Result<Command<'a>, Fault>
    ensures { IsRead (λ command. (codes "run-at" ≡ command_name command) × HasOperands (rows_of (found_of operands.now)) command)
        (codes "run-at", rows_of (found_of operands.now)) result }
{
    Ok(Command::Run {
        site: word(operands, "SITE"),
        number: number(operands)?,
        mode: word(operands, "MODE"),
        since: Some(crate::operands::name(operands, "SINCE")?),
    })
}

/// What clap says where the words are not read or ask for a text; a word of git has a hint behind it.
fn unread_request<'a, S: AsStr>(
    alloc: Global,
    words: &[S],
    error: &Error,
) -> Result<Request<'a>, Fault>
    ensures ok { IfOk result (λ request. (kind_of error.now ≢ OutOfMemory) × IsUnreadRequest (kind_of error.now) request) }
    ensures err { IfErr result (λ fault. fault ≡ no_memory) }
{
    if error.kind() == ErrorKind::OutOfMemory {
        return Err(Fault::from(AllocError));
    }
    let mut text = error.to_string(alloc)?;
    if error.use_stderr() {
        if words.len() > 1 {
            text.push_str(hint_for(words[1].as_str()))?;
        }
        Ok(Request::Unread(text))
    } else {
        Ok(Request::Shown(text))
    }
}

/// What stands for a command of git here; nothing for another word.
fn hint_for(command: &str) -> &'static str {
    match command {
        "commit" =>
            "\nhint: `upd run` hands a run in, and `upd-edit FILE SITE DECK` edits a deck\n",
        "diff" =>
            "\nhint: `upd correct FILE SET` makes the run that corrects decks to an edited text\n",
        "log" =>
            "\nhint: `upd idents FILE` lists the sets by age, and `upd runs FILE` the stored runs\n",
        "status" =>
            "\nhint: `upd sites FILE` lists the sites, and `upd examine FILE` checks the file\n",
        "yank" =>
            "\nhint: `*YANK SET` is a line of a run; `upd try FILE normal` shows what a run does\n",
        _ => "",
    }
}

/// `trial` and a word that does not begin with a hyphen are a command line, whatever the program is called, and the
/// word is the mode.
pub fn trial_is_read()
    ensures read { (name mode : Text) → IsPlain mode → word_faults (name ∷ codes "trial" ∷ mode ∷ []) ≡ [] }
    ensures asks { (name mode : Text) → IsPlain mode → command_word (name ∷ codes "trial" ∷ mode ∷ []) ≡ codes "trial" }
    ensures mode { (name mode : Text) → IsPlain mode → operand_word (codes "MODE") (name ∷ codes "trial" ∷ mode ∷ []) ≡ mode }
{}

/// What is asked for by words that are read is the request of the command that they name, and a trial has the mode that
/// they give it.
#[tactic(auto, using(crate::proofs::NamedLemmas::asked_name, crate::proofs::NamedLemmas::asked_mode))]
pub fn requests_have_names()
    ensures named { (words : List Text) (request : RequestView) → word_faults words ≡ [] → IsAskedFor words request
        → command_word words ≡ request_name request }
    ensures mode { (words : List Text) (mode : _) → word_faults words ≡ [] → IsAskedFor words (Trial mode)
        → mode.now ≡ operand_word (codes "MODE") words }
{}

/// `serve` and three words that do not begin with a hyphen are a command line, whatever the program is called, where the
/// third spells a number of connections. Another third word is a mistake in the command line.
pub fn serve_is_read()
    ensures read { (name file address count : Text) → IsPlain file → IsPlain address → IsPlain count → SpellsCount count
        → word_faults (name ∷ codes "serve" ∷ file ∷ address ∷ count ∷ []) ≡ [] }
    ensures refused { (name file address count : Text) → IsPlain file → IsPlain address → IsPlain count → ¬ SpellsCount count
        → word_faults (name ∷ codes "serve" ∷ file ∷ address ∷ count ∷ []) ≡ ValueValidation ∷ [] }
{}
