//! What the people who run the registry ask for besides requests.

ghost use Rattle.std.specs.Prelude.{◌≡◌, ◌≢◌, ◌≤◌, ◌++◌, ◌∷◌, [], codes, false, map, true, IfErr, IfOk, IfSome, IsErrAnd, MatchResult, None, OnOk};
ghost use Rattle.clap.specs.Faults.{fault_of};
ghost use Rattle.clap.specs.Matches.{found_of};
ghost use Rattle.clap.specs.Simple.{matches_of, subcommand_rows_of};
ghost use Rattle.clap.specs.Takes.{takes};
ghost use Rattle.clap.specs.Values.{kind_of};
ghost use Rattle.clap.specs.Walk.{first_of, rows_of};
ghost use Rattle.clap.specs.declared.error.kind.ErrorKind.TheVariants as kind;
ghost use Rattle.registry_names.specs.Moments.{last_second};
ghost use Rattle.registry_cli.specs.Errands as spec;
ghost use Rattle.registry_cli.specs.Errands.{AddsTokenOf, MeansTokenAdd, admin_command, errand_of, token_add, token_add_arguments};
ghost use Rattle.registry_cli.specs.Lines.{IsWhole, are_both_in, asks_to_serve};
ghost use Rattle.registry_cli.specs.Subcommands.{registry};
ghost use Rattle.registry_cli.specs.Usages.{IsMemoryOrBoth};
ghost use Rattle.registry_cli.specs.declared.usage.Usage.TheVariants as usage;

use crate::arguments::{Arguments, push_text, push_word};
use crate::command::{admin_command, registry};
use crate::meaning::{Line, Who};
use crate::reading::{at, caller, given, has_flag, is_existing, line_by, texts, value};
use crate::usage::Usage;
use clap::error::ErrorKind;
use clap::{ArgMatches, Error};
use registry_names::{Moment, Text};
use std::alloc::{AllocError, Global};

/// What the people who run the registry ask for besides requests.
#[derive(Debug, Drop)]
pub enum Errand {
    /// A new, empty registry in a file that is made for it.
    Init {
        /// The path of the file, where none is yet.
        db: Text,
    },
    /// A token that is made for a user.
    TokenNew(NewToken),
    /// A check that everything in a file is as requests suppose it.
    Check {
        /// The path of the file that keeps the registry.
        db: Text,
    },
    /// A copy of a file.
    Backup {
        /// The path of the file that keeps the registry.
        db: Text,
        /// The path of the copy.
        copy: Text,
        /// Whether what the copy holds is checked.
        checks: bool,
    },
    /// A file that is made from a copy.
    Restore {
        /// The path of the file that is to keep the registry.
        db: Text,
        /// The path of the copy.
        copy: Text,
        /// Whether what the copy holds is checked.
        checks: bool,
    },
    /// The end of the server that has a file.
    Stop {
        /// The path of the file that keeps the registry.
        db: Text,
    },
    /// A server with more than a port and a number of connections.
    Serve(Serving),
}

/// A server that listens at a Unix socket, keeps a log, answers npm's own requests, or several of
/// these.
#[derive(Debug, Drop)]
pub struct Serving {
    /// The line that serves without these. Its port is 8080 where none is given.
    pub line: Line,
    /// Whether it listens at that port: a port is given, or no socket is.
    pub has_port: bool,
    /// The path of the socket, if it listens at one.
    pub socket: Option<Text>,
    /// The path of the log, if it keeps one.
    pub log: Option<Text>,
    /// Whether it answers npm's own requests, too.
    pub answers_npm: bool,
}

/// A token that is to be made for a user.
#[derive(Debug, Drop)]
pub struct NewToken {
    /// The path of the file that keeps the registry.
    pub db: Text,
    /// Whether that file has to be there: none is made.
    pub existing: bool,
    /// Who asks.
    pub who: Who,
    /// When it is asked. `None` where the machine's clock says it.
    pub at: Option<Moment>,
    /// The user.
    pub user: Text,
}

impl NewToken {
    /// The line that adds this token: `token-add` with the user and the token. What it asks for has
    /// only the token's digest, and nothing else of the token.
    pub fn line(self, alloc: Global, token: Text) -> Result<Line, AllocError>
        ensures line { IfOk result (λ l. l ≡ token_add self token) }
        ensures whole { IfOk result (λ l. IsWhole l.what) }
        ensures asks { IfOk result (λ l. asks_to_serve l.what ≡ false) }
        ensures stored { IfOk result (λ l. AddsTokenOf l self.user token) }
    {
        let NewToken {
            db,
            existing,
            who,
            at,
            user,
        } = self;
        let what = token_add_words(alloc, user, token)?;
        Ok(Line {
            db,
            existing,
            who,
            at,
            what,
        })
    }

    /// The arguments that ask a server of the file to do the same as [`line`](NewToken::line). They
    /// name no file and don't ask that one is there, since a server has its own.
    pub fn arguments(&self, alloc: Global, token: &str) -> Result<Vec<Text>, AllocError>
        ensures words { IfOk result (λ words. words.items ≡ token_add_arguments self.now token.now) }
        ensures asked { IfOk result (λ words. MeansTokenAdd self.now token.now words.items) }
    {
        let mut words = Vec::new(alloc);
        push_who(alloc, &mut words, &self.who)?;
        push_at(alloc, &mut words, self.at)?;
        push_token_add(alloc, &mut words, self.user.as_str(), token)?;
        Ok(words)
    }
}

// Adds the argument that says who asks to the words, if it is known who does.
fn push_who(alloc: Global, words: &mut Vec<Text>, who: &Who) -> Result<(), AllocError>
    ensures { OnOk result (words.new.items ≡ words.old.items ++ spec.listed (spec.who_word who.now)) }
{
    match who {
        Who::Operator => push_text(alloc, words, "--operator"),
        Who::User(name) => push_word(words, format!(in alloc; "--as={}", name.as_str())?),
        Who::Anonymous => Ok(()),
    }
}

// Adds the argument that says when it is asked to the words, if a moment is given.
fn push_at(alloc: Global, words: &mut Vec<Text>, at: Option<Moment>) -> Result<(), AllocError>
    ensures word { OnOk result (words.new.items ≡ words.old.items ++ spec.listed (spec.at_word at)) }
    ensures within { IfSome at (λ seconds. seconds ≤ last_second) }
{
    match at {
        Some(at) => push_word(words, format!(in alloc; "--at={}", at.seconds())?),
        None => Ok(()),
    }
}

// Adds the subcommand and its arguments to the words.
fn push_token_add(
    alloc: Global,
    words: &mut Vec<Text>,
    user: &str,
    token: &str,
) -> Result<(), AllocError>
    ensures { OnOk result (words.new.items ≡ words.old.items
        ++ codes "token-add" ∷ codes "--" ∷ user.now ∷ token.now ∷ []) }
{
    push_text(alloc, words, "token-add")?;
    push_text(alloc, words, "--")?;
    push_text(alloc, words, user)?;
    push_text(alloc, words, token)
}

fn token_add_words(alloc: Global, user: Text, token: Text) -> Result<Arguments, AllocError>
    ensures { IfOk result (λ what. what ≡ spec.token_add_words user token) }
{
    let mut what = Vec::new(alloc);
    push_text(alloc, &mut what, "token-add")?;
    what.push(user)?;
    what.push(token)?;
    Ok(Arguments::from(what))
}

/// The errand that the arguments after the program's name ask for. `None` where they name no
/// errand: then [`line`](crate::line) says what they mean, or why they mean nothing. Arguments that
/// `line` takes are never an errand.
///
/// `Memory` is returned where no memory is left. Arguments that name an errand but that the program
/// doesn't take, or that ask for help on it, are `Usage::Words` with the message: the text of
/// `clap`, which ends in a newline, or `--as excludes --operator` where they have both.
pub fn errand_of(alloc: Global, arguments: &[Text]) -> Result<Option<Errand>, Usage>
    ensures ok { IfOk result (λ found. IfSome found (λ _. found ≡ errand_of arguments.now)) }
    ensures one { IfOk result (λ found. IfSome found (λ _.
        are_both_in (matches_of admin_command arguments.now) ≡ false)) }
    ensures faultless { IfOk result (λ found. IfSome found (λ _.
        fault_of admin_command arguments.now ≡ [])) }
    ensures line { fault_of registry arguments.now ≡ []
        → MatchResult result (λ found. found ≡ None) (λ u. u ≡ usage.Memory) }
    ensures named { fault_of registry arguments.now ≢ [] → takes admin_command arguments.now ≡ true
        → IfOk result (λ found. found ≡ errand_of arguments.now) }
    ensures err { IfErr result (λ u. takes admin_command arguments.now ≡ true
        → IsMemoryOrBoth u (are_both_in (matches_of admin_command arguments.now))) }
{
    let texts = texts(alloc, arguments)?;
    errand_in_texts(alloc, texts.as_slice())
}

// The same for the texts as `clap` takes them.
fn errand_in_texts(alloc: Global, texts: &[&str]) -> Result<Option<Errand>, Usage>
    ensures ok { IfOk result (λ found. IfSome found (λ _.
        found ≡ errand_of (map (λ s. s.now) texts.now))) }
    ensures one { IfOk result (λ found. IfSome found (λ _.
        are_both_in (matches_of admin_command (map (λ s. s.now) texts.now)) ≡ false)) }
    ensures faultless { IfOk result (λ found. IfSome found (λ _.
        fault_of admin_command (map (λ s. s.now) texts.now) ≡ [])) }
    ensures line { fault_of registry (map (λ s. s.now) texts.now) ≡ []
        → MatchResult result (λ found. found ≡ None) (λ u. u ≡ usage.Memory) }
    ensures named { fault_of registry (map (λ s. s.now) texts.now) ≢ []
        → takes admin_command (map (λ s. s.now) texts.now) ≡ true
        → IfOk result (λ found. found ≡ errand_of (map (λ s. s.now) texts.now)) }
    ensures err { IfErr result (λ u. takes admin_command (map (λ s. s.now) texts.now) ≡ true
        → IsMemoryOrBoth u (are_both_in (matches_of admin_command (map (λ s. s.now) texts.now)))) }
{
    match registry(alloc)?.try_get_matches_from(texts) {
        Ok(_) => Ok(None),
        Err(refused) => read_beside(alloc, texts, &refused),
    }
}

// The errand that texts ask for which were refused with this error as a line.
fn read_beside(alloc: Global, texts: &[&str], refused: &Error) -> Result<Option<Errand>, Usage>
    ensures ok { IfOk result (λ found. IfSome found (λ _.
        found ≡ errand_of (map (λ s. s.now) texts.now))) }
    ensures one { IfOk result (λ found. IfSome found (λ _.
        are_both_in (matches_of admin_command (map (λ s. s.now) texts.now)) ≡ false)) }
    ensures faultless { IfOk result (λ found. IfSome found (λ _.
        fault_of admin_command (map (λ s. s.now) texts.now) ≡ [])) }
    ensures memory { kind_of refused.now ≡ kind.OutOfMemory
        → IsErrAnd result (λ u. u ≡ usage.Memory) }
    ensures named { takes admin_command (map (λ s. s.now) texts.now) ≡ true
        → IfOk result (λ found. found ≡ errand_of (map (λ s. s.now) texts.now)) }
    ensures err { IfErr result (λ u. takes admin_command (map (λ s. s.now) texts.now) ≡ true
        → IsMemoryOrBoth u (are_both_in (matches_of admin_command (map (λ s. s.now) texts.now)))) }
{
    if is_memory(refused) {
        Err(Usage::Memory)
    } else {
        read(alloc, texts, refused)
    }
}

// The errand that texts ask for which aren't a line, since they were refused with this error.
fn read(alloc: Global, texts: &[&str], refused: &Error) -> Result<Option<Errand>, Usage>
    ensures ok { IfOk result (λ found. IfSome found (λ _.
        found ≡ errand_of (map (λ s. s.now) texts.now))) }
    ensures one { IfOk result (λ found. IfSome found (λ _.
        are_both_in (matches_of admin_command (map (λ s. s.now) texts.now)) ≡ false)) }
    ensures faultless { IfOk result (λ found. IfSome found (λ _.
        fault_of admin_command (map (λ s. s.now) texts.now) ≡ [])) }
    ensures named { takes admin_command (map (λ s. s.now) texts.now) ≡ true
        → IfOk result (λ found. found ≡ errand_of (map (λ s. s.now) texts.now)) }
    ensures err { IfErr result (λ u. takes admin_command (map (λ s. s.now) texts.now) ≡ true
        → IsMemoryOrBoth u (are_both_in (matches_of admin_command (map (λ s. s.now) texts.now)))) }
{
    match admin_command(alloc)?.try_get_matches_from(texts) {
        Ok(matches) => errand_in(alloc, &matches),
        Err(error) => unread(alloc, refused, &error),
    }
}

// Texts that are neither a line nor an errand. Where they name an errand, the message says why they
// aren't taken; other texts name no errand, and nothing is said of them.
fn unread(alloc: Global, refused: &Error, error: &Error) -> Result<Option<Errand>, Usage>
    ensures none { IfOk result (λ found. found ≡ None) }
    ensures memory { kind_of error.now ≡ kind.OutOfMemory
        → IsErrAnd result (λ u. u ≡ usage.Memory) }
{
    if name_errand(refused, error) || is_memory(error) {
        Err(Usage::said(alloc, error))
    } else {
        Ok(None)
    }
}

// Whether texts name an errand that were refused with the first error as a line, and with the
// second as an errand: their subcommand, or one of its arguments, is only an errand's.
fn name_errand(refused: &Error, error: &Error) -> bool {
    match refused.kind() {
        ErrorKind::InvalidSubcommand => !is_unknown(error),
        ErrorKind::UnknownArgument => {
            !is_unknown(error) && error.kind() != ErrorKind::UnknownArgument
        }
        _ => false,
    }
}

// Whether the error is that the subcommand isn't known.
fn is_unknown(error: &Error) -> bool {
    error.kind() == ErrorKind::InvalidSubcommand
}

// Whether the error is a lack of memory.
fn is_memory(error: &Error) -> bool
    ensures { kind_of error.now ≡ kind.OutOfMemory → result ≡ true }
{
    error.kind() == ErrorKind::OutOfMemory
}

fn errand_in(alloc: Global, matches: &ArgMatches<'_>) -> Result<Option<Errand>, Usage>
    ensures ok { IfOk result (λ found. (found
        ≡ spec.errand_in (rows_of (found_of matches.now)) (subcommand_rows_of matches.now))
        × (are_both_in (rows_of (found_of matches.now)) ≡ false)) }
    ensures err { IfErr result (λ u.
        IsMemoryOrBoth u (are_both_in (rows_of (found_of matches.now)))) }
{
    let who = caller(alloc, matches)?;
    Ok(errand_by(alloc, matches, who)?)
}

// The errand, once it is known who asks for it.
fn errand_by(
    alloc: Global,
    matches: &ArgMatches<'_>,
    who: Who,
) -> Result<Option<Errand>, AllocError>
    ensures { IfOk result (λ found. found
        ≡ spec.errand_by who (rows_of (found_of matches.now)) (subcommand_rows_of matches.now)) }
{
    match matches.subcommand() {
        Some((name, found)) => errand_called(alloc, matches, who, name, found),
        None => Ok(None),
    }
}

// The errand with this name.
fn errand_called(
    alloc: Global,
    matches: &ArgMatches<'_>,
    who: Who,
    name: &str,
    found: &ArgMatches<'_>,
) -> Result<Option<Errand>, AllocError>
    ensures { IfOk result (λ e. e ≡ spec.errand_called who (rows_of (found_of matches.now))
        name.now (rows_of (found_of found.now))) }
{
    match name {
        "init" => init(alloc, matches),
        "token-new" => new_token(alloc, matches, who, found),
        "check" => check(alloc, matches),
        "backup" => backup(alloc, matches, found),
        "restore" => restore(alloc, matches, found),
        "stop" => stop(alloc, matches),
        "serve" => serve(alloc, matches, who, found),
        _ => Ok(None),
    }
}

fn init(alloc: Global, matches: &ArgMatches<'_>) -> Result<Option<Errand>, AllocError>
    ensures { IfOk result (λ e. e ≡ spec.init (rows_of (found_of matches.now))) }
{
    Ok(Some(Errand::Init {
        db: Text::from_str(alloc, value(matches, "PATH"))?,
    }))
}

fn new_token(
    alloc: Global,
    matches: &ArgMatches<'_>,
    who: Who,
    found: &ArgMatches<'_>,
) -> Result<Option<Errand>, AllocError>
    ensures { IfOk result (λ e. e ≡ spec.new_token who (rows_of (found_of matches.now))
        (rows_of (found_of found.now))) }
{
    Ok(Some(Errand::TokenNew(NewToken {
        db: Text::from_str(alloc, value(matches, "PATH"))?,
        existing: is_existing(matches),
        who,
        at: at(matches),
        user: Text::from_str(alloc, value(found, "USER"))?,
    })))
}

fn check(alloc: Global, matches: &ArgMatches<'_>) -> Result<Option<Errand>, AllocError>
    ensures { IfOk result (λ e. e ≡ spec.check (rows_of (found_of matches.now))) }
{
    Ok(Some(Errand::Check {
        db: Text::from_str(alloc, value(matches, "PATH"))?,
    }))
}

fn backup(
    alloc: Global,
    matches: &ArgMatches<'_>,
    found: &ArgMatches<'_>,
) -> Result<Option<Errand>, AllocError>
    ensures { IfOk result (λ e. e ≡ spec.backup (rows_of (found_of matches.now))
        (rows_of (found_of found.now))) }
{
    Ok(Some(Errand::Backup {
        db: Text::from_str(alloc, value(matches, "PATH"))?,
        copy: Text::from_str(alloc, value(found, "COPY"))?,
        checks: is_checked(found),
    }))
}

fn restore(
    alloc: Global,
    matches: &ArgMatches<'_>,
    found: &ArgMatches<'_>,
) -> Result<Option<Errand>, AllocError>
    ensures { IfOk result (λ e. e ≡ spec.restore (rows_of (found_of matches.now))
        (rows_of (found_of found.now))) }
{
    let copy = value(found, "COPY");
    Ok(Some(Errand::Restore {
        db: Text::from_str(alloc, value(matches, "PATH"))?,
        copy: Text::from_str(alloc, copy)?,
        checks: is_checked(found),
    }))
}

// Whether a copy is checked: nothing says that it isn't.
fn is_checked(found: &ArgMatches<'_>) -> bool
    ensures { result ≡ spec.is_checked (rows_of (found_of found.now)) }
{
    !has_flag(found, "no-check")
}

fn stop(alloc: Global, matches: &ArgMatches<'_>) -> Result<Option<Errand>, AllocError>
    ensures { IfOk result (λ e. e ≡ spec.stop (rows_of (found_of matches.now))) }
{
    Ok(Some(Errand::Stop {
        db: Text::from_str(alloc, value(matches, "PATH"))?,
    }))
}

fn serve(
    alloc: Global,
    matches: &ArgMatches<'_>,
    who: Who,
    found: &ArgMatches<'_>,
) -> Result<Option<Errand>, AllocError>
    ensures { IfOk result (λ e. e ≡ spec.serve who (rows_of (found_of matches.now))
        (rows_of (found_of found.now))) }
{
    Ok(Some(Errand::Serve(Serving {
        line: serving_line(alloc, matches, who, found)?,
        has_port: listens_at_port(found),
        socket: given_text(alloc, found, "SOCKET")?,
        log: given_text(alloc, found, "LOG")?,
        answers_npm: has_flag(found, "npm"),
    })))
}

// The line that serves, without a socket, a log or npm's own requests.
fn serving_line(
    alloc: Global,
    matches: &ArgMatches<'_>,
    who: Who,
    found: &ArgMatches<'_>,
) -> Result<Line, AllocError>
    ensures { IfOk result (λ l. l ≡ spec.serving_line who (rows_of (found_of matches.now))
        (rows_of (found_of found.now))) }
{
    let what = serving_words(alloc, port(found), value(found, "CONNECTIONS"))?;
    line_by(alloc, matches, who, what)
}

fn serving_words(alloc: Global, port: &str, connections: &str) -> Result<Arguments, AllocError>
    ensures { IfOk result (λ what. what ≡ codes "serve" ∷ port.now ∷ connections.now ∷ []) }
{
    let mut what = Vec::new(alloc);
    push_text(alloc, &mut what, "serve")?;
    push_text(alloc, &mut what, port)?;
    push_text(alloc, &mut what, connections)?;
    Ok(Arguments::from(what))
}

// The port that is given, or 8080.
fn port<'a>(found: &ArgMatches<'a>) -> &'a str
    ensures { result.now ≡ spec.port_in (rows_of (found_of found.now)) }
{
    match given(found, "PORT") {
        Some(port) => port,
        None => "8080",
    }
}

// Whether a server listens at its port: a port is given, or no socket is.
fn listens_at_port(found: &ArgMatches<'_>) -> bool
    ensures { result ≡ spec.listens_at_port (rows_of (found_of found.now)) }
{
    given(found, "PORT").is_some() || given(found, "SOCKET").is_none()
}

// The text of the argument with this name, if it is there.
fn given_text(alloc: Global, found: &ArgMatches<'_>, id: &str) -> Result<Option<Text>, AllocError>
    ensures { IfOk result (λ text. text ≡ first_of id.now (rows_of (found_of found.now))) }
{
    match given(found, id) {
        Some(text) => Ok(Some(Text::from_str(alloc, text)?)),
        None => Ok(None),
    }
}
