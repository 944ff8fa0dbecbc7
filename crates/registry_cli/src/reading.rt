//! Reading arguments.

ghost use Rattle.std.specs.Prelude.{◌≡◌, [], ◌∷◌, codes, true, false, map, option_and_then, option_map, IfErr, IfOk};
ghost use Rattle.clap.specs.Faults.{fault_of};
ghost use Rattle.clap.specs.Matches.{found_of};
ghost use Rattle.clap.specs.Simple.{subcommand_rows_of};
ghost use Rattle.clap.specs.Takes.{takes};
ghost use Rattle.clap.specs.Walk.{first_of, rows_of};
ghost use Rattle.registry_cli.specs.Lines as spec;
ghost use Rattle.registry_cli.specs.Lines.{IsWhole, are_both, are_both_in, at_in, has_both, is_existing_in, is_operator_in, line_of, told, value_in, who_in};
ghost use Rattle.registry_cli.specs.Subcommands.{registry};
ghost use Rattle.registry_cli.specs.Usages.{IsMemoryOrBoth, said_of_both};

use crate::argument_values::is_same;
use crate::arguments::{Arguments, push_text};
use crate::command::registry;
use crate::meaning::{Line, Who};
use crate::subcommand::{Parameter, called};
use crate::usage::Usage;
use clap::ArgMatches;
use registry_names::{Moment, Text};
use std::alloc::{AllocError, Global};

/// What the arguments after the program's name mean.
///
/// `Memory` is returned where no memory is left. Arguments that the program doesn't take, or that
/// ask for help, are `Usage::Words` with the message: the text of `clap`, which ends in a newline,
/// or `--as excludes --operator` where they have both.
pub fn line(alloc: Global, arguments: &[Text]) -> Result<Line, Usage>
    ensures ok { IfOk result (λ l. (l ≡ line_of arguments.now) × (has_both arguments.now ≡ false)) }
    ensures whole { IfOk result (λ l. IsWhole l.what) }
    ensures faultless { IfOk result (λ _. fault_of registry arguments.now ≡ []) }
    ensures err { IfErr result (λ u. takes registry arguments.now ≡ true
        → IsMemoryOrBoth u (has_both arguments.now)) }
{
    let texts = texts(alloc, arguments)?;
    line_in_texts(alloc, texts.as_slice())
}

// The same for the texts as `clap` takes them.
fn line_in_texts(alloc: Global, texts: &[&str]) -> Result<Line, Usage>
    ensures ok { IfOk result (λ l. (l ≡ line_of (map (λ s. s.now) texts.now))
        × (has_both (map (λ s. s.now) texts.now) ≡ false)) }
    ensures whole { IfOk result (λ l. IsWhole l.what) }
    ensures faultless { IfOk result (λ _. fault_of registry (map (λ s. s.now) texts.now) ≡ []) }
    ensures err { IfErr result (λ u. takes registry (map (λ s. s.now) texts.now) ≡ true
        → IsMemoryOrBoth u (has_both (map (λ s. s.now) texts.now))) }
{
    match registry(alloc)?.try_get_matches_from(texts) {
        Ok(matches) => line_in(alloc, &matches),
        Err(error) => Err(Usage::said(alloc, &error)),
    }
}

// The texts as `clap` takes them.
pub(crate) fn texts<'a>(alloc: Global, arguments: &'a [Text]) -> Result<Vec<&'a str>, AllocError>
    ensures { IfOk result (λ t. map (λ s. s.now) t.items ≡ arguments.now) }
{
    let mut texts = Vec::new(alloc);
    for argument in arguments {
        texts.push(argument.as_str())?;
    }
    Ok(texts)
}

fn line_in(alloc: Global, matches: &ArgMatches<'_>) -> Result<Line, Usage>
    ensures ok { IfOk result (λ l.
        (l ≡ spec.line_in (rows_of (found_of matches.now)) (subcommand_rows_of matches.now))
        × (are_both_in (rows_of (found_of matches.now)) ≡ false)) }
    ensures err { IfErr result (λ u.
        IsMemoryOrBoth u (are_both_in (rows_of (found_of matches.now)))) }
{
    let who = caller(alloc, matches)?;
    let what = Arguments::from(what(alloc, matches)?);
    Ok(line_by(alloc, matches, who, what)?)
}

// The line, once it is known who asks.
pub(crate) fn line_by(
    alloc: Global,
    matches: &ArgMatches<'_>,
    who: Who,
    what: Arguments,
) -> Result<Line, AllocError>
    ensures { IfOk result (λ l. l ≡ record {
      db = value_in (rows_of (found_of matches.now)) (codes "PATH");
      existing = is_existing_in (rows_of (found_of matches.now));
      who = who;
      at = at_in (rows_of (found_of matches.now));
      what = what;
    }) }
{
    Ok(Line {
        db: Text::from_str(alloc, value(matches, "PATH"))?,
        existing: is_existing(matches),
        who,
        at: at(matches),
        what,
    })
}

// The value of the argument with this name, if it is there.
#[tactic(auto, using(crate::proofs::RowFacts::given_is))]
pub(crate) fn given<'a>(matches: &ArgMatches<'a>, id: &str) -> Option<&'a str>
    ensures { option_map (λ s. s.now) result ≡ first_of id.now (rows_of (found_of matches.now)) }
{
    matches.get_str(id)
}

// The value of the argument with this name, or the empty text where it was left out.
#[tactic(auto, using(crate::proofs::RowFacts::value_is))]
pub(crate) fn value<'a>(matches: &ArgMatches<'a>, id: &str) -> &'a str
    ensures { result.now ≡ value_in (rows_of (found_of matches.now)) id.now }
{
    match matches.get_str(id) {
        Some(text) => text,
        None => "",
    }
}

// Whether the flag of this name is there.
pub(crate) fn has_flag(matches: &ArgMatches<'_>, id: &str) -> bool
    ensures { result ≡ spec.has_flag (rows_of (found_of matches.now)) id.now }
{
    is_same(value(matches, id), "true")
}

fn is_operator(matches: &ArgMatches<'_>) -> bool
    ensures { result ≡ is_operator_in (rows_of (found_of matches.now)) }
{
    has_flag(matches, "operator")
}

// Whether the file has to be there.
pub(crate) fn is_existing(matches: &ArgMatches<'_>) -> bool
    ensures { result ≡ is_existing_in (rows_of (found_of matches.now)) }
{
    has_flag(matches, "existing")
}

// The message where both are given.
fn both(alloc: Global) -> Result<Text, AllocError>
    ensures { IfOk result (λ t. t ≡ said_of_both) }
{
    Text::from_str(alloc, "--as excludes --operator")
}

fn who_asks(alloc: Global, user: Option<&str>, is_operator: bool) -> Result<Who, Usage>
    ensures ok { IfOk result (λ w.
        (w ≡ spec.who_asks (option_map (λ s. s.now) user.entry) is_operator)
        × (are_both (option_map (λ s. s.now) user.entry) is_operator ≡ false)) }
    ensures err { IfErr result (λ u.
        IsMemoryOrBoth u (are_both (option_map (λ s. s.now) user.entry) is_operator)) }
{
    match (user, is_operator) {
        (Some(_), true) => Err(Usage::Words(both(alloc)?)),
        (Some(name), false) => Ok(Who::User(Text::from_str(alloc, name)?)),
        (None, true) => Ok(Who::Operator),
        (None, false) => Ok(Who::Anonymous),
    }
}

pub(crate) fn caller(alloc: Global, matches: &ArgMatches<'_>) -> Result<Who, Usage>
    ensures ok { IfOk result (λ w. (w ≡ who_in (rows_of (found_of matches.now)))
        × (are_both_in (rows_of (found_of matches.now)) ≡ false)) }
    ensures err { IfErr result (λ u.
        IsMemoryOrBoth u (are_both_in (rows_of (found_of matches.now)))) }
{
    who_asks(alloc, given(matches, "USER"), is_operator(matches))
}

// The moment that the text spells.
fn moment_in(text: &str) -> Option<Moment>
    ensures { result ≡ spec.moment_in text.now }
{
    match text.parse::<i64>() {
        Ok(seconds) => Moment::new(seconds),
        Err(_) => None,
    }
}

fn moment_of(text: Option<&str>) -> Option<Moment>
    ensures { result ≡ option_and_then spec.moment_in (option_map (λ s. s.now) text.entry) }
{
    match text {
        Some(text) => moment_in(text),
        None => None,
    }
}

pub(crate) fn at(matches: &ArgMatches<'_>) -> Option<Moment>
    ensures { result ≡ at_in (rows_of (found_of matches.now)) }
{
    moment_of(given(matches, "SECONDS"))
}

// The arguments of the subcommand with this name.
pub(crate) fn parameters_of(name: &str) -> &'static [Parameter]
    ensures { map (λ w. w.id.now) result.now ≡ spec.parameters_of name.now }
{
    match called(name) {
        Some(row) => row.parameters,
        None => &[],
    }
}

// A subcommand's name, and the values of its arguments.
pub(crate) fn named(
    alloc: Global,
    name: &str,
    matches: &ArgMatches<'_>,
    parameters: &[Parameter],
) -> Result<Vec<Text>, AllocError>
    ensures { IfOk result (λ v. v.items
        ≡ name.now ∷ map (value_in (rows_of (found_of matches.now)))
        (map (λ w. w.id.now) parameters.now)) }
{
    let mut values = Vec::new(alloc);
    push_text(alloc, &mut values, name)?;
    for parameter in parameters {
        push_text(alloc, &mut values, value(matches, parameter.id))?;
    }
    Ok(values)
}

// The subcommand's name and its arguments.
fn what(alloc: Global, matches: &ArgMatches<'_>) -> Result<Vec<Text>, AllocError>
    ensures { IfOk result (λ v. v.items ≡ told (subcommand_rows_of matches.now)) }
{
    match matches.subcommand() {
        Some((name, found)) => named(alloc, name, found, parameters_of(name)),
        None => Ok(Vec::new(alloc)),
    }
}
