// What the words of a command line ask, as clap reads them.
ghost use Rattle.std.specs.Prelude.{◌≡◌, ◌&&◌, Some, IfOk, false, length, map, nat_le, string_bytes};
ghost use Rattle.std.specs.List.{list_all};
ghost use Rattle.spec_session.specs.Asked.{asked_of};
ghost use Rattle.spec_session.specs.Request.{is_digit};
ghost use Rattle.clap.specs.Words.{app_of, found_of, rows_of, shape_of, subcommand_rows_of};
ghost use Rattle.clap.specs.declared.builder.Command.TheViews.{out-Command as fields_of};
ghost use Rattle.xt_arguments.specs.Words.{app, asked_by_clap, asked_in, asked_with, demonstration_shape, session_shape, size_in};

use clap::error::ErrorKind;
use clap::{Arg, ArgMatches, Command};
use spec_session::Asked;
use std::alloc::Global;
use xt_text::Memory;

/// What the words of a command line ask, the program's name first. Words that clap refuses ask for nothing, as does `demo`
/// with another word than 1 to 4 digits of value 1 to 1000. The error is want of memory, and clap tells it from a refusal.
pub fn read_words(alloc: Global, words: &[String]) -> Result<Asked, Memory>
    ensures asked { IfOk result (λ asked. asked ≡ asked_of (map string_bytes words.now)) }
    ensures clap { IfOk result (λ asked. asked ≡ asked_by_clap (map string_bytes words.now)) }
{
    match command(alloc)?.try_get_matches_from(words) {
        Ok(matches) => Ok(asked_in(&matches)),
        Err(error) => match error.kind() {
            ErrorKind::OutOfMemory => Err(Memory),
            _ => Ok(Asked::Nothing),
        },
    }
}

// The command line of the program: `session`, or `demo N`. There is no help and no version, since other words are answered by the usage line.
fn command<'a>(alloc: Global) -> Result<Command<'a>, Memory>
    ensures { IfOk result (λ command. app_of command ≡ app) }
{
    let command = Command::new(alloc, "xt")
        .disable_help_flag(true)
        .disable_version_flag(true)
        .disable_help_subcommand(true)
        .subcommand_required(true)
        .subcommand(session(alloc))?
        .subcommand(demonstration(alloc)?)?;
    Ok(command)
}

// `session`
fn session<'a>(alloc: Global) -> Command<'a>
    ensures shape { shape_of result ≡ session_shape }
    ensures local { (fields_of result).has_globals ≡ false }
{
    Command::new(alloc, "session")
}

// `demo N`
fn demonstration<'a>(alloc: Global) -> Result<Command<'a>, Memory>
    ensures shape { IfOk result (λ command. shape_of command ≡ demonstration_shape) }
    ensures local { IfOk result (λ command. (fields_of command).has_globals ≡ false) }
{
    let size = Arg::new(alloc, "N").required(true);
    Ok(Command::new(alloc, "demo").arg(size)?)
}

// What these matches ask.
fn asked_in(matches: &ArgMatches) -> Asked
    ensures { result ≡ asked_in (subcommand_rows_of matches.now) }
{
    match matches.subcommand() {
        Some((name, given)) => match name {
            "session" => Asked::Session,
            "demo" => size_in(given),
            _ => Asked::Nothing,
        },
        None => Asked::Nothing,
    }
}

// The demonstration that the matches of `demo` ask.
fn size_in(given: &ArgMatches) -> Asked
    ensures { result ≡ size_in (rows_of (found_of given.now)) }
{
    match given.get_str("N") {
        Some(word) => with_size(word),
        None => Asked::Nothing,
    }
}

// The demonstration of the size that this word writes.
fn with_size(word: &str) -> Asked
    ensures { result ≡ asked_with (Some word.now) }
{
    if !is_short_number(word.as_bytes()) {
        return Asked::Nothing;
    }
    match word.parse() {
        Ok(size) if is_in_range(size) => Asked::Demonstration(size),
        _ => Asked::Nothing,
    }
}

// Whether these are 1 to 4 digits.
fn is_short_number(bytes: &[u8]) -> bool
    ensures { result ≡ (list_all is_digit bytes.now && nat_le (length bytes.now) 4 && nat_le 1 (length bytes.now)) }
{
    are_digits(bytes) && bytes.len() <= 4 && 1 <= bytes.len()
}

fn are_digits(bytes: &[u8]) -> bool
    ensures { result ≡ list_all is_digit bytes.now }
{
    bytes.iter().all(|byte| byte.is_ascii_digit())
}

fn is_in_range(size: u16) -> bool
    ensures { result ≡ (nat_le 1 size && nat_le size 1000) }
{
    1 <= size && size <= 1000
}
