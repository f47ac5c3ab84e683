//! The words of a command line.

ghost use Rattle.std.specs.Prelude.{◌≡◌, ◌≤◌, map, IfOk, IfSome, string_bytes, false};
ghost use Rattle.std.specs.List.{list_all};
ghost use Rattle.std.specs.Option.{option_map};
ghost use Rattle.clap.specs.Words.{app_of, rule_of, shape_of, subcommand_rows_of};
ghost use Rattle.pm_types.specs.declared.limits.TheConstants.{LINES_MAX as most_lines};
ghost use Rattle.pm_top.specs.Words.{command_in, folder_in, gen_of, is_folder, is_number_of, name_of};
ghost use Rattle.pm_top.specs.Words.{number_in, DrawsFew};
ghost use Rattle.pm_top.specs.Subcommands.{drawing, folder_given, name_given, over_folder, program, required};

use clap::error::ErrorKind;
use clap::{Arg, ArgMatches};
use itoa::Buffer;
use pm_types::LINES_MAX;
use std::alloc::{AllocError, Global};

/// The highest number that lines are drawn from.
pub const SEED_MAX: u32 = 2_147_483_647;

/// What a command does.
#[derive(Clone, Copy, Debug, PartialEq, Eq)]
pub enum CommandName {
    /// Answers the script on the input over the store.
    Run,
    /// Lists the store's log.
    Wal,
    /// Checks the store.
    Verify,
    /// Runs so many lines, which are drawn from a number, over the store.
    Gen { seed: u32, count: u32 },
}

/// A command, and the store that it is about.
#[derive(Clone, Copy, Debug)]
pub struct Command<'a> {
    /// What it does.
    pub name: CommandName,
    /// The store's folder.
    pub folder: &'a str,
}

/// The command that the words are: none where they aren't a command's name, a folder and the command's numbers.
///
/// `clap` reads them. A list that has an empty word, or one that begins with `-`, isn't given to it.
/// `Err` comes only where memory runs out.
pub fn command_of(alloc: Global, words: &[String]) -> Result<Option<Command<'_>>, AllocError>
    ensures name { IfOk result (λ found.
        option_map (λ asked. asked.name) found ≡ command_in (map string_bytes words.now)) }
    ensures folder { IfOk result (λ found. IfSome found
        (λ asked. asked.folder.now ≡ folder_in (map string_bytes words.now))) }
    ensures few { IfOk result (λ found. IfSome found (λ asked. DrawsFew asked.name)) }
{
    if !are_plain(words) {
        return Ok(None);
    }
    let reader = program(alloc)?;
    match reader.try_get_matches_from(words) {
        Ok(matches) => Ok(command_given(&matches)),
        Err(fault) => {
            if fault.kind() == ErrorKind::OutOfMemory {
                return Err(AllocError);
            }
            Ok(None)
        }
    }
}

// Whether no word is empty or begins with `-`.
fn are_plain(words: &[String]) -> bool
    ensures { result ≡ list_all (λ word. is_folder (string_bytes word)) words.now }
{
    words.iter().all(|word| is_folder(word.as_bytes()))
}

// The program's subcommands, with their words.
fn program<'a>(alloc: Global) -> Result<clap::Command<'a>, AllocError>
    ensures { IfOk result (λ made. app_of made ≡ program) }
{
    clap::Command::new(alloc, "pagemem")
        .no_binary_name(true)
        .disable_help_flag(true)
        .disable_help_subcommand(true)
        .disable_version_flag(true)
        .subcommand_required(true)
        .subcommand(over_folder(alloc, "run")?)?
        .subcommand(over_folder(alloc, "wal")?)?
        .subcommand(over_folder(alloc, "verify")?)?
        .subcommand(drawing(alloc)?)
}

// The subcommand with this name over a folder.
fn over_folder<'a>(alloc: Global, name: &'a str) -> Result<clap::Command<'a>, AllocError>
    ensures { IfOk result (λ made. shape_of made ≡ over_folder name.entry.now) }
{
    clap::Command::new(alloc, name).arg(required(alloc, "DIR"))
}

// The subcommand that draws lines.
fn drawing<'a>(alloc: Global) -> Result<clap::Command<'a>, AllocError>
    ensures { IfOk result (λ made. shape_of made ≡ drawing) }
{
    over_folder(alloc, "gen")?
        .arg(required(alloc, "SEED"))?
        .arg(required(alloc, "COUNT"))
}

// A word that has to be there.
fn required<'a>(alloc: Global, name: &'a str) -> Arg<'a>
    ensures rule { rule_of result ≡ required name.entry.now }
    ensures local { result.global ≡ false }
{
    Arg::new(alloc, name).required(true)
}

// The command that the words were read as.
fn command_given<'a>(matches: &ArgMatches<'a>) -> Option<Command<'a>>
    ensures name { option_map (λ asked. asked.name) result ≡ name_given (subcommand_rows_of matches.now) }
    ensures folder { IfSome result
        (λ asked. asked.folder.now ≡ folder_given (subcommand_rows_of matches.now)) }
    ensures few { IfSome result (λ asked. DrawsFew asked.name) }
{
    let (name, given) = matches.subcommand()?;
    let folder = given.get_str("DIR")?;
    let name = if name == "gen" {
        gen_of(given.get_str("SEED")?, given.get_str("COUNT")?)?
    } else {
        name_of(name.as_bytes())?
    };
    Some(Command { name, folder })
}

// The command with this name that takes no number.
fn name_of(word: &[u8]) -> Option<CommandName>
    ensures name { result ≡ name_of word.now }
    ensures few { IfSome result DrawsFew }
{
    if word == b"run".as_slice() {
        Some(CommandName::Run)
    } else if word == b"wal".as_slice() {
        Some(CommandName::Wal)
    } else if word == b"verify".as_slice() {
        Some(CommandName::Verify)
    } else {
        None
    }
}

// The command that draws lines, where both words are its numbers.
fn gen_of(seed: &str, count: &str) -> Option<CommandName>
    ensures name { result ≡ gen_of (number_in 0 SEED_MAX seed.now) (number_in 1 most_lines count.now) }
    ensures few { IfSome result DrawsFew }
{
    Some(CommandName::Gen {
        seed: number_in(0, SEED_MAX, seed)?,
        count: number_in(1, LINES_MAX as u32, count)?,
    })
}

// The number, in these bounds, whose decimal text the word is.
fn number_in(least: u32, most: u32, word: &str) -> Option<u32>
    ensures number { result ≡ number_in least most word.now }
    ensures most { IfSome result (λ number. number ≤ most) }
{
    let number = word.parse::<u32>().ok()?;
    if is_number_of(least, most, number, word) {
        Some(number)
    } else {
        None
    }
}

// Whether the number is in these bounds, and the word its decimal text.
fn is_number_of(least: u32, most: u32, number: u32, word: &str) -> bool
    ensures { result ≡ is_number_of least most number word.now }
{
    least <= number && number <= most && Buffer::new().format(number) == word
}

// Whether a word may be a folder: it isn't empty, and doesn't begin with `-`.
fn is_folder(word: &[u8]) -> bool
    ensures { result ≡ is_folder word.now }
{
    !word.is_empty() && !word.starts_with(b"-")
}
