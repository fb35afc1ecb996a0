//! The arguments of the program.

use crate::fault::Fault;
use allocative_picture::options::Order;
use clap::error::ErrorKind;
use clap::{Arg, ArgAction, ArgMatches, Command, Error};
use regex::{Error as PatternError, Regex};
use std::alloc::{AllocError, Global};

/// What the arguments ask for.
#[derive(Drop)]
pub struct Arguments<'a> {
    /// Whether to write the added text in place of the picture.
    pub as_text: bool,
    /// Whether to refuse a profile of 0 bytes.
    pub not_empty: bool,
    /// The title of the picture.
    pub title: &'a str,
    /// The width of the narrowest box, in millionths of the width of the picture.
    pub narrowest: u32,
    /// What the numbers of the lines count.
    pub unit: &'a str,
    /// In which order the children of a path are drawn.
    pub order: Order,
    /// The paths that are kept with what is below them. If there is none, all are.
    pub only: Vec<Vec<&'a str>>,
    /// The paths that are left out with what is below them.
    pub without: Vec<Vec<&'a str>>,
    /// What is to match a whole key for it to be replaced, if keys are.
    pub fold_key: Option<Regex>,
    /// Whether to reverse the keys of each path.
    pub reverse: bool,
    /// The greatest number of keys of a path that is shown, or 0 if paths are not cut.
    pub depth: u32,
    /// The greatest number of children of a path that keep their keys, or 0 if no keys are folded.
    pub fold: u32,
    /// How many lines of a table are written in place of the picture, or 0 if the picture is.
    pub top: u32,
    /// Whether a table shows the bytes of a path with all paths below it, and not its own.
    pub inclusive: bool,
    /// Whether to add up the paths that end in a key.
    pub by_last_key: bool,
    /// The files of the earlier profile. If there is one, the picture or the table is that of a change.
    pub before: Vec<&'a str>,
    /// Whether each file is a profile of a history.
    pub history: bool,
    /// The files of the profile, or of the profiles of a history.
    pub after: Vec<&'a str>,
    /// How many of these files stand before the input, if it is read too.
    pub input_at: Option<usize>,
}

// The argument `--name` without a value.
fn flag<'a>(alloc: Global, name: &'a str) -> Arg<'a> {
    Arg::new(alloc, name).long(name).action(ArgAction::SetTrue)
}

// The argument `--name` with a value, which usage calls by another name.
fn option<'a>(alloc: Global, name: &'a str, value: &'a str) -> Arg<'a> {
    Arg::new(alloc, name).long(name).value_name(value)
}

// The arguments as clap reads them. Of several uses of one that has a single value the last counts.
fn command<'a>(alloc: Global) -> Result<Command<'a>, AllocError> {
    Command::new(alloc, "allocative-picture")
        .no_binary_name(true)
        .args_override_self(true)
        .disable_help_flag(true)
        .arg(flag(alloc, "text"))?
        .arg(flag(alloc, "not-empty"))?
        .arg(flag(alloc, "by-last-key"))?
        .arg(flag(alloc, "inclusive"))?
        .arg(flag(alloc, "reverse"))?
        .arg(flag(alloc, "history"))?
        .arg(option(alloc, "title", "TEXT"))?
        .arg(option(alloc, "narrowest", "WIDTH"))?
        .arg(option(alloc, "unit", "WORD"))?
        .arg(option(alloc, "order", "ORDER"))?
        .arg(option(alloc, "depth", "KEYS"))?
        .arg(option(alloc, "fold", "CHILDREN"))?
        .arg(option(alloc, "fold-key", "PATTERN"))?
        .arg(option(alloc, "top", "LINES"))?
        .arg(option(alloc, "only", "PATH").action(ArgAction::Append))?
        .arg(option(alloc, "without", "PATH").action(ArgAction::Append))?
        .arg(option(alloc, "before", "EARLIER").action(ArgAction::Append))?
        .arg(Arg::new(alloc, "FILE").action(ArgAction::Append))
}

// What an error of clap says: the text before its first blank line, without `error: `.
fn reason_of(alloc: Global, error: &Error) -> Result<String, AllocError> {
    let text = format!(in alloc; "{error}")?;
    let text = text.as_str();
    let (line, _) = text.split_once("\n\n").unwrap_or((text.trim_end(), ""));
    String::from_str(alloc, line.strip_prefix("error: ").unwrap_or(line))
}

// The number that is the value of an argument, in decimal digits alone, or another if it has none.
fn number_of<'a>(
    alloc: Global,
    matches: &ArgMatches<'a>,
    name: &str,
    otherwise: u32,
    takes: &str,
) -> Result<u32, Fault<'a>> {
    let Some(value) = matches.get_str(name) else {
        return Ok(otherwise);
    };
    match value.parse::<u32>() {
        Ok(number) if !value.starts_with('+') => Ok(number),
        _ => {
            let reason = format!(in alloc; "--{name} takes {takes}, not {value}")?;
            Err(Fault::Arguments(reason))
        }
    }
}

// The order in which children are drawn.
fn order_of<'a>(alloc: Global, matches: &ArgMatches<'a>) -> Result<Order, Fault<'a>> {
    match matches.get_str("order") {
        None | Some("key") => Ok(Order::Key),
        Some("size") => Ok(Order::Size),
        Some(value) => {
            let reason = format!(in alloc; "--order takes key or size, not {value}")?;
            Err(Fault::Arguments(reason))
        }
    }
}

// What matches a text if a pattern matches the whole of it. The pattern is compiled alone first, since what follows it
// could close a group that it leaves open.
fn whole(alloc: Global, pattern: &str) -> Result<Regex, PatternError> {
    let _alone = Regex::new(alloc, pattern)?;
    let whole = format!(in alloc; "\\A(?:{pattern})\\z")?;
    Regex::new(alloc, whole.as_str())
}

// The pattern of keys that are replaced, if there is one.
fn pattern_of<'a>(alloc: Global, matches: &ArgMatches<'a>) -> Result<Option<Regex>, Fault<'a>> {
    let Some(pattern) = matches.get_str("fold-key") else {
        return Ok(None);
    };
    match whole(alloc, pattern) {
        Ok(regex) => Ok(Some(regex)),
        Err(PatternError::OutOfMemory) => Err(Fault::Memory),
        Err(_) => {
            let reason = format!(in alloc; "--fold-key takes a regular expression, not {pattern}")?;
            Err(Fault::Arguments(reason))
        }
    }
}

// The paths that are the values of an argument, each with `;` between its keys.
fn paths_of<'a>(
    alloc: Global,
    matches: &ArgMatches<'a>,
    name: &str,
) -> Result<Vec<Vec<&'a str>>, AllocError> {
    let mut paths = Vec::new(alloc);
    for path in matches.get_strs(name).unwrap_or(&[]) {
        paths.push(path.split(';').collect(alloc)?)?;
    }
    Ok(paths)
}

// What is wrong with what these names of files and inputs and the other arguments ask for together.
fn discord_of(asked: &Arguments<'_>, names: &[&str], ordered: bool) -> Option<&'static str> {
    let inputs = names.iter().filter(|name| **name == "-").count();
    let before_input = asked.before.iter().any(|name| *name == "-");
    let (table, change) = (asked.top > 0, !asked.before.is_empty());
    let few = asked.history && names.len() < 2;
    let discords = [
        (inputs > 1, "repeated argument -"),
        (before_input, "--before takes the name of a file, not -"),
        (asked.as_text && change, "--text does not go with --before"),
        (asked.as_text && table, "--text does not go with --top"),
        (
            asked.inclusive && !table,
            "--inclusive goes with --top alone",
        ),
        (ordered && asked.as_text, "--text does not go with --order"),
        (ordered && table, "--top does not go with --order"),
        (
            asked.history && change,
            "--history does not go with --before",
        ),
        (
            asked.history && asked.as_text,
            "--history does not go with --text",
        ),
        (asked.history && table, "--history does not go with --top"),
        (few, "--history takes two files or more"),
    ];
    let met = discords.iter().find(|(is_met, _)| *is_met)?;
    Some(met.1)
}

// The names that are those of files.
fn files_among<'a>(alloc: Global, names: &[&'a str]) -> Result<Vec<&'a str>, AllocError> {
    names
        .iter()
        .copied()
        .filter(|name| *name != "-")
        .collect(alloc)
}

// How many names stand before that of the input, if it is named or nothing is.
fn input_among(names: &[&str]) -> Option<usize> {
    if names.is_empty() {
        return Some(0);
    }
    names.iter().position(|name| *name == "-")
}

// What is asked for.
fn asked_by<'a>(alloc: Global, matches: &ArgMatches<'a>) -> Result<Arguments<'a>, Fault<'a>> {
    let width = "millionths of the width";
    let names = matches.get_strs("FILE").unwrap_or(&[]);
    let unit = matches.get_str("unit").unwrap_or("bytes");
    let title = if unit == "bytes" {
        "Declared bytes"
    } else {
        "Profile"
    };
    let asked = Arguments {
        as_text: matches.get_flag("text"),
        not_empty: matches.get_flag("not-empty"),
        title: matches.get_str("title").unwrap_or(title),
        narrowest: number_of(alloc, matches, "narrowest", 500, width)?,
        unit,
        order: order_of(alloc, matches)?,
        only: paths_of(alloc, matches, "only")?,
        without: paths_of(alloc, matches, "without")?,
        fold_key: pattern_of(alloc, matches)?,
        reverse: matches.get_flag("reverse"),
        depth: number_of(alloc, matches, "depth", 0, "a number of keys")?,
        fold: number_of(alloc, matches, "fold", 0, "a number of children")?,
        top: number_of(alloc, matches, "top", 0, "a number of lines")?,
        inclusive: matches.get_flag("inclusive"),
        by_last_key: matches.get_flag("by-last-key"),
        before: Vec::from_slice(alloc, matches.get_strs("before").unwrap_or(&[]))?,
        history: matches.get_flag("history"),
        after: files_among(alloc, names)?,
        input_at: input_among(names),
    };
    match discord_of(&asked, names, matches.get_str("order").is_some()) {
        Some(discord) => Err(Fault::Arguments(String::from_str(alloc, discord)?)),
        None => Ok(asked),
    }
}

/// Reads the arguments by `clap`: `--text`, `--not-empty`, `--by-last-key`, `--inclusive`, `--reverse`, `--history`,
/// `--title` and `--unit` with a text, `--order` with `key` or `size`, `--narrowest`, `--depth`, `--fold` and `--top`
/// with a number, `--fold-key` with a regular expression, `--only` and `--without` with a path, `--before` with the
/// name of a file, names of files, and `-` for the input, which is also read if no file of the profile is named. Of
/// several uses of one with a single value the last one counts. It fails with `Fault::Arguments` if `clap` refuses the
/// words, if a number is not below 2^32 in decimal digits alone, if an order is neither, if a regular expression does
/// not compile, if `-` is repeated or given to `--before`, if a text is asked for with a table, a change or an order,
/// if a table is with an order, if `--inclusive` is, but no table, or if a history is with a text, a table or a change,
/// or has fewer than two profiles. The only other error is `Fault::Memory`.
pub fn read_arguments<'a>(alloc: Global, words: &'a [String]) -> Result<Arguments<'a>, Fault<'a>> {
    match command(alloc)?.try_get_matches_from(words) {
        Ok(matches) => asked_by(alloc, &matches),
        Err(error) if error.kind() == ErrorKind::OutOfMemory => Err(Fault::Memory),
        Err(error) => Err(Fault::Arguments(reason_of(alloc, &error)?)),
    }
}
