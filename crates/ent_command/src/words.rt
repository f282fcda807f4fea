//! The words that the command line takes, and what they ask of a run.

use clap::builder::ValueParser;
use clap::{Arg, ArgAction, ArgMatches, Command};
use ent_book::ReportVersion;
use ent_engine::{DEFAULT_TRIES, RunOptions, VERSION};
use ent_workers::MOST_SESSIONS;
use std::alloc::{AllocError, Global};

/// The highest version of the report.
const HIGHEST_REPORT: u64 = 2;

/// The most tries.
const MOST_TRIES: u64 = 9;

/// The greatest number of a transaction.
const MOST_SCRIPTS: u64 = 10_000;

/// What stands below the list of options.
const EXAMPLE: &str = "Example:
  entangle run --tries 3 < friends.sql > friends.report

A fault of the input is a line on standard error, as E302 at 107; --explain says what is wrong there.";

/// What stands below what the check is for.
const CHECK_EXAMPLE: &str = "Example:
  entangle run --report 2 < friends.sql | entangle check --explain";

/// What stands below what a picture is for.
const DRAW_EXAMPLE: &str = "Example:
  entangle run --trace < friends.sql 2> friends.trace
  entangle draw < friends.trace > friends.svg";

/// What stands below what meeting is for.
const MEET_EXAMPLE: &str = "Example:
  entangle meet < friends.sql > friends.report";

/// What stands below what arranging is for.
const ARRANGE_EXAMPLE: &str = "Example:
  entangle arrange < friends.sql | entangle run";

/// The program's words: the subcommand `run` with its options, each a whole number in its range but for `--trace`
/// and `--explain`; `meet`, with `--tries` and `--explain`; `check`, with `--explain`; `arrange`; and `draw`, with the
/// transactions whose lanes are wanted.
pub(crate) fn command<'a>(alloc: Global) -> Result<Command<'a>, AllocError> {
    let run = Command::new(alloc, "run")
        .about(
            "Reads tables, opening rows and scripts from standard input, runs the scripts and writes their report",
        )
        .arg(workers(alloc))?
        .arg(report(alloc))?
        .arg(tries(alloc))?
        .arg(trace(alloc)?)?
        .arg(explain(alloc))?
        .after_help(EXAMPLE);
    let check = Command::new(alloc, "check")
        .about(
            "Reads a report of version 2 from standard input and prints `yes` where it tells of a legal book, \
             else `no`, a line and the rule that is broken there",
        )
        .arg(explain_check(alloc))?
        .after_help(CHECK_EXAMPLE);
    let arrange = Command::new(alloc, "arrange")
        .about(
            "Reads an input from standard input and writes it with its scripts in another order: \
             those that may meet stand together, so that they share a run",
        )
        .after_help(ARRANGE_EXAMPLE);
    let meet = Command::new(alloc, "meet")
        .about(
            "Reads an input from standard input, lets its scripts wait in a room for those whom they need, \
             and writes what came of each, who met whom and the tables",
        )
        .arg(tries(alloc))?
        .arg(explain_meeting(alloc))?
        .after_help(MEET_EXAMPLE);
    Command::new(alloc, "entangle")
        .about("An in-memory transaction manager for entangled SQL")
        .version(VERSION)
        .subcommand_required(true)
        .subcommand(run)?
        .subcommand(meet)?
        .subcommand(check)?
        .subcommand(arrange)?
        .subcommand(drawing(alloc)?)
}

fn drawing<'a>(alloc: Global) -> Result<Command<'a>, AllocError> {
    let only = Arg::new(alloc, "only")
        .long("only")
        .value_name("N,N..")
        .value_delimiter(',')
        .value_parser(ValueParser::unsigned(1, MOST_SCRIPTS))
        .help("Draws the lanes of these transactions alone, and of those that they met");
    Ok(
        Command::new(alloc, "draw")
            .about(
                "Reads a trace from standard input, as `run --trace` writes it, and writes a picture of it, an SVG",
            )
            .arg(only)?
            .arg(explain_draw(alloc))?
            .after_help(DRAW_EXAMPLE),
    )
}

fn workers<'a>(alloc: Global) -> Arg<'a> {
    Arg::new(alloc, "workers")
        .long("workers")
        .value_name("N")
        .value_parser(ValueParser::unsigned(0, MOST_SESSIONS as u64))
        .default_value("0")
        .help(
            "How many threads run the scripts, 0 to 64; 0 takes the main one. More pay where single joins take long",
        )
}

fn report<'a>(alloc: Global) -> Arg<'a> {
    Arg::new(alloc, "report")
        .long("report")
        .value_name("V")
        .value_parser(ValueParser::unsigned(1, HIGHEST_REPORT))
        .default_value("1")
        .help("The version of the report; 2 tells the opening, the scripts and the groundings too")
}

fn tries<'a>(alloc: Global) -> Arg<'a> {
    Arg::new(alloc, "tries")
        .long("tries")
        .value_name("N")
        .value_parser(ValueParser::unsigned(1, MOST_TRIES))
        .default_value("1")
        .help(
            "How many times in all the scripts are run on where memory runs out, 1 to 9; without effect on workers",
        )
}

fn trace<'a>(alloc: Global) -> Result<Arg<'a>, AllocError> {
    Arg::new(alloc, "trace")
        .long("trace")
        .action(ArgAction::SetTrue)
        .help(
            "Writes each event of the run and its reply to standard error, a line each; not with --workers",
        )
        .conflicts_with("workers")
}

fn explain<'a>(alloc: Global) -> Arg<'a> {
    Arg::new(alloc, "explain")
        .long("explain")
        .action(ArgAction::SetTrue)
        .help(
            "Says where an input that is refused has its fault, what is wrong there, and what helps; \
             else why transactions didn't commit; only with --workers 0",
        )
}

fn explain_meeting<'a>(alloc: Global) -> Arg<'a> {
    Arg::new(alloc, "explain")
        .long("explain")
        .action(ArgAction::SetTrue)
        .help(
            "Says where an input that is refused has its fault, what is wrong there, and what helps; \
             else why scripts wait",
        )
}

fn explain_check<'a>(alloc: Global) -> Arg<'a> {
    Arg::new(alloc, "explain")
        .long("explain")
        .action(ArgAction::SetTrue)
        .help("Says on standard error what was expected, and what was found, where it prints `no`")
}

fn explain_draw<'a>(alloc: Global) -> Arg<'a> {
    Arg::new(alloc, "explain")
        .long("explain")
        .action(ArgAction::SetTrue)
        .help("Says what is wrong where there is no picture")
}

/// What the words ask for.
#[derive(Drop)]
pub(crate) enum Asked {
    /// A run of the scripts of standard input.
    Run(AskedRun),
    /// A check of the report of standard input.
    Check {
        /// Whether it says what was expected and what was found.
        is_explained: bool,
    },
    /// A meeting of the scripts of standard input in a room.
    Meet {
        /// How many times in all it goes on where memory runs out.
        tries: u64,
        /// Whether a fault of the input is explained, and why scripts wait.
        is_explained: bool,
    },
    /// The input of standard input with its scripts in another order.
    Arrange,
    /// A picture of the trace of standard input.
    Draw(AskedPicture),
}

/// What the words of a picture ask for.
#[derive(Drop)]
pub(crate) struct AskedPicture {
    /// Whose lanes are wanted, and those of all that they met; all lanes where nobody is picked.
    pub(crate) picked: Vec<u64>,
    /// Whether it is explained why there is no picture.
    pub(crate) is_explained: bool,
}

/// What the words of a run ask for.
#[derive(Clone, Copy)]
pub(crate) struct AskedRun {
    /// How many threads run the scripts; with 0 they run on one thread.
    pub(crate) workers: usize,
    /// Whether events and replies are written to standard error.
    pub(crate) is_traced: bool,
    /// Whether a fault of the input is explained, and why transactions didn't commit.
    pub(crate) is_explained: bool,
    pub(crate) options: RunOptions,
}

/// What the words ask for.
pub(crate) fn asked_of<'a>(alloc: Global, matches: &ArgMatches<'a>) -> Result<Asked, AllocError> {
    match matches.subcommand_matches("draw") {
        Some(draw) => Ok(Asked::Draw(AskedPicture {
            picked: picked(alloc, draw)?,
            is_explained: draw.get_flag("explain"),
        })),
        None => Ok(asked_without_picture(matches)),
    }
}

/// The transactions that are picked; none where all are wanted.
fn picked<'a>(alloc: Global, draw: &ArgMatches<'a>) -> Result<Vec<u64>, AllocError> {
    let mut picked = Vec::new(alloc);
    if let Some(numbers) = draw.get_many::<u64>("only") {
        for number in numbers {
            if let Ok(number) = number {
                picked.push(number)?;
            }
        }
    }
    Ok(picked)
}

/// What the words ask for, where that is no picture.
fn asked_without_picture<'a>(matches: &ArgMatches<'a>) -> Asked {
    if let Some(check) = matches.subcommand_matches("check") {
        return Asked::Check {
            is_explained: check.get_flag("explain"),
        };
    }
    if let Some(meet) = matches.subcommand_matches("meet") {
        return Asked::Meet {
            tries: number(meet, "tries", DEFAULT_TRIES),
            is_explained: meet.get_flag("explain"),
        };
    }
    if matches.subcommand_matches("arrange").is_some() {
        return Asked::Arrange;
    }
    let Some(run) = matches.subcommand_matches("run") else {
        return Asked::Run(AskedRun {
            workers: 0,
            is_traced: false,
            is_explained: false,
            options: RunOptions::default(),
        });
    };
    Asked::Run(AskedRun {
        workers: number(run, "workers", 0) as usize,
        is_traced: run.get_flag("trace"),
        is_explained: run.get_flag("explain"),
        options: RunOptions {
            tries: number(run, "tries", DEFAULT_TRIES),
            report: match number(run, "report", 1) {
                HIGHEST_REPORT => ReportVersion::Two,
                _ => ReportVersion::One,
            },
        },
    })
}

/// The number that an option was given, or else this one.
fn number<'a>(run: &ArgMatches<'a>, option: &str, otherwise: u64) -> u64 {
    match run.get_one::<u64>(option) {
        Some(number) => number,
        None => otherwise,
    }
}
