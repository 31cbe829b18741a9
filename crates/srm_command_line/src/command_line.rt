//! What the words of the command line ask for.
ghost use Rattle.std.specs.Prelude.{◌≡◌, ◌<◌, ◌≤◌, ◌^◌, true, false, Some, IfOk, IfSome, string_bytes};
ghost use Rattle.clap.specs.Words.{kind_of};
ghost use Rattle.srm_command_line.specs.CommandLine.{IsCountOfRuns, AsksForRuns, TakesNumber, TellsKind, asks_to_explain};
ghost use Rattle.srm_options.specs.Asked.{MayBeAsked, MayBeReplicated, MayShareBag};

use crate::line_fault::LineFault;
use clap::builder::ValueParser;
use clap::error::ErrorKind;
use clap::parser::ValueSource;
use clap::{Arg, ArgAction, ArgMatches, Command, Error};
use srm_options::options::{CrewKind, Engine, Options, Show};
use srm_options::width::Width;
use std::alloc::{AllocError, Global};
use std::convert::AsStr;
use std::thread::{Threads, available_parallelism};

/// The version of the program.
const VERSION: &str = "0.2.0";

const ABOUT: &str = "Simulates loss recovery in SRM (Scalable Reliable Multicast), event by event.
Reads a scenario (TOML) on standard input, and writes a table of its run (CSV) on standard output.
A refusal is one line on standard error; with --explain more lines say what to mend.";

const USAGE: &str = "srm_lab [OPTIONS] < scenario.toml";

/// What is told after `clap`'s message of a word that is no option.
const NO_FILE: &str = "\na scenario is read from standard input: srm_lab < scenario.toml\n";

const AFTER_HELP: &str = "Exit status:
  0  the table was written, or this help, or the rules
  1  refused: one line on standard error says why
  2  the command line was refused, and standard input was not read

Example:
  srm_lab --seed 7 --show members < scenario.toml > members.csv";

/// How the value of an option is read.
#[derive(Clone, Copy)]
pub(crate) enum Reader {
    /// As a number, by `clap`, which refuses what is out of this range.
    Number {
        /// The least that is taken.
        least: u64,
        /// The greatest that is taken.
        most: u64,
    },
    /// As a text, by the program.
    Text,
}

/// An option: a line of the table.
#[derive(Clone, Copy)]
pub(crate) struct OptionLine {
    /// Its name, after two dashes.
    name: &'static str,
    /// What it takes, as help shows it.
    takes: &'static str,
    /// What it is where it is not given, if it is anything then.
    default: Option<&'static str>,
    /// What it is for.
    about: &'static str,
    reader: Reader,
    /// Its words, where it takes no other text.
    words: &'static [&'static str],
}

const SEED: &str = "seed";

const REPLICATIONS: &str = "replications";

const ENGINE: &str = "engine";

const CREW: &str = "crew";

const WORKERS: &str = "workers";

const CUT: &str = "cut";

const WIDTH: &str = "width";

const SHOW: &str = "show";

const CHECK: &str = "check";

const EXPLAIN: &str = "explain";

const RULES: &str = "rules";

const LAST_SEED: u64 = 9_223_372_036_854_775_807;

const SEEDS: Reader = Reader::Number {
    least: 0,
    most: LAST_SEED,
};

const COUNTS_OF_RUNS: Reader = Reader::Number {
    least: 1,
    most: 1_000_000,
};

const COUNTS_OF_WORKERS: Reader = Reader::Number { least: 1, most: 64 };

const SEED_LINE: OptionLine = OptionLine {
    name: SEED,
    takes: "0..=9223372036854775807",
    default: Some("0"),
    about: "The seed of the random words of members and losses",
    reader: SEEDS,
    words: &[],
};

const REPLICATIONS_LINE: OptionLine = OptionLine {
    name: REPLICATIONS,
    takes: "1..=1000000",
    default: None,
    about: "How many runs are made, with the seeds from --seed on: each row begins with its seed",
    reader: COUNTS_OF_RUNS,
    words: &[],
};

const ENGINE_LINE: OptionLine = OptionLine {
    name: ENGINE,
    takes: "step|window",
    default: Some("step"),
    about: "One event at a time, or windows of time",
    reader: Reader::Text,
    words: &["step", "window"],
};

const CREW_LINE: OptionLine = OptionLine {
    name: CREW,
    takes: "plain|pool|bag|team",
    default: Some("plain"),
    about: "Who works in a window: one thread, a pool of threads, workers that share a bag, or a team that lasts",
    reader: Reader::Text,
    words: &["plain", "pool", "bag", "team"],
};

const WORKERS_LINE: OptionLine = OptionLine {
    name: WORKERS,
    takes: "1..=64",
    default: Some("1"),
    about: "How many workers share the bag; or are the team or make replications, else one for each processor",
    reader: COUNTS_OF_WORKERS,
    words: &[],
};

const CUT_LINE: OptionLine = OptionLine {
    name: CUT,
    takes: "N",
    default: Some("1"),
    about: "How many members a job of a window has, 1 to 1024",
    reader: Reader::Text,
    words: &[],
};

const WIDTH_LINE: OptionLine = OptionLine {
    name: WIDTH,
    takes: "least|promise|N",
    default: Some("least"),
    about: "How wide windows are: the least delay of a link, as members promise, or ticks, from 1 to that delay",
    reader: Reader::Text,
    words: &[],
};

const SHOW_LINE: OptionLine = OptionLine {
    name: SHOW,
    takes: "trace|members|losses|operations|links|timers|scopes",
    default: Some("trace"),
    about: "The table: a row for each event, member, loss, lost operation, link, adapted timer, or request and repair",
    reader: Reader::Text,
    words: &[
        "trace",
        "members",
        "losses",
        "operations",
        "links",
        "timers",
        "scopes",
    ],
};

/// An option that takes nothing.
#[derive(Clone, Copy)]
struct Flag {
    /// Its name, after two dashes.
    name: &'static str,
    /// What it is for.
    about: &'static str,
}

const CHECK_FLAG: Flag = Flag {
    name: CHECK,
    about: "Only read and check the scenario, and write nothing",
};

const EXPLAIN_FLAG: Flag = Flag {
    name: EXPLAIN,
    about: "After the line of a refusal say what to mend",
};

const RULES_FLAG: Flag = Flag {
    name: RULES,
    about: "Only print the rules of scenario files, as JSON",
};

/// The options that take nothing, in the order in which help lists them, after the others.
static FLAGS: [Flag; 3] = [CHECK_FLAG, EXPLAIN_FLAG, RULES_FLAG];

/// The options of every day, in the order in which help lists them.
static EVERYDAY: [OptionLine; 3] = [SEED_LINE, REPLICATIONS_LINE, SHOW_LINE];

/// The options of the run in windows, in the order in which help lists them, after all others.
static WINDOWS: [OptionLine; 5] = [ENGINE_LINE, CREW_LINE, WORKERS_LINE, CUT_LINE, WIDTH_LINE];

/// What stands over the options of the run in windows.
const WINDOWS_HEADING: &str = "Windows (advanced: how a run is worked out, the table is the same)";

/// The words of `--engine`.
const ENGINES: [(&str, Engine); 2] = [("step", Engine::Step), ("window", Engine::Window)];

/// The words of `--crew`.
const CREWS: [(&str, CrewKind); 4] = [
    ("plain", CrewKind::Plain),
    ("pool", CrewKind::Pool),
    ("bag", CrewKind::Bag),
    ("team", CrewKind::Team),
];

/// The words of `--width`, which takes a number besides.
const WIDTHS: [(&str, Width); 2] = [("least", Width::Least), ("promise", Width::Promise)];

/// The words of `--show`.
const SHOWS: [(&str, Show); 7] = [
    ("trace", Show::Trace),
    ("members", Show::Members),
    ("losses", Show::Losses),
    ("operations", Show::Operations),
    ("links", Show::Links),
    ("timers", Show::Timers),
    ("scopes", Show::Scopes),
];

/// The seed and the options that the words of a command line ask for. The first word is the program's name.
///
/// # Errors
/// 1. `Line`: `clap` refuses the words; or `Help`, where help or the version is asked for before that.
/// 2. `BadWord`: the text of an option is none of its words, and no number that it takes; or replications are asked for whose
///    last seed is past the greatest, or with the engine of windows.
/// 3. `Rules`: they are asked for.
///
/// `NoMemory` may come at any place. That the order is so is shown by tests.
pub fn options_of<S: AsStr>(alloc: Global, words: &[S]) -> Result<(u64, Options), LineFault>
    ensures asked { IfOk result MayBeAsked }
    ensures replications { IfOk result AsksForRuns }
{
    match read_words(alloc, words) {
        Ok((seed, options, _)) => Ok((seed, options)),
        Err(fault) => Err(fault),
    }
}

/// The same on this machine: where the words do not say how many workers a team has, or make replications, there is one for each
/// processor, up to 64.
///
/// # Errors
/// As of [`options_of`].
pub(crate) fn options_here<S: AsStr>(
    rt: &impl Threads,
    alloc: Global,
    words: &[S],
) -> Result<(u64, Options), LineFault>
    ensures asked { IfOk result MayBeAsked }
    ensures replications { IfOk result AsksForRuns }
{
    let (seed, mut options, told) = match read_words(alloc, words) {
        Ok(read) => read,
        Err(fault) => return Err(fault),
    };
    if !told && (options.crew == CrewKind::Team || options.replications.is_some()) {
        options.workers = processors(rt);
    }
    Ok((seed, options))
}

// How many processors there are, up to 64; or one, where that cannot be told.
fn processors(rt: &impl Threads) -> u8
    ensures { MayShareBag result }
{
    match available_parallelism(rt) {
        Ok(count) => count.get().min(64) as u8,
        Err(_) => 1,
    }
}

// What the words ask for, and whether they say how many workers.
fn read_words<S: AsStr>(alloc: Global, words: &[S]) -> Result<(u64, Options, bool), LineFault>
    ensures asked { IfOk result (λ read. MayBeAsked (read.0, read.1)) }
    ensures replications { IfOk result (λ read. AsksForRuns (read.0, read.1)) }
{
    match command(alloc, Wording::Any)?.try_get_matches_from(words) {
        Ok(matches) => read_matches(&matches),
        Err(error) => Err(fault_of(alloc, &error)),
    }
}

// The same, of words that `clap` has read.
fn read_matches(matches: &ArgMatches<'_>) -> Result<(u64, Options, bool), LineFault>
    ensures asked { IfOk result (λ read. MayBeAsked (read.0, read.1)) }
    ensures replications { IfOk result (λ read. AsksForRuns (read.0, read.1)) }
{
    let seed = number(matches, SEED, SEEDS)?;
    let workers = number(matches, WORKERS, COUNTS_OF_WORKERS)?;
    let replications = count_of_runs(matches)?;
    let Some(options) = options_among(matches, workers as u8, replications) else {
        return Err(LineFault::BadWord);
    };
    if !may_be_replicated(seed, options.engine, replications) {
        return Err(LineFault::BadWord);
    }
    if matches.get_flag(RULES) {
        return Err(LineFault::Rules);
    }
    let told = matches.value_source(WORKERS) == Some(ValueSource::CommandLine);
    Ok((seed, options, told))
}

// Whether so many runs may be made, if replications are asked for: the last seed is one, and the runs are not in windows.
fn may_be_replicated(seed: u64, engine: Engine, replications: Option<u32>) -> bool
    requires seed { seed < 2 ^ 63 }
    requires count { IfSome replications IsCountOfRuns }
    ensures { result ≡ true → MayBeReplicated seed engine replications }
{
    match replications {
        None => true,
        Some(count) => engine == Engine::Step && u64::from(count) - 1 <= LAST_SEED - seed,
    }
}

// The options of words that `clap` has read, with so many workers and replications; none where a text is none that its
// option takes.
fn options_among(
    matches: &ArgMatches<'_>,
    workers: u8,
    replications: Option<u32>,
) -> Option<Options>
    ensures { IfSome result (λ o. (o.workers ≡ workers) × (o.replications ≡ replications)) }
{
    Some(Options {
        engine: word(matches, ENGINE, &ENGINES)?,
        crew: word(matches, CREW, &CREWS)?,
        workers,
        cut: cut(matches)?,
        width: width(matches)?,
        show: word(matches, SHOW, &SHOWS)?,
        replications,
        check: matches.get_flag(CHECK),
        explain: matches.get_flag(EXPLAIN),
    })
}

/// What is told of refused words after their line: `clap`'s message, which names the word and what may stand in its place, and
/// where a word is no option how a scenario is read. Where no word asks for an explanation it is this hint.
///
/// # Errors
/// [`AllocError`].
pub fn message_of<S: AsStr>(alloc: Global, words: &[S], hint: &str) -> Result<String, AllocError>
    ensures silent { asks_to_explain S.text words.now ≡ false → IfOk result (λ message. string_bytes message ≡ hint.now) }
{
    if !asks_to_explain(words) {
        return String::from_str(alloc, hint);
    }
    match command(alloc, Wording::Words)?.try_get_matches_from(words) {
        Ok(matches) => message_of_numbers(alloc, &matches),
        Err(error) => message_of_error(alloc, &error),
    }
}

// Whether a word asks that a refusal is explained.
fn asks_to_explain<S: AsStr>(words: &[S]) -> bool
    ensures { result ≡ asks_to_explain S.text words.now }
{
    for word in words {
        if word.as_str() == "--explain" {
            return true;
        }
    }
    false
}

// What is told of an error of `clap`.
fn message_of_error(alloc: Global, error: &Error) -> Result<String, AllocError> {
    let told = format!(in alloc; "{error}")?;
    let is_word = error.kind() == ErrorKind::UnknownArgument && !told.contains("argument '-");
    let more = if is_word { NO_FILE } else { "" };
    format!(in alloc; "{told}{more}")
}

// What is told of words that `clap` takes, and the program does not: options take other text besides, and not this one; or
// replications cannot be made so.
fn message_of_numbers(alloc: Global, matches: &ArgMatches<'_>) -> Result<String, AllocError> {
    if cut(matches).is_none() {
        return message_of_number(alloc, matches, &CUT_LINE);
    }
    if width(matches).is_none() {
        return message_of_number(alloc, matches, &WIDTH_LINE);
    }
    message_of_replications(alloc, matches)
}

// The same, of replications: with the engine of windows, or past the last seed.
fn message_of_replications(alloc: Global, matches: &ArgMatches<'_>) -> Result<String, AllocError> {
    let takes = REPLICATIONS_LINE.takes;
    if word(matches, ENGINE, &ENGINES) == Some(Engine::Window) {
        return format!(in alloc;
            "error: the argument '--replications <{takes}>' cannot be used with '--engine window': \
             runs side by side use the processors better than windows do\n"
        );
    }
    format!(in alloc;
        "error: the last seed of '--replications <{takes}>' is above {LAST_SEED}: give a lower '--seed', or fewer replications\n"
    )
}

// The same, of one option.
fn message_of_number(
    alloc: Global,
    matches: &ArgMatches<'_>,
    option: &OptionLine,
) -> Result<String, AllocError> {
    let name = option.name;
    let takes = option.takes;
    let about = option.about;
    let text = matches.get_str(name).unwrap_or("");
    format!(in alloc;
        "error: invalid value '{text}' for '--{name} <{takes}>': N is decimal digits alone\n\n{about}\n"
    )
}

/// How `clap` is to look at the texts of options.
#[derive(Clone, Copy)]
enum Wording {
    /// Any text is taken, so that what the program refuses comes after all that `clap` does.
    Any,
    /// Where an option takes words alone, other text is refused; and a number below 0 is a text that an option may be given, so
    /// that the message is of the number.
    Words,
}

// The command that `clap` reads, made of the table.
fn command<'a>(alloc: Global, wording: Wording) -> Result<Command<'a>, AllocError> {
    let command = with_options(alloc, bare_command(alloc), everyday(), None, wording)?;
    let command = with_flags(alloc, command, flags())?;
    with_options(alloc, command, windows(), Some(WINDOWS_HEADING), wording)
}

// The command with no option yet.
fn bare_command<'a>(alloc: Global) -> Command<'a> {
    Command::new(alloc, "srm_lab")
        .version(VERSION)
        .about(ABOUT)
        .override_usage(USAGE)
        .after_help(AFTER_HELP)
        .next_line_help(true)
}

// (a proof that calls these does not go over the bytes of the table)
fn everyday() -> &'static [OptionLine] {
    &EVERYDAY
}

fn flags() -> &'static [Flag] {
    &FLAGS
}

fn windows() -> &'static [OptionLine] {
    &WINDOWS
}

// A command with these options, which stand under a heading if there is one.
fn with_options<'a>(
    alloc: Global,
    mut command: Command<'a>,
    options: &[OptionLine],
    heading: Option<&'static str>,
    wording: Wording,
) -> Result<Command<'a>, AllocError> {
    for option in options {
        let arg = arg_of(alloc, *option, wording);
        let arg = match heading {
            None => arg,
            Some(heading) => arg.help_heading(heading),
        };
        command = command.arg(arg)?;
    }
    Ok(command)
}

// A command with these options that take nothing.
fn with_flags<'a>(
    alloc: Global,
    mut command: Command<'a>,
    flags: &[Flag],
) -> Result<Command<'a>, AllocError> {
    for flag in flags {
        command = command.arg(arg_of_flag(alloc, *flag))?;
    }
    Ok(command)
}

// The argument of an option that takes nothing.
fn arg_of_flag<'a>(alloc: Global, flag: Flag) -> Arg<'a> {
    Arg::new(alloc, flag.name)
        .long(flag.name)
        .action(ArgAction::SetTrue)
        .help(flag.about)
}

// The argument of an option.
fn arg_of<'a>(alloc: Global, option: OptionLine, wording: Wording) -> Arg<'a> {
    let parser = match (option.reader, wording) {
        (Reader::Number { least, most }, _) => ValueParser::unsigned(least, most),
        (Reader::Text, Wording::Words) if !option.words.is_empty() => ValueParser::Names(
            option.words,
        ),
        (Reader::Text, _) => ValueParser::string(),
    };
    let arg = Arg::new(alloc, option.name)
        .long(option.name)
        .value_name(option.takes)
        .value_parser(parser)
        .allow_negative_numbers(matches!(wording, Wording::Words))
        .help(option.about);
    match option.default {
        None => arg,
        Some(default) => arg.default_value(default),
    }
}

// What is told of an error of `clap`.
fn fault_of(alloc: Global, error: &Error) -> LineFault
    ensures { TellsKind (kind_of error.now) result }
{
    match error.kind() {
        ErrorKind::OutOfMemory => LineFault::NoMemory,
        ErrorKind::DisplayHelp | ErrorKind::DisplayVersion => match format!(in alloc; "{error}") {
            Ok(text) => LineFault::Help { text },
            Err(_) => LineFault::NoMemory,
        },
        _ => LineFault::Line,
    }
}

// The number of an option, which `clap` has looked at.
fn number(matches: &ArgMatches<'_>, name: &str, reader: Reader) -> Result<u64, LineFault>
    ensures { IfOk result (TakesNumber reader) }
{
    match (matches.get_one::<u64>(name), reader) {
        (Some(number), Reader::Number { least, most }) if least <= number && number <= most => {
            Ok(number)
        }
        _ => Err(LineFault::Line),
    }
}

// How many runs are to be made, where that is told.
fn count_of_runs(matches: &ArgMatches<'_>) -> Result<Option<u32>, LineFault>
    ensures { IfOk result (λ count. IfSome count IsCountOfRuns) }
{
    if matches.get_one::<u64>(REPLICATIONS).is_none() {
        return Ok(None);
    }
    let count = number(matches, REPLICATIONS, COUNTS_OF_RUNS)?;
    Ok(Some(count as u32))
}

// What a text stands for among these words, if it is one of them.
fn meaning<T: Copy>(text: &str, words: &[(&'static str, T)]) -> Option<T> {
    for (word, meaning) in words {
        if *word == text {
            return Some(*meaning);
        }
    }
    None
}

// What the word of an option stands for.
fn word<T: Copy>(matches: &ArgMatches<'_>, name: &str, words: &[(&'static str, T)]) -> Option<T> {
    meaning(matches.get_str(name)?, words)
}

// The number that a text of digits writes, if it is below 2^64.
fn digits(text: &str) -> Option<u64> {
    if !text.bytes().all(|byte| byte.is_ascii_digit()) {
        return None;
    }
    text.parse::<u64>().ok()
}

// How many members a job is to have.
fn cut(matches: &ArgMatches<'_>) -> Option<u32> {
    u32::try_from(digits(matches.get_str(CUT)?)?).ok()
}

// How wide windows are to be.
fn width(matches: &ArgMatches<'_>) -> Option<Width> {
    let text = matches.get_str(WIDTH)?;
    match meaning(text, &WIDTHS) {
        Some(width) => Some(width),
        None => Some(Width::Ticks(digits(text)?)),
    }
}
