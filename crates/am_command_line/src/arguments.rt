//! The arguments of the command line.

ghost use Rattle.std.specs.Prelude.{◌≤◌, ◌≡◌, IfOk, IfErr, map, string_bytes};
ghost use Rattle.clap.specs.Matches.{found_of};
ghost use Rattle.am_cast.specs.declared.limits.TheConstants.{MAX_PLACES};
ghost use Rattle.am_command_line.specs.Options.{AreModes, ArePolicies, HasOptions, IsCommandLineOf, IsFlag, IsOption};
ghost use Rattle.am_command_line.specs.ArgumentsFaults.{IsTold};

use am_cast::MAX_PLACES;
use am_provider::Policy;
use am_script::Form;
use clap::builder::ValueParser;
use clap::error::ErrorKind;
use clap::{Arg, ArgAction, ArgMatches, Command, Error};
use std::alloc::{AllocError, Global};

/// In which order the lines of the script are run.
#[derive(Clone, Copy, Debug, PartialEq, Eq)]
pub enum Mode {
    /// In the script's order, whichever threads they belong to.
    Ordered,
    /// Each thread runs its own in their order, concurrently with the others.
    Free,
    /// Each line is run and answered before the next one is read, in one thread.
    Live,
    /// The same, and a read that finds nothing more goes on: what comes for its subscription is printed after the
    /// lines that follow.
    Follow,
}

// How many batches the log of a script holds, at most. In the modes live and follow these are `MAX_PLACES`.
const SCRIPT_PLACES: u32 = 256;

/// What the command line asks for.
#[derive(Clone, Copy, Debug)]
pub struct Arguments {
    pub mode: Mode,
    /// In which form the answers are printed.
    pub form: Form,
    /// How many batches the log holds. In a script these are at most 256.
    pub places: u32,
    /// What a post does where the log is full.
    pub full: Policy,
    ghost in_range: { (1 ≤ places) × (places ≤ MAX_PLACES) },
}

/// Why the arguments of a command line weren't read.
#[derive(Debug, Drop)]
#[non_exhaustive]
pub enum ArgumentsFault {
    /// They are refused, or ask for help. This is what is to be printed.
    Refused(String),
    NoMemory,
}

impl From<AllocError> for ArgumentsFault {
    ghost use Rattle.am_command_line.specs.declared.arguments.ArgumentsFault.TheVariants.{NoMemory};

    ghost from_gives = { λ _ fault. fault ≡ NoMemory };

    fn from(_error: AllocError) -> ArgumentsFault {
        ArgumentsFault::NoMemory
    }
}

static MODES: [&str; 4] = ["ordered", "free", "live", "follow"];

static POLICIES: [&str; 2] = ["refuse", "cut"];

impl Arguments {
    ghost use Rattle.am_command_line.specs.Arguments.{AreFound, AreArgumentsOf, FitTheMode, IsFaultOf, IsMisfit};

    /// Reads the arguments that a command line gives, without the program's name.
    pub fn read(alloc: Global, given: &[String]) -> Result<Arguments, ArgumentsFault>
        ensures read { IfOk result (AreArgumentsOf (map string_bytes given.now)) }
        ensures refused { IfErr result (IsFaultOf (map string_bytes given.now)) }
    {
        let command = command(alloc, MODES.as_slice(), POLICIES.as_slice())?;
        match command.try_get_matches_from(given) {
            Ok(matches) => Arguments::found(&matches).within_mode(alloc),
            Err(error) => Err(told(alloc, &error)),
        }
    }

    // The arguments that a command line gives, as clap has read it.
    fn found(matches: &ArgMatches<'_>) -> Arguments
        requires { HasOptions (found_of matches.now) }
        ensures { AreFound (found_of matches.now) result }
    {
        Arguments {
            mode: match matches.get_str("mode") {
                Some("free") => Mode::Free,
                Some("live") => Mode::Live,
                Some("follow") => Mode::Follow,
                _ => Mode::Ordered,
            },
            form: match matches.get_str("json") {
                Some("true") => Form::Json,
                _ => Form::Text,
            },
            places: matches.get_one::<u32>("places").unwrap_or(SCRIPT_PLACES),
            full: match matches.get_str("full") {
                Some("cut") => Policy::Cut,
                _ => Policy::Refuse,
            },
        }
    }

    // The same, unless they ask for more places than logs have in their mode.
    fn within_mode(self, alloc: Global) -> Result<Arguments, ArgumentsFault>
        ensures fit { IfOk result (λ same. (same ≡ self) × FitTheMode self) }
        ensures misfit { IfErr result (IsMisfit self) }
    {
        let is_script = matches!(self.mode, Mode::Ordered | Mode::Free);
        if !is_script || self.places <= SCRIPT_PLACES {
            return Ok(self);
        }
        match too_many_places(alloc, self.places) {
            Ok(text) => Err(ArgumentsFault::Refused(text)),
            Err(AllocError) => Err(ArgumentsFault::NoMemory),
        }
    }
}

// What is reported of a script that is given too many places, in clap's words.
fn too_many_places(alloc: Global, places: u32) -> Result<String, AllocError> {
    format!(in alloc;
        "error: invalid value '{places}' for '--places <N>': {places} is not in \
        1..={SCRIPT_PLACES}\n\nFor more information, try '--help'.\n"
    )
}

const USAGE: &str = "./replay [OPTIONS] < SCRIPT";

const ABOUT: &str =
    "Runs a script of calls on an in-memory alert provider, and prints each answer.";

const MODE_HELP: &str =
    "Run the lines in script order, all threads at the same time, or each line as it comes";

const PLACES_HELP: &str =
    "How many batches the log holds, from 1 to 256, or to 65536 if lines are run as they come";

const JSON_HELP: &str = "Print each answer as a JSON object on a line";

const FULL_HELP: &str = "If the log is full, refuse the post or cut the slowest subscribers off";

// Two calls that work as written, and a line for each command of a script.
const EXAMPLES: &str = "\
Examples:
  ./replay < tests/rows/first_post.in
  ./replay --places 1 --full cut < tests/rows/cut_the_slow_lane.in

The first line of a script is the configuration. Each further one is a JSON object
with a command as `do`, a `thread` from 0 to 7, and the command's own members:
  post       at, body          posts alerts
  put        at, alerts        posts alerts that carry their own moments
  subscribe  sub, kind         subscribes; `dispatch` adds a dispatcher, `inhibit` an inhibitor, `notify` both
  read       sub, max          prints what the subscription delivers next
  leave      sub               leaves the subscription
  collect    at                removes the alerts that are resolved by then
  take       at                removes them too, and prints them
  close                        closes the log: no more posts and subscribers
  trim                         discards the calls that no subscription needs any more
  compact                      takes all calls out of memory; subscriptions don't need them there
  groups     sub, at           prints the dispatcher's groups; of `notify` with `at` also what mutes their alerts
  sweep      sub, at           drops what is resolved from the dispatcher's groups
  forget     sub, at           drops what is resolved from the inhibitor
  mutes      sub, at, labels   asks the inhibitor whether it mutes such an alert
  stored     from, max         prints all stored alerts; with `max` a page of them
  get        labels            prints the stored alert of these labels
  routes                       prints the routing tree
  route      labels            prints the routes that these labels match

`at` is a moment as 2024-01-01T10:00:00Z, and `groups` needs none; `sub` is the
subscription's name. `kind` is `plain`, `dispatch`, `inhibit` or `notify`, and `plain`
if it is missing. `max` is from 1 to 65536, and 1 if it is missing; `stored` then
prints all. `from` is the index of a page's first alert, and 0 if it is missing.

With --mode live the lines are answered one by one as they come, `thread` isn't
needed, and a line that can't be read is answered by its fault. With --mode follow a
read goes on: what comes for it later, up to its `max`, is printed after other lines.";

// The command with the program's options.
fn command<'a>(
    alloc: Global,
    modes: &'a [&'a str],
    policies: &'a [&'a str],
) -> Result<Command<'a>, AllocError>
    requires modes { AreModes modes }
    requires policies { ArePolicies policies }
    ensures { IfOk result (IsCommandLineOf modes.entry policies.entry) }
{
    let mode = option(alloc, "mode", "MODE", "ordered", modes.into(), MODE_HELP);
    let numbers = ValueParser::unsigned(1, MAX_PLACES);
    let places = option(alloc, "places", "N", "256", numbers, PLACES_HELP);
    let full = option(
        alloc,
        "full",
        "POLICY",
        "refuse",
        policies.into(),
        FULL_HELP,
    );
    let json = flag(alloc, "json", JSON_HELP);
    Command::new(alloc, "replay")
        .no_binary_name(true)
        .override_usage(USAGE)
        .about(ABOUT)
        .after_help(EXAMPLES)
        .arg(mode)?
        .arg(places)?
        .arg(full)?
        .arg(json)
}

// An option that takes one value.
fn option<'a>(
    alloc: Global,
    name: &'a str,
    value_name: &'a str,
    default: &'a str,
    parser: ValueParser<'a>,
    help: &'a str,
) -> Arg<'a>
    ensures { IsOption name.entry.now default.entry.now parser.entry result }
{
    Arg::new(alloc, name)
        .long(name)
        .action(ArgAction::Set)
        .value_name(value_name)
        .default_value(default)
        .value_parser(parser)
        .help(help)
}

// A flag, whose value is `true` if it is given, and else `false`.
fn flag<'a>(alloc: Global, name: &'a str, help: &'a str) -> Arg<'a>
    ensures { IsFlag name.entry.now result }
{
    Arg::new(alloc, name)
        .long(name)
        .action(ArgAction::SetTrue)
        .help(help)
}

// What is reported of an error of clap's.
fn told(alloc: Global, error: &Error) -> ArgumentsFault
    ensures { IsTold error.now result }
{
    if error.kind() == ErrorKind::OutOfMemory {
        return ArgumentsFault::NoMemory;
    }
    match error.to_string(alloc) {
        Ok(text) => ArgumentsFault::Refused(text),
        Err(AllocError) => ArgumentsFault::NoMemory,
    }
}
