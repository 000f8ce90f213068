//! The program's command, as `clap` is told it, and its parse.
ghost use Rattle.std.specs.Prelude.{◌≡◌, ◌↔◌, IfOk, map, string_bytes, true, false};
ghost use Rattle.clap.specs.Words.{App, Rule, app_of, kind_of, rule_of, subcommand_of, subcommand_rows_of, with_rule, with_subcommand};
ghost use Rattle.cer_base.specs.Answers.{OnFault};
ghost use Rattle.cer_base.specs.declared.OrMemory.TheVariants.{Memory};
ghost use Rattle.command_words.specs.CommandLine.{clap_takes};
ghost use Rattle.command_words.specs.Program.{compact_every, count, explain, late, most_bytes, name, no_commands, option, over_files, program, reorder, repeated};
ghost use Rattle.command_words.specs.Program.{resume, run, sample, save, session, whole, with_run_options};

use crate::Usage;
use cer_base::OrMemory;
use clap::error::ErrorKind;
use clap::{Arg, ArgAction, ArgMatches, value_parser};
use std::alloc::{AllocError, Global};

/// What `clap` found in the words, where it takes them.
pub(crate) fn matches<'a>(
    alloc: Global,
    words: &'a [String],
) -> Result<ArgMatches<'a>, OrMemory<Usage>>
    ensures taken { IfOk result (λ m. clap_takes (map string_bytes words.entry.now) ≡ true) }
    ensures found { IfOk result (λ m. subcommand_rows_of m
        ≡ subcommand_of program (map string_bytes words.entry.now)) }
    ensures refused { OnFault result (λ usage.
        clap_takes (map string_bytes words.entry.now) ≡ false) }
{
    let program = program(alloc)?;
    match program.try_get_matches_from(words) {
        Ok(matches) => Ok(matches),
        Err(error) => Err(refusal(&error)),
    }
}

/// That memory ran out, or that the words are refused.
fn refusal(error: &clap::Error) -> OrMemory<Usage>
    ensures { (result ≡ Memory) ↔ (kind_of error.now ≡ ErrorKind.OutOfMemory) }
{
    if error.kind() == ErrorKind::OutOfMemory {
        return OrMemory::Memory;
    }
    OrMemory::Fault(Usage)
}

/// A name that has to be there.
fn name<'a>(alloc: Global, id: &'a str) -> Arg<'a>
    ensures rule { rule_of result ≡ name id.entry.now }
    ensures local { result.global ≡ false }
{
    Arg::new(alloc, id).required(true)
}

/// A whole number of 64 bits that has to be there.
fn number<'a>(alloc: Global, id: &'a str) -> Arg<'a>
    ensures rule { rule_of result ≡ whole (name id.entry.now) }
    ensures local { result.global ≡ false }
{
    name(alloc, id).value_parser(value_parser!(u64))
}

/// Whole numbers of 64 bits, as many as there are.
fn numbers<'a>(alloc: Global, id: &'a str) -> Arg<'a>
    ensures rule { rule_of result ≡ whole (repeated id.entry.now) }
    ensures local { result.global ≡ false }
{
    Arg::new(alloc, id)
        .action(ArgAction::Append)
        .value_parser(value_parser!(u64))
}

/// An option of any one value.
fn option<'a>(alloc: Global, id: &'a str) -> Arg<'a>
    ensures rule { rule_of result ≡ option id.entry.now }
    ensures local { result.global ≡ false }
{
    Arg::new(alloc, id).long(id)
}

/// `--compact-every N`, N from 1 to 2^32 - 1.
fn compact_every<'a>(alloc: Global) -> Arg<'a>
    ensures rule { rule_of result ≡ compact_every }
    ensures local { result.global ≡ false }
{
    let numbers = value_parser!(u64).range(1..=4294967295);
    option(alloc, "compact-every").value_parser(numbers)
}

/// `--max-bytes N`, N from 1 to 2^62.
fn most_bytes<'a>(alloc: Global) -> Arg<'a>
    ensures rule { rule_of result ≡ most_bytes }
    ensures local { result.global ≡ false }
{
    let numbers = value_parser!(u64).range(1..=4611686018427387904);
    option(alloc, "max-bytes").value_parser(numbers)
}

/// How much an event may come late, from 0 to 2^63 - 1.
fn late<'a>(alloc: Global) -> Arg<'a>
    ensures rule { rule_of result ≡ late }
    ensures local { result.global ≡ false }
{
    name(alloc, "late").value_parser(value_parser!(u64).range(..=9223372036854775807))
}

/// The command with one more argument, where there was memory for it so far.
fn with_argument<'a>(
    command: Result<clap::Command<'a>, AllocError>,
    argument: Arg<'a>,
) -> Result<clap::Command<'a>, AllocError>
    requires { argument.global ≡ false }
    ensures { (app : App) (rule : Rule) → IfOk command.entry (λ c. app_of c ≡ app)
        → rule_of argument.entry ≡ rule → IfOk result (λ c. app_of c ≡ with_rule app rule) }
{
    command?.arg(argument)
}

/// A command of this name, after which stand the names of a query file and an event file.
fn over_files<'a>(alloc: Global, id: &'a str) -> Result<clap::Command<'a>, AllocError>
    ensures { IfOk result (λ c. app_of c ≡ over_files id.entry.now) }
{
    let command = Ok(clap::Command::new(alloc, id));
    let with_queries = with_argument(command, name(alloc, "queries"));
    with_argument(with_queries, name(alloc, "events"))
}

/// The command with `[--order walk|sorted] [--compact-every N] [--max-bytes N]`.
fn with_run_options<'a>(
    alloc: Global,
    command: Result<clap::Command<'a>, AllocError>,
) -> Result<clap::Command<'a>, AllocError>
    ensures { (app : App) → IfOk command.entry (λ c. app_of c ≡ app)
        → IfOk result (λ c. app_of c ≡ with_run_options app) }
{
    let with_order = with_argument(command, option(alloc, "order"));
    let with_compaction = with_argument(with_order, compact_every(alloc));
    with_argument(with_compaction, most_bytes(alloc))
}

/// `run QUERIES EVENTS [--order walk|sorted] [--compact-every N] [--max-bytes N]`
fn run<'a>(alloc: Global) -> Result<clap::Command<'a>, AllocError>
    ensures { IfOk result (λ c. app_of c ≡ run) }
{
    with_run_options(alloc, over_files(alloc, "run"))
}

/// `reorder QUERIES EVENTS CLOCK LATE`, with the options of a run.
fn reorder<'a>(alloc: Global) -> Result<clap::Command<'a>, AllocError>
    ensures { IfOk result (λ c. app_of c ≡ reorder) }
{
    let with_clock = with_argument(over_files(alloc, "reorder"), name(alloc, "clock"));
    with_run_options(alloc, with_argument(with_clock, late(alloc)))
}

/// How many events a sample has, at most 10000000.
fn count<'a>(alloc: Global) -> Arg<'a>
    ensures rule { rule_of result ≡ count }
    ensures local { result.global ≡ false }
{
    name(alloc, "count").value_parser(value_parser!(u64).range(..=10000000))
}

/// `sample SEED COUNT`
fn sample<'a>(alloc: Global) -> Result<clap::Command<'a>, AllocError>
    ensures { IfOk result (λ c. app_of c ≡ sample) }
{
    let command = Ok(clap::Command::new(alloc, "sample"));
    let with_seed = with_argument(command, number(alloc, "seed"));
    with_argument(with_seed, count(alloc))
}

/// `session QUERIES SCRIPT`
fn session<'a>(alloc: Global) -> Result<clap::Command<'a>, AllocError>
    ensures { IfOk result (λ c. app_of c ≡ session) }
{
    let command = Ok(clap::Command::new(alloc, "session"));
    let with_queries = with_argument(command, name(alloc, "queries"));
    with_argument(with_queries, name(alloc, "script"))
}

/// `explain QUERIES EVENTS QUERY START END [POSITION]...`
fn explain<'a>(alloc: Global) -> Result<clap::Command<'a>, AllocError>
    ensures { IfOk result (λ c. app_of c ≡ explain) }
{
    let with_query = with_argument(over_files(alloc, "explain"), number(alloc, "query"));
    let with_start = with_argument(with_query, number(alloc, "start"));
    let with_end = with_argument(with_start, number(alloc, "end"));
    with_argument(with_end, numbers(alloc, "positions"))
}

/// `save QUERIES EVENTS`
fn save<'a>(alloc: Global) -> Result<clap::Command<'a>, AllocError>
    ensures { IfOk result (λ c. app_of c ≡ save) }
{
    over_files(alloc, "save")
}

/// `resume QUERIES CHECKPOINT EVENTS`, with the options of a run.
fn resume<'a>(alloc: Global) -> Result<clap::Command<'a>, AllocError>
    ensures { IfOk result (λ c. app_of c ≡ resume) }
{
    let command = Ok(clap::Command::new(alloc, "resume"));
    let with_queries = with_argument(command, name(alloc, "queries"));
    let with_checkpoint = with_argument(with_queries, name(alloc, "checkpoint"));
    let with_events = with_argument(with_checkpoint, name(alloc, "events"));
    with_run_options(alloc, with_events)
}

/// The program with one more command, where there was memory for both.
fn with_command<'a>(
    program: Result<clap::Command<'a>, AllocError>,
    command: Result<clap::Command<'a>, AllocError>,
) -> Result<clap::Command<'a>, AllocError>
    requires { IfOk command (λ c. (app_of c).top.is_plain ≡ true) }
    ensures { (above below : App) → IfOk program.entry (λ c. app_of c ≡ above)
        → IfOk command.entry (λ c. app_of c ≡ below)
        → IfOk result (λ c. app_of c ≡ with_subcommand above below.top) }
{
    program?.subcommand(command?)
}

/// A command with none below it yet, no help and no version.
fn no_commands<'a>(alloc: Global) -> clap::Command<'a>
    ensures { app_of result ≡ no_commands }
{
    clap::Command::new(alloc, "core_cli")
        .no_binary_name(true)
        .disable_help_flag(true)
        .disable_help_subcommand(true)
        .disable_version_flag(true)
        .subcommand_required(true)
}

/// The command that has one of these as its subcommand, and no help and no version.
fn program<'a>(alloc: Global) -> Result<clap::Command<'a>, AllocError>
    ensures { IfOk result (λ c. app_of c ≡ program) }
{
    let with_run = with_command(Ok(no_commands(alloc)), run(alloc));
    let with_sample = with_command(with_run, sample(alloc));
    let with_session = with_command(with_sample, session(alloc));
    let with_reorder = with_command(with_session, reorder(alloc));
    let with_explain = with_command(with_reorder, explain(alloc));
    let with_save = with_command(with_explain, save(alloc));
    with_command(with_save, resume(alloc))
}
