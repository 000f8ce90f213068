//! The command in what `clap` found.
ghost use Rattle.std.specs.Prelude.{◌≡◌, ◌++◌, [], IfOk, OnOk, Some, None};
ghost use Rattle.std.specs.List.{cons_option, filter_map};
ghost use Rattle.clap.specs.Words.{found_of, rows_of, subcommand_rows_of};
ghost use Rattle.cer_base.specs.Answers.{OnFault};
ghost use Rattle.command_words.specs.CommandLine.{command_at, command_named, number_under, number_in, parsed_number, numbers_in, other_named};
ghost use Rattle.command_words.specs.CommandLine.{explain_in, order_in, order_of, reorder_in, resume_in, run_in, sample_in, save_in, session_in, text_in};

use crate::{
    Command, ExplainWords, Question, ReorderWords, ResumeWords, RunWords, SampleWords, SaveWords,
    SessionWords, Usage,
};
use answer_text::Order;
use cer_base::limits::MOST_BYTES;
use cer_base::{Listed, Memory, OrMemory, Text};
use clap::ArgMatches;
use std::alloc::Global;

/// The greatest number of `--max-bytes`: 2^62.
const GREATEST_BYTES: u64 = 4611686018427387904;

/// The command in the matches, where they have one of the commands and an order's name.
pub(crate) fn command_in(
    alloc: Global,
    matches: &ArgMatches<'_>,
) -> Result<Command, OrMemory<Usage>>
    ensures read { IfOk result (λ c. command_at (subcommand_rows_of matches.now) ≡ Some c) }
    ensures none { OnFault result (λ u. command_at (subcommand_rows_of matches.now) ≡ None) }
{
    let Some((name, found)) = matches.subcommand() else {
        return Err(OrMemory::Fault(Usage));
    };
    command_named(alloc, name, found)
}

/// The command of this name in what was found after it.
fn command_named(
    alloc: Global,
    name: &str,
    found: &ArgMatches<'_>,
) -> Result<Command, OrMemory<Usage>>
    ensures read { IfOk result (λ c. command_named name.now (rows_of (found_of found.now))
        ≡ Some c) }
    ensures none { OnFault result (λ u. command_named name.now (rows_of (found_of found.now))
        ≡ None) }
{
    if name == "run" {
        return run_in(alloc, found);
    }
    if name == "sample" {
        return Ok(sample_in(found));
    }
    if name == "session" {
        return session_in(alloc, found);
    }
    if name == "reorder" {
        return reorder_in(alloc, found);
    }
    other_named(alloc, name, found)
}

/// The command of a name that is not a run's, a reordered run's, a sample's or a session's.
fn other_named(
    alloc: Global,
    name: &str,
    found: &ArgMatches<'_>,
) -> Result<Command, OrMemory<Usage>>
    ensures read { IfOk result (λ c. other_named name.now (rows_of (found_of found.now))
        ≡ Some c) }
    ensures none { OnFault result (λ u. other_named name.now (rows_of (found_of found.now))
        ≡ None) }
{
    if name == "explain" {
        return explain_in(alloc, found);
    }
    if name == "save" {
        return save_in(alloc, found);
    }
    if name == "resume" {
        return resume_in(alloc, found);
    }
    Err(OrMemory::Fault(Usage))
}

/// What was found after `run`.
fn run_in(alloc: Global, matches: &ArgMatches<'_>) -> Result<Command, OrMemory<Usage>>
    ensures read { IfOk result (λ c. run_in (rows_of (found_of matches.now)) ≡ Some c) }
    ensures none { OnFault result (λ u. run_in (rows_of (found_of matches.now)) ≡ None) }
{
    let Some(order) = order_in(matches) else {
        return Err(OrMemory::Fault(Usage));
    };
    let queries = text_in(alloc, matches, "queries")?;
    let events = text_in(alloc, matches, "events")?;
    let compact_every = number_under(matches, "compact-every");
    let most_bytes = number_in(matches, "max-bytes", MOST_BYTES);
    Ok(Command::Run(RunWords {
        queries,
        events,
        order,
        compact_every,
        most_bytes,
    }))
}

/// What was found after `sample`.
fn sample_in(matches: &ArgMatches<'_>) -> Command
    ensures { result ≡ sample_in (rows_of (found_of matches.now)) }
{
    let seed = number_in(matches, "seed", 0);
    let count = number_in(matches, "count", 0);
    Command::Sample(SampleWords { seed, count })
}

/// What was found after `session`.
fn session_in(alloc: Global, matches: &ArgMatches<'_>) -> Result<Command, OrMemory<Usage>>
    ensures read { IfOk result (λ c. c ≡ session_in (rows_of (found_of matches.now))) }
    ensures none { OnFault result (λ u. ⊥) }
{
    Ok(Command::Session(SessionWords {
        queries: text_in(alloc, matches, "queries")?,
        script: text_in(alloc, matches, "script")?,
    }))
}

/// What was found after `reorder`.
fn reorder_in(alloc: Global, matches: &ArgMatches<'_>) -> Result<Command, OrMemory<Usage>>
    ensures read { IfOk result (λ c. reorder_in (rows_of (found_of matches.now)) ≡ Some c) }
    ensures none { OnFault result (λ u. reorder_in (rows_of (found_of matches.now)) ≡ None) }
{
    let Some(order) = order_in(matches) else {
        return Err(OrMemory::Fault(Usage));
    };
    Ok(Command::Reorder(ReorderWords {
        queries: text_in(alloc, matches, "queries")?,
        events: text_in(alloc, matches, "events")?,
        clock: text_in(alloc, matches, "clock")?,
        late: number_in(matches, "late", 0),
        order,
        compact_every: number_under(matches, "compact-every"),
        most_bytes: number_in(matches, "max-bytes", MOST_BYTES),
    }))
}

/// What was found after `explain`.
fn explain_in(alloc: Global, matches: &ArgMatches<'_>) -> Result<Command, OrMemory<Usage>>
    ensures read { IfOk result (λ c. c ≡ explain_in (rows_of (found_of matches.now))) }
    ensures none { OnFault result (λ u. ⊥) }
{
    Ok(Command::Explain(ExplainWords {
        queries: text_in(alloc, matches, "queries")?,
        events: text_in(alloc, matches, "events")?,
        question: Question {
            query: number_in(matches, "query", 0),
            start: number_in(matches, "start", 0),
            end: number_in(matches, "end", 0),
            positions: numbers_in(alloc, matches, "positions")?,
        },
    }))
}

/// What was found after `save`.
fn save_in(alloc: Global, matches: &ArgMatches<'_>) -> Result<Command, OrMemory<Usage>>
    ensures read { IfOk result (λ c. c ≡ save_in (rows_of (found_of matches.now))) }
    ensures none { OnFault result (λ u. ⊥) }
{
    Ok(Command::Save(SaveWords {
        queries: text_in(alloc, matches, "queries")?,
        events: text_in(alloc, matches, "events")?,
    }))
}

/// What was found after `resume`.
fn resume_in(alloc: Global, matches: &ArgMatches<'_>) -> Result<Command, OrMemory<Usage>>
    ensures read { IfOk result (λ c. resume_in (rows_of (found_of matches.now)) ≡ Some c) }
    ensures none { OnFault result (λ u. resume_in (rows_of (found_of matches.now)) ≡ None) }
{
    let Some(order) = order_in(matches) else {
        return Err(OrMemory::Fault(Usage));
    };
    Ok(Command::Resume(ResumeWords {
        queries: text_in(alloc, matches, "queries")?,
        checkpoint: text_in(alloc, matches, "checkpoint")?,
        events: text_in(alloc, matches, "events")?,
        order,
        compact_every: number_under(matches, "compact-every"),
        most_bytes: number_in(matches, "max-bytes", MOST_BYTES).min(GREATEST_BYTES),
    }))
}

fn text_in(alloc: Global, matches: &ArgMatches<'_>, id: &str) -> Result<Text, Memory>
    ensures { IfOk result (λ text. text ≡ text_in id.now (rows_of (found_of matches.now))) }
{
    Text::copy_of(alloc, matches.get_str(id).unwrap_or(""))
}

fn number_under(matches: &ArgMatches<'_>, id: &str) -> Option<u64>
    ensures { result ≡ number_under id.now (rows_of (found_of matches.now)) }
{
    matches.get_one::<u64>(id)
}

fn number_in(matches: &ArgMatches<'_>, id: &str, default: u64) -> u64
    ensures { result ≡ number_in default id.now (rows_of (found_of matches.now)) }
{
    number_under(matches, id).unwrap_or(default)
}

fn numbers_in(alloc: Global, matches: &ArgMatches<'_>, id: &str) -> Result<Listed<u64>, Memory>
    ensures { IfOk result (λ numbers. numbers
        ≡ numbers_in id.now (rows_of (found_of matches.now))) }
{
    match matches.get_strs(id) {
        Some(texts) => Ok(Listed::of(numbers_of(alloc, texts)?)),
        None => Ok(Listed::of(Vec::new(alloc))),
    }
}

/// The numbers that the texts have in decimal digits.
fn numbers_of(alloc: Global, texts: &[&str]) -> Result<Vec<u64>, Memory>
    ensures { IfOk result (λ numbers. numbers.items
        ≡ filter_map (λ text. parsed_number text.now) texts.now) }
{
    let mut numbers = Vec::new(alloc);
    for text in texts {
        add_number(&mut numbers, parsed_number(text))?;
    }
    Ok(numbers)
}

/// Puts the number at the end, if it is one.
fn add_number(numbers: &mut Vec<u64>, number: Option<u64>) -> Result<(), Memory>
    ensures { OnOk result (numbers.new.items ≡ numbers.old.items ++ cons_option number []) }
{
    match number {
        Some(number) => {
            numbers.push(number)?;
            Ok(())
        }
        None => Ok(()),
    }
}

fn parsed_number(text: &str) -> Option<u64>
    ensures { result ≡ parsed_number text.now }
{
    match text.parse::<u64>() {
        Ok(number) => Some(number),
        Err(_) => None,
    }
}

fn order_in(matches: &ArgMatches<'_>) -> Option<Order>
    ensures { result ≡ order_in (rows_of (found_of matches.now)) }
{
    match matches.get_str("order") {
        Some(name) => order_of(name),
        None => Some(Order::Sorted),
    }
}

fn order_of(name: &str) -> Option<Order>
    ensures { result ≡ order_of name.now }
{
    if name == "walk" {
        return Some(Order::Walk);
    }
    if name == "sorted" {
        return Some(Order::Sorted);
    }
    None
}
