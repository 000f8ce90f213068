//! The words of each command, and what they ask for.

use crate::tests::same;
use answer_text::Order;
use cer_base::OrMemory;
use command_words::{Command, ExplainWords, Usage, read_command};
use std::alloc::{AllocError, Global};
use std::process::Abort;
use std::test::Fail;

/// Each row has the words, a blank between two of them, and what they ask for: options, numbers and
/// names of a run and a sample. A line that begins with `#` says what the rows below it show.
const RUNS: &str = "\
# the two commands, and what holds where no option is given
run q e | run q e Sorted 1099511627776
sample 7 3 | sample 7 3
# options before, between and after the names, apart and joined
run --order walk q e | run q e Walk 1099511627776
run q --order sorted e | run q e Sorted 1099511627776
run q e --order walk | run q e Walk 1099511627776
run q e --order=walk | run q e Walk 1099511627776
run --max-bytes 5 q --order=walk e | run q e Walk 5
run --order=walk --max-bytes=9 q e | run q e Walk 9
# the bounds of each number, and one beyond
run q e --max-bytes 1 | run q e Sorted 1
run q e --max-bytes 0 | usage
run q e --max-bytes 4611686018427387904 | run q e Sorted 4611686018427387904
run q e --max-bytes 4611686018427387905 | usage
run q e --max-bytes 18446744073709551616 | usage
run q e --compact-every 1 | run q e Sorted 1099511627776, compacted every 1
run --compact-every=4294967295 q --order walk e | run q e Walk 1099511627776, compacted every 4294967295
run --compact-every 3 --max-bytes 9 q e | run q e Sorted 9, compacted every 3
run q e --compact-every 0 | usage
run q e --compact-every 4294967296 | usage
run q e --compact-every 18446744073709551617 | usage
run q e --compact-every | usage
run q e --compact-every 5 --compact-every 5 | usage
run q e --compact 5 | usage
sample 7 3 --compact-every 5 | usage
sample 0 0 | sample 0 0
sample 18446744073709551615 0 | sample 18446744073709551615 0
sample 18446744073709551616 0 | usage
sample 0 10000000 | sample 0 10000000
sample 0 10000001 | usage
# whole numbers: a plus and zeros before them are taken, a minus and all else are not
run q e --max-bytes +5 | run q e Sorted 5
run q e --max-bytes 0005 | run q e Sorted 5
run q e --max-bytes=+0005 | run q e Sorted 5
sample +7 007 | sample 7 7
sample 00018446744073709551615 +0 | sample 18446744073709551615 0
run q e --max-bytes=-5 | usage
run q e --max-bytes 5k | usage
run q e --max-bytes= | usage
run q e --max-bytes=++5 | usage
sample -1 0 | usage
sample 1.5 0 | usage
sample x 0 | usage
# a lone dash and the empty word are names
run - e | run - e Sorted 1099511627776
run - - | run - - Sorted 1099511627776
run  e | run  e Sorted 1099511627776
# after two dashes all words are names
run -- --order walk | run --order walk Sorted 1099511627776
run q -- -e | run q -e Sorted 1099511627776
run --order walk -- q e | run q e Walk 1099511627776
run -- q e --order walk | usage
-- run q e | usage
# a value apart from its option does not begin with a dash
run q e --order -walk | usage
run q e --max-bytes -5 | usage
run q e --max-bytes --order walk | usage
# each option once, with a value, of its kind
run q e --order walk --order walk | usage
run q e --max-bytes 5 --max-bytes=5 | usage
run q e --order | usage
run q e --order= | usage
run q e --order Walk | usage
run q e --order random | usage
run q e --ord walk | usage
run q e -o walk | usage";

/// The same of too few or too many words, of the other commands, and of what the program does not have.
const OTHERS: &str = "\
# too few names, too many, and names of no command
run | usage
run q | usage
run q e x | usage
sample 7 | usage
sample 7 3 1 | usage
 | usage
walk q e | usage
--order walk run q e | usage
# a question: any number of positions, in any order, and repeats
explain q e 1 1 3 3 | explain q e 1 1 3 [3]
explain q e 1 1 3 | explain q e 1 1 3 []
explain q e 2 0 5 4 0 4 +3 | explain q e 2 0 5 [4, 0, 4, 3]
explain q e 0 18446744073709551615 0 0 | explain q e 0 18446744073709551615 0 [0]
explain -- - -e 1 1 3 3 | explain - -e 1 1 3 [3]
explain q e 1 1 | usage
explain q e 1 1 x | usage
explain q e 1 1 18446744073709551616 | usage
explain q e 1 1 3 3 x | usage
explain q e 1 1 3 -3 | usage
explain q e 1 1 3 --order walk | usage
# a session: two names, and no option
session q s | session q s
session - - | session - -
session -- -q -s | session -q -s
session q | usage
session q s x | usage
session q s --order walk | usage
session q s --max-bytes 5 | usage
session -q s | usage
# late events: a clock's name, a bound from 0 to 2^63 - 1, and the options of a run
reorder q e t 5 | reorder q e t 5 Sorted 1099511627776
reorder q e t 0 --order walk --max-bytes 9 | reorder q e t 0 Walk 9
reorder --compact-every 3 q e --order=sorted t 9223372036854775807 | reorder q e t 9223372036854775807 Sorted 1099511627776, compacted every 3
reorder q e t +007 | reorder q e t 7 Sorted 1099511627776
reorder -- - -e -t 5 | reorder - -e -t 5 Sorted 1099511627776
reorder q e t 9223372036854775808 | usage
reorder q e t -5 | usage
reorder q e t -- -5 | usage
reorder q e t x | usage
reorder q e t | usage
reorder q e t 5 5 | usage
reorder q e t 5 --order up | usage
run q e t 5 | usage
# a checkpoint: two names, and no option
save q e | save q e
save -- - -e | save - -e
save q | usage
save q c e | usage
save q e --max-bytes 5 | usage
# the run that goes on from it: three names, and the options of a run
resume q c e | resume q c e Sorted 1099511627776
resume --order=walk q c --max-bytes 9 e | resume q c e Walk 9
resume q c e --compact-every 3 | resume q c e Sorted 1099511627776, compacted every 3
resume -- - -c -e | resume - -c -e Sorted 1099511627776
resume q e | usage
resume q c e x | usage
resume q c e --order up | usage
resume q c e --compact-every 0 | usage
# what the program does not have
--help | usage
-h | usage
help | usage
--version | usage
run --help | usage
sample 7 3 --order walk | usage";

fn words_of(alloc: Global, line: &str) -> Result<Vec<String>, AllocError> {
    let mut words = Vec::new(alloc);
    for word in line.split(' ') {
        words.push(word.to_string(alloc)?)?;
    }
    Ok(words)
}

/// The options of a run.
fn options_words(
    alloc: Global,
    order: Order,
    most_bytes: u64,
    compact_every: Option<u64>,
) -> Result<String, AllocError> {
    match compact_every {
        Some(n) => format!(in alloc; "{order:?} {most_bytes}, compacted every {n}"),
        None => format!(in alloc; "{order:?} {most_bytes}"),
    }
}

fn explain_words(alloc: Global, explain: &ExplainWords) -> Result<String, AllocError> {
    let question = &explain.question;
    format!(in alloc;
        "explain {} {} {} {} {} {:?}",
        explain.queries.as_str(),
        explain.events.as_str(),
        question.query,
        question.start,
        question.end,
        question.positions.as_slice()
    )
}

fn command_words(alloc: Global, command: &Command) -> Result<String, AllocError> {
    match command {
        Command::Run(run) => {
            let options = options_words(alloc, run.order, run.most_bytes, run.compact_every)?;
            format!(in alloc;
                "run {} {} {options}",
                run.queries.as_str(),
                run.events.as_str()
            )
        }
        Command::Reorder(run) => {
            let options = options_words(alloc, run.order, run.most_bytes, run.compact_every)?;
            format!(in alloc;
                "reorder {} {} {} {} {options}",
                run.queries.as_str(),
                run.events.as_str(),
                run.clock.as_str(),
                run.late
            )
        }
        Command::Resume(run) => {
            let options = options_words(alloc, run.order, run.most_bytes, run.compact_every)?;
            format!(in alloc;
                "resume {} {} {} {options}",
                run.queries.as_str(),
                run.checkpoint.as_str(),
                run.events.as_str()
            )
        }
        Command::Save(save) => {
            format!(in alloc; "save {} {}", save.queries.as_str(), save.events.as_str())
        }
        Command::Sample(sample) => format!(in alloc; "sample {} {}", sample.seed, sample.count),
        Command::Session(session) => {
            format!(in alloc;
                "session {} {}",
                session.queries.as_str(),
                session.script.as_str()
            )
        }
        Command::Explain(explain) => explain_words(alloc, explain),
    }
}

/// What the words ask for.
fn asked(alloc: Global, words: &[String]) -> Result<String, AllocError> {
    match read_command(alloc, words) {
        Ok(command) => command_words(alloc, &command),
        Err(OrMemory::Fault(Usage)) => "usage".to_string(alloc),
        Err(OrMemory::Memory) => "memory".to_string(alloc),
    }
}

fn row_holds(rt: &impl Abort, alloc: Global, line: &str, wanted: &str) -> Result<(), Fail> {
    let words = words_of(alloc, line)?;
    let asked = asked(alloc, words.as_slice())?;
    same(rt, asked.as_str(), wanted, line);
    Ok(())
}

fn rows_hold(rt: &impl Abort, alloc: Global, table: &str) -> Result<(), Fail> {
    for row in table.split('\n') {
        if row.starts_with('#') {
            continue;
        }
        let Some((line, wanted)) = row.split_once(" | ") else {
            return Err(Fail::new("a row has no words"));
        };
        row_holds(rt, alloc, line, wanted)?;
    }
    Ok(())
}

#[test]
fn words_ask_for_commands(rt: HostRuntime) -> Result<(), Fail> {
    rows_hold(&rt, rt.alloc(), RUNS)?;
    rows_hold(&rt, rt.alloc(), OTHERS)
}

#[test]
fn no_words_ask_for_nothing(rt: HostRuntime) -> Result<(), Fail> {
    let asked = asked(rt.alloc(), &[])?;
    same(&rt, asked.as_str(), "usage", "no words");
    Ok(())
}
