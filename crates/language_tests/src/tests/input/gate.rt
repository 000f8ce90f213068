ghost use Rattle.std.specs.Prelude.{ℕ};
ghost use Rattle.stream_schema.specs.declared.Event.{Event};
ghost use Rattle.reorder_gate.specs.ReleaseLaws.{SortingKeepsParts, ReleasedIsFinal};

use crate::tests::input::declare;
use crate::tests::same;
use cer_base::{Listed, OrMemory, Text};
use reorder_gate::laws::{released_is_final, sorting_keeps_parts};
use reorder_gate::{Gate, TooLate, clock_fits};
use std::alloc::{AllocError, Global};
use std::test::Fail;
use stream_schema::{Event, Kind, Schema, SchemaFault, Value};

// A(t INT) and B(v STRING, t INT).
fn declare_two(alloc: Global, schema: &mut Schema) -> Result<(), OrMemory<SchemaFault>> {
    declare(alloc, schema, "A", &[("t", Kind::Int)])?;
    declare(alloc, schema, "B", &[("v", Kind::Text), ("t", Kind::Int)])
}

// `A` and a clock, or `B` and a clock.
fn event_of(alloc: Global, word: &str) -> Result<Option<Event>, AllocError> {
    let mut values = Vec::new(alloc);
    let (ty, digits) = match word.strip_prefix('B') {
        Some(digits) => {
            values.push(Value::Text(Text::of("x".to_string(alloc)?)))?;
            (1, digits)
        }
        None => match word.strip_prefix('A') {
            Some(digits) => (0, digits),
            None => return Ok(None),
        },
    };
    let Ok(clock) = digits.parse::<i64>() else {
        return Ok(None);
    };
    values.push(Value::Int(clock))?;
    Ok(Some(Event {
        ty,
        values: Listed::of(values),
    }))
}

fn put_words(alloc: Global, gate: &mut Gate, line: u64, word: &str) -> Result<String, AllocError> {
    let Some(event) = event_of(alloc, word)? else {
        return "no event".to_string(alloc);
    };
    if gate.is_finished() {
        return "finished".to_string(alloc);
    }
    match gate.put(line, event) {
        Ok(()) => "put".to_string(alloc),
        Err(OrMemory::Fault(TooLate { high, now })) => format!(in alloc; "{now} after {high}"),
        Err(OrMemory::Memory) => "memory".to_string(alloc),
    }
}

fn take_words(alloc: Global, gate: &mut Gate) -> Result<String, AllocError> {
    match gate.take() {
        Some((line, _event)) => format!(in alloc; "{line}"),
        None => "none".to_string(alloc),
    }
}

// What one step answers: `?` takes, `#` counts, `!` finishes, all else puts.
fn step_words(alloc: Global, gate: &mut Gate, line: u64, word: &str) -> Result<String, AllocError> {
    if word == "?" {
        take_words(alloc, gate)
    } else if word == "#" {
        format!(in alloc; "{} held", gate.held())
    } else if word == "!" {
        gate.finish();
        "end".to_string(alloc)
    } else {
        put_words(alloc, gate, line, word)
    }
}

// The answers of the steps, each after a blank. The n-th step is line n.
fn answers(alloc: Global, gate: &mut Gate, script: &str) -> Result<String, AllocError> {
    let mut words = String::new(alloc);
    let mut line: u64 = 0;
    for word in script.split(' ') {
        line = line.saturating_add(1);
        words.push_str(" ")?;
        let answer = step_words(alloc, gate, line, word)?;
        words.push_str(answer.as_str())?;
    }
    Ok(words)
}

fn played(alloc: Global, schema: &Schema, late: u64, script: &str) -> Result<String, AllocError> {
    if !clock_fits(schema, "t") {
        return "no clock".to_string(alloc);
    }
    match Gate::new(alloc, schema, "t", late) {
        Ok(mut gate) => answers(alloc, &mut gate, script),
        Err(_) => "memory".to_string(alloc),
    }
}

// The first row that answers otherwise.
fn first_wrong(alloc: Global, schema: &Schema, table: &str) -> Result<String, AllocError> {
    for row in table.split('\n') {
        let Some((late, rest)) = row.split_once('|') else {
            return row.to_string(alloc);
        };
        let Some((script, wanted)) = rest.split_once('|') else {
            return row.to_string(alloc);
        };
        let Ok(late) = late.parse::<u64>() else {
            return row.to_string(alloc);
        };
        let words = played(alloc, schema, late, script)?;
        if words.as_str() != wanted {
            return format!(in alloc; "{script}:{}", words.as_str());
        }
    }
    Ok(String::new(alloc))
}

fn played_wrong(alloc: Global, table: &str) -> Result<String, AllocError> {
    let mut schema = Schema::new(alloc);
    if declare_two(alloc, &mut schema).is_err() {
        return "two types".to_string(alloc);
    }
    first_wrong(alloc, &schema, table)
}

/// The bound, the steps, and what they answer.
const GATES: &str =
    "5|A10 ? B14 ? A9 ? ? B16 ? ? ! ? ? ?| put none put none put 5 none put 1 none end 3 8 none\n\
0|A10 ? A9 # A10 ? A11 ? ?| put 1 9 after 10 0 held put 5 put 7 none\n\
5|A100 A95 A94 ? ? #| put put 94 after 100 2 none 1 held\n\
5|A100 A95 A90 ! ? ? ?| put put 90 after 100 end 2 1 none\n\
5|A100 A96 A95 ? ?| put put put 3 none\n\
5|A100 A1 # A95 ? ?| put 1 after 100 1 held put 4 none\n\
3|A5 B5 A5 A4 ! ? ? ? ? ?| put put put put end 4 1 2 3 none\n\
2|A-5 A-7 A-8 ? ? ! ? ?| put put -8 after -5 2 none end 1 none\n\
9223372036854775807|A9223372036854775807 A0 A-1 ? ? ! ? ?| put put -1 after 9223372036854775807 2 none end 1 none\n\
9223372036854775807|A-9223372036854775808 B-9223372036854775808 ? A-1 ? ? ?| put put none put 1 2 none\n\
18446744073709551615|A9223372036854775807 A-9223372036854775808 ? ? # ! ? ?| put put 2 none 1 held end 1 none\n\
0|B7 ? B7 ? B8 ? A7| put 1 put 3 put 5 7 after 8\n\
5|? # ! ? #| none 0 held end none 0 held";

#[test]
fn events_go_in_their_order(rt: HostRuntime) -> Result<(), Fail> {
    let alloc = rt.alloc();
    let wrong = played_wrong(alloc, GATES)?;
    same(&rt, wrong.as_str(), "", "the first wrong row");
    Ok(())
}

/// Attributes of both types, of one, of none, and of none in this case.
const NAMES: &[&str] = &["t", "v", "x", "T"];

// Adds which of the names is the clock of all types.
fn push_fitting(words: &mut String, schema: &Schema, names: &[&str]) -> Result<(), AllocError> {
    for name in names {
        if clock_fits(schema, name) {
            words.push_str(name)?;
        }
    }
    Ok(())
}

// With no type, the two types, and a third one whose attribute is no whole number.
fn push_fitting_in_turn(
    alloc: Global,
    words: &mut String,
    schema: &mut Schema,
    names: &[&str],
) -> Result<(), OrMemory<SchemaFault>> {
    push_fitting(words, schema, names)?;
    words.push(' ')?;
    declare_two(alloc, schema)?;
    push_fitting(words, schema, names)?;
    words.push(' ')?;
    declare(alloc, schema, "C", &[("t", Kind::Dec(0))])?;
    push_fitting(words, schema, names)?;
    Ok(())
}

#[test]
fn a_clock_is_a_whole_number_of_every_type(rt: HostRuntime) -> Result<(), Fail> {
    let alloc = rt.alloc();
    let mut words = String::new(alloc);
    let done = push_fitting_in_turn(alloc, &mut words, &mut Schema::new(alloc), NAMES);
    same(&rt, words.as_str(), "tvxT t ", "the names");
    assert!(rt; done.is_ok());
    Ok(())
}

// The laws speak of events, and of events with their lines.
fn laws_of_events()
    ensures parts { SortingKeepsParts (ℕ × Event) Event }
    ensures released { ReleasedIsFinal Event }
{
    sorting_keeps_parts::<(u64, Event), Event>();
    released_is_final::<Event>();
}

#[test]
fn laws_are_called(_rt: HostRuntime) -> Result<(), Fail> {
    laws_of_events();
    Ok(())
}
