use crate::tests::input::declare;
use crate::tests::same;
use cer_base::OrMemory;
use event_reader::read_event;
use std::alloc::{AllocError, Global};
use std::test::Fail;
use stream_schema::{Event, Kind, Schema, SchemaFault, Value};

pub fn five_types(alloc: Global) -> Result<Schema, OrMemory<SchemaFault>> {
    let mut schema = Schema::new(alloc);
    declare(alloc, &mut schema, "A", &[("v", Kind::Int)])?;
    declare(alloc, &mut schema, "N", &[("v", Kind::Text)])?;
    declare(alloc, &mut schema, "F", &[("v", Kind::Flag)])?;
    declare(alloc, &mut schema, "D", &[("v", Kind::Dec(2))])?;
    declare(alloc, &mut schema, "Z", &[("v", Kind::Dec(0))])?;
    Ok(schema)
}

// What a line of the five types answers: the type's number and the values, or the words of the fault.
pub fn answer(alloc: Global, line: &[u8]) -> Result<String, AllocError> {
    match five_types(alloc) {
        Ok(schema) => answer_under(alloc, &schema, line),
        Err(_) => "five types".to_string(alloc),
    }
}

pub fn answer_under(alloc: Global, schema: &Schema, line: &[u8]) -> Result<String, AllocError> {
    if line.contains(&b'\n') {
        return "line feed".to_string(alloc);
    }
    match read_event(alloc, schema, line) {
        Ok(Some(event)) => event_words(alloc, &event),
        Ok(None) => "none".to_string(alloc),
        Err(OrMemory::Fault(fault)) => format!(in alloc; "{fault}"),
        Err(OrMemory::Memory) => "memory".to_string(alloc),
    }
}

// The type's number, and the values, each after a blank.
pub fn event_words(alloc: Global, event: &Event) -> Result<String, AllocError> {
    let mut words = format!(in alloc; "{}", event.ty)?;
    push_values(alloc, &mut words, event)?;
    Ok(words)
}

pub fn push_values(alloc: Global, words: &mut String, event: &Event) -> Result<(), AllocError> {
    for value in event.values.as_slice() {
        let word = value_words(alloc, value)?;
        words.push_str(word.as_str())?;
    }
    Ok(())
}

fn value_words(alloc: Global, value: &Value) -> Result<String, AllocError> {
    match value {
        Value::Int(number) => format!(in alloc; " {number}"),
        Value::Text(text) => format!(in alloc; " {}", text.as_str()),
        Value::Flag(truth) => format!(in alloc; " {truth}"),
        Value::Dec { scaled, places } => format!(in alloc; " {scaled}/{places}"),
    }
}

/// Lines, and the event that each is, by the number of its type and its values, or its refusal.
const LINES: &[(&str, &str)] = &[
    ("", "none"),
    ("\r", "none"),
    ("\r\r", "carriage return or byte order mark in the line"),
    ("A,1\r", "0 1"),
    ("A,1\r\r", "carriage return or byte order mark in the line"),
    (
        "\u{feff}A,1",
        "carriage return or byte order mark in the line",
    ),
    ("\rC,\"", "carriage return or byte order mark in the line"),
    ("C,\"", "open quote"),
    ("C,1,2", "unknown type"),
    ("A,x,2", "2 fields where 1 is wanted"),
    ("A,\"1", "open quote"),
    ("\"A\",1", "0 1"),
    ("A,x", "field 1 is no INT"),
    ("A,+1", "0 1"),
    ("A,-0", "0 0"),
    ("A,9223372036854775807", "0 9223372036854775807"),
    ("A,9223372036854775808", "field 1 is no INT"),
    ("A,-9223372036854775808", "0 -9223372036854775808"),
    ("A,18446744073709551617", "field 1 is no INT"),
    ("A,1.0", "field 1 is no INT"),
    ("A,+-1", "field 1 is no INT"),
    ("F,TRUE", "2 true"),
    ("F,fAlse", "2 false"),
    ("F,tru", "field 1 is no BOOL"),
    ("D,1", "3 100/2"),
    ("D,1.5", "3 150/2"),
    ("D,-1.49", "3 -149/2"),
    ("D,1.505", "field 1 is no DECIMAL(2)"),
    ("D,1.", "field 1 is no DECIMAL(2)"),
    ("D,.5", "field 1 is no DECIMAL(2)"),
    ("D,92233720368547758.08", "field 1 is no DECIMAL(2)"),
    ("Z,7", "4 7/0"),
    ("Z,7.0", "field 1 is no DECIMAL(0)"),
    ("N", "0 fields where 1 is wanted"),
    ("N,", "1 "),
    ("N,\"", "open quote"),
    ("N,\"a", "open quote"),
    ("N,\"a,", "open quote"),
    ("N,\"a,\"", "1 a,"),
    ("N,\"a,\"\"", "open quote"),
    ("N,\"a,\"\"b", "open quote"),
    ("N,\"a,\"\"b\"\r", "1 a,\"b"),
    ("N,\"a\"\"b\"c", "1 a\"bc"),
    ("N,a\"b", "1 a\"b"),
];

/// A field that is no text.
const NO_UTF8: &[u8] = b"N,\xff";

#[test]
fn lines_become_events_or_refusals(rt: HostRuntime) -> Result<(), Fail> {
    let alloc = rt.alloc();
    for &(line, wanted) in LINES {
        let words = answer(alloc, line.as_bytes())?;
        same(&rt, words.as_str(), wanted, line);
    }
    let words = answer(alloc, NO_UTF8)?;
    same(&rt, words.as_str(), "field 1 is no STRING", "of no text");
    Ok(())
}
