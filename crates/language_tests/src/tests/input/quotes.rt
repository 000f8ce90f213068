//! All lines of up to `LONGEST` bytes of six: what the event reader answers is what `csv`'s own
//! reader makes of the line.

use crate::tests::input::declare;
use crate::tests::input::events::answer_under;
use cer_base::OrMemory;
use csv::{ByteRecord, Error, ReaderBuilder};
use std::alloc::{AllocError, Global};
use std::process::Abort;
use std::test::Fail;
use stream_schema::{Kind, Schema, SchemaFault};

/// A quote, what parts fields, a byte that a line may have at its end alone, two others, and one that
/// is no text.
const BYTES: [u8; 6] = [b'"', b',', b'\r', b'a', b'1', 255];

/// The most bytes behind the name of a line's type.
const LONGEST: usize = 7;

/// How many lines there are: those of no byte, of one, and so on.
const LINES: usize = 335_923;

// The line of the number, behind a name of one byte and a comma.
fn line_of(alloc: Global, name: u8, number: usize) -> Result<Vec<u8>, AllocError> {
    let mut line = Vec::from_slice(alloc, &[name, b','])?;
    let mut left = number;
    for _ in 0..LONGEST {
        if left == 0 {
            return Ok(line);
        }
        line.push(BYTES[(left - 1) % 6])?;
        left = (left - 1) / 6;
    }
    Ok(line)
}

// The first record that `csv` reads.
fn record_of(alloc: Global, text: &[u8]) -> Result<ByteRecord, Error> {
    let mut reader = ReaderBuilder::new()
        .has_headers(false)
        .from_reader(alloc, text);
    let mut record = ByteRecord::new(alloc);
    reader.read_byte_record(&mut record)?;
    Ok(record)
}

// How many fields `csv` finds, none where it fails.
fn count_of(alloc: Global, text: &[u8]) -> usize {
    match record_of(alloc, text) {
        Ok(record) => record.len(),
        Err(_) => 0,
    }
}

// Whether a text of so many fields ends inside quotes: a comma behind it then begins no field.
fn ends_open(alloc: Global, text: &[u8], count: usize) -> Result<bool, AllocError> {
    let mut longer = Vec::from_slice(alloc, text)?;
    longer.push(b',')?;
    Ok(count_of(alloc, longer.as_slice()) == count)
}

// The words of the event that the record is, or of the first field that is no text.
fn record_words(alloc: Global, record: &ByteRecord) -> Result<String, AllocError> {
    let mut words = format!(in alloc; "{}", record.len().saturating_sub(2))?;
    for i in 1..record.len() {
        match str::from_utf8(record.get(i).unwrap_or(b"")) {
            Ok(text) => words.push_str(format!(in alloc; " {text}")?.as_str())?,
            Err(_) => return format!(in alloc; "field {i} is no STRING"),
        }
    }
    Ok(words)
}

// What is wanted of a line without its carriage return.
fn words_of(alloc: Global, text: &[u8]) -> Result<String, AllocError> {
    match record_of(alloc, text) {
        Ok(record) => {
            if ends_open(alloc, text, record.len())? {
                return "open quote".to_string(alloc);
            }
            record_words(alloc, &record)
        }
        Err(_) => "no record".to_string(alloc),
    }
}

fn without_return(line: &[u8]) -> &[u8] {
    line.strip_suffix(b"\r").unwrap_or(line)
}

// What is wanted of the line.
fn wanted(alloc: Global, line: &[u8]) -> Result<String, AllocError> {
    let text = without_return(line);
    if text.contains(&b'\r') {
        return "carriage return or byte order mark in the line".to_string(alloc);
    }
    words_of(alloc, text)
}

/// A name for each number of fields.
const NAMES: &[&str] = &["A", "B", "C", "D", "E", "F", "G", "H"];

/// As many texts as a line has at most.
const FIELDS: &[(&str, Kind)] = &[
    ("a", Kind::Text),
    ("b", Kind::Text),
    ("c", Kind::Text),
    ("d", Kind::Text),
    ("e", Kind::Text),
    ("f", Kind::Text),
    ("g", Kind::Text),
    ("h", Kind::Text),
];

// The types with one text to eight.
fn text_types(alloc: Global) -> Result<Schema, OrMemory<SchemaFault>> {
    let mut schema = Schema::new(alloc);
    for (i, name) in NAMES.iter().enumerate() {
        declare(alloc, &mut schema, name, FIELDS.get(..=i).unwrap_or(FIELDS))?;
    }
    Ok(schema)
}

// How many texts `csv` finds in the line of the number, one not counted.
fn further_texts(alloc: Global, number: usize) -> Result<usize, AllocError> {
    let line = line_of(alloc, b'A', number)?;
    let count = count_of(alloc, without_return(line.as_slice()));
    Ok(count.saturating_sub(2))
}

fn same_line(rt: &impl Abort, shown: &str, wanted: &str, number: usize) {
    assert_eq!(rt; shown, wanted, "at line {number}");
}

// Holds what is answered of the line against what is wanted.
fn line_is_read(
    rt: &impl Abort,
    alloc: Global,
    schema: &Schema,
    line: &[u8],
    number: usize,
) -> Result<(), AllocError> {
    let words = wanted(alloc, line)?;
    let shown = answer_under(alloc, schema, line)?;
    same_line(rt, shown.as_str(), words.as_str(), number);
    Ok(())
}

// The same of the line of the number, its name that of the type of as many texts.
fn line_of_number_is_read(
    rt: &impl Abort,
    alloc: Global,
    schema: &Schema,
    number: usize,
) -> Result<(), AllocError> {
    let further = further_texts(alloc, number)?;
    let line = line_of(alloc, b'A' + (further % 8) as u8, number)?;
    line_is_read(rt, alloc, schema, line.as_slice(), number)
}

fn all_lines(rt: &impl Abort, alloc: Global, schema: &Schema) -> Result<(), AllocError> {
    for number in 0..LINES {
        line_of_number_is_read(rt, alloc, schema, number)?;
    }
    Ok(())
}

#[test]
fn lines_of_few_bytes_are_those_of_csv(rt: HostRuntime) -> Result<(), Fail> {
    let alloc = rt.alloc();
    let Ok(schema) = text_types(alloc) else {
        return Err(Fail::new("types with texts"));
    };
    all_lines(&rt, alloc, &schema)?;
    Ok(())
}
