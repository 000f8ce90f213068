use crate::tests::input::declare;
use crate::tests::input::events::{event_words, five_types, push_values};
use crate::tests::same;
use cer_base::OrMemory;
use event_reader::EventBuffer;
use std::alloc::{AllocError, Global};
use std::test::Fail;
use stream_schema::{Event, Kind, Schema, SchemaFault};

/// Three whole numbers.
const THREE: &[(&str, Kind)] = &[("v", Kind::Int), ("w", Kind::Int), ("x", Kind::Int)];

/// An attribute of each kind.
const EACH: &[(&str, Kind)] = &[
    ("v", Kind::Int),
    ("w", Kind::Text),
    ("x", Kind::Flag),
    ("y", Kind::Dec(2)),
];

// The five types, and two of more attributes: `P` of three whole numbers, `M` of each kind.
fn seven_types(alloc: Global) -> Result<Schema, OrMemory<SchemaFault>> {
    let mut schema = five_types(alloc)?;
    declare(alloc, &mut schema, "P", THREE)?;
    declare(alloc, &mut schema, "M", EACH)?;
    Ok(schema)
}

// What reading the line into the row answers, and the event that the row then holds.
fn words_of(
    alloc: Global,
    schema: &Schema,
    line: &[u8],
    row: &mut EventBuffer,
) -> Result<String, AllocError> {
    if line.contains(&b'\n') {
        return "line feed".to_string(alloc);
    }
    match row.read(alloc, schema, line) {
        Ok(true) => event_words(alloc, row.event()),
        Ok(false) => before_values(alloc, "none".to_string(alloc)?, row.event()),
        Err(OrMemory::Fault(fault)) => {
            before_values(alloc, format!(in alloc; "{fault}")?, row.event())
        }
        Err(OrMemory::Memory) => "memory".to_string(alloc),
    }
}

// The word, and the values that the event holds.
fn before_values(alloc: Global, word: String, event: &Event) -> Result<String, AllocError> {
    let mut words = word;
    push_values(alloc, &mut words, event)?;
    Ok(words)
}

// The first line of the table of which something else is read than what stands after it. One row
// reads all of them.
fn first_wrong(
    alloc: Global,
    schema: &Schema,
    row: &mut EventBuffer,
    table: &str,
) -> Result<String, AllocError> {
    for entry in table.split('\n') {
        let Some((line, wanted)) = entry.split_once('|') else {
            return entry.to_string(alloc);
        };
        let words = words_of(alloc, schema, line.as_bytes(), row)?;
        if words.as_str() != wanted {
            return format!(in alloc; "{line}: {}", words.as_str());
        }
    }
    Ok(String::new(alloc))
}

fn read_wrong(alloc: Global, table: &str) -> Result<String, AllocError> {
    let Ok(schema) = seven_types(alloc) else {
        return "seven types".to_string(alloc);
    };
    let mut row = EventBuffer::new(alloc);
    first_wrong(alloc, &schema, &mut row, table)
}

/// Each line, and what is read of it by one row in turn: the row holds the last line alone.
const ONE_ROW: &str = "A,1|0 1\n\
A,x|field 1 is no INT\n\
N,abc|1 abc\n\
|none\n\
P,1,-2,+3|5 1 -2 3\n\
A,7|0 7\n\
N,b|1 b\n\
P,4,5,6|5 4 5 6\n\
P,1,2|2 fields where 3 is wanted\n\
P,1,2,3,4|4 fields where 3 is wanted\n\
P,1,2,3,|4 fields where 3 is wanted\n\
P,1,,3|field 2 is no INT\n\
P|0 fields where 3 is wanted\n\
M,-1,x y,tRUE,-1.5\r|6 -1 x y true -150/2\n\
M,-1,x,true,1.505|field 4 is no DECIMAL(2)\n\
M,1,,false,0|6 1  false 0/2\n\
M,1,\"a,b\",false,0|6 1 a,b false 0/2\n\
M,1,\"a,b,false,0|open quote\n\
\"A\",2|0 2\n\
A,\"2\"|0 2\n\
A,2\"|field 1 is no INT\n\
A,3\r\r|carriage return or byte order mark in the line\n\
A\r,3|carriage return or byte order mark in the line\n\
\u{feff}A,3|carriage return or byte order mark in the line\n\
\r|none\n\
N,\u{e9}|1 \u{e9}\n\
\u{e9},1|unknown type\n\
,1|unknown type\n\
,|unknown type\n\
A,3|0 3";

/// The same of whole numbers of any length.
const WHOLE_NUMBERS: &str = "A,-0|0 0\n\
A,+0|0 0\n\
A,000|0 0\n\
A,99999999999999999|0 99999999999999999\n\
A,100000000000000000|0 100000000000000000\n\
A,999999999999999999|0 999999999999999999\n\
A,-999999999999999999|0 -999999999999999999\n\
A,1000000000000000000|0 1000000000000000000\n\
A,9223372036854775807|0 9223372036854775807\n\
A,9223372036854775808|field 1 is no INT\n\
A,-9223372036854775808|0 -9223372036854775808\n\
A,-9223372036854775809|field 1 is no INT\n\
A,18446744073709551617|field 1 is no INT\n\
A,00000000000000000000000012|0 12\n\
A,|field 1 is no INT\n\
A,+|field 1 is no INT\n\
A,-|field 1 is no INT\n\
A,--1|field 1 is no INT\n\
A,1-|field 1 is no INT\n\
A,1 |field 1 is no INT\n\
A, 1|field 1 is no INT\n\
A,1.0|field 1 is no INT\n\
A,/|field 1 is no INT\n\
A,:|field 1 is no INT";

/// Lines with a text, of bytes below 128 and others, and what is read of each.
const TEXTS: &[(&[u8], &str)] = &[
    (b"N,abc", "1 abc"),
    (b"N,a b-c~", "1 a b-c~"),
    (b"N,\x7f", "1 \u{7f}"),
    (b"N,caf\xc3\xa9", "1 caf\u{e9}"),
    (b"N,\xe2\x82\xac 5", "1 \u{20ac} 5"),
    (b"N,abc", "1 abc"),
    (b"N,ab\x80", "field 1 is no STRING"),
    (b"N,ab\xff", "field 1 is no STRING"),
    (b"N,ab\xc3", "field 1 is no STRING"),
    (b"N,\xe2\x82 5", "field 1 is no STRING"),
    (b"M,1,ab,true,0", "6 1 ab true 0/2"),
    (b"M,1,\xc3\xbcb,true,0", "6 1 \u{fc}b true 0/2"),
    (b"M,1,a\xffb,true,0", "field 2 is no STRING"),
    (b"M,1,ab\xc3,true,0", "field 2 is no STRING"),
    (b"M,1,,true,0", "6 1  true 0/2"),
];

// What the first line gives that is read as something else than what stands beside it.
fn first_wrong_text(
    alloc: Global,
    schema: &Schema,
    row: &mut EventBuffer,
    table: &[(&[u8], &str)],
) -> Result<String, AllocError> {
    for &(line, wanted) in table {
        let words = words_of(alloc, schema, line, row)?;
        if words.as_str() != wanted {
            return format!(in alloc; "{} for {wanted}", words.as_str());
        }
    }
    Ok(String::new(alloc))
}

fn texts_wrong(alloc: Global, table: &[(&[u8], &str)]) -> Result<String, AllocError> {
    let Ok(schema) = seven_types(alloc) else {
        return "seven types".to_string(alloc);
    };
    let mut row = EventBuffer::new(alloc);
    first_wrong_text(alloc, &schema, &mut row, table)
}

/// The two tables.
const TABLES: &[&str] = &[ONE_ROW, WHOLE_NUMBERS];

#[test]
fn one_row_holds_the_last_line_alone(rt: HostRuntime) -> Result<(), Fail> {
    let alloc = rt.alloc();
    for &table in TABLES {
        let wrong = read_wrong(alloc, table)?;
        same(&rt, wrong.as_str(), "", "the first wrong row");
    }
    let wrong = texts_wrong(alloc, TEXTS)?;
    same(&rt, wrong.as_str(), "", "the first wrong text");
    Ok(())
}
