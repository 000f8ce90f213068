//! The lines of a script, and the commands that they are.

use crate::tests::same;
use cer_base::{Listed, OrMemory, Text};
use command_session::{CommandFault, ScriptCommand, command_text, read_command};
use std::alloc::{AllocError, Global};
use std::test::Fail;
use stream_schema::{Attr, Kind, Schema, SchemaFault};

// The type A(v INT).
fn one_type(alloc: Global) -> Result<Schema, OrMemory<SchemaFault>> {
    let mut schema = Schema::new(alloc);
    let mut attrs = Vec::new(alloc);
    attrs.push(Attr {
        name: Text::copy_of(alloc, "v")?,
        kind: Kind::Int,
    })?;
    schema.declare_event("A", &Listed::of(attrs))?;
    Ok(schema)
}

fn command_words(alloc: Global, command: &ScriptCommand) -> Result<String, AllocError> {
    match command {
        ScriptCommand::Event(event) => {
            format!(in alloc;
                "event of {} with {}",
                event.ty,
                event.values.as_slice().len()
            )
        }
        ScriptCommand::OpenAt { query, cursor } => format!(in alloc; "{cursor} on {query}"),
        ScriptCommand::Pull { cursor, n } => format!(in alloc; "{n} from {cursor}"),
        ScriptCommand::Drop { cursor } => format!(in alloc; "without {cursor}"),
        ScriptCommand::Compact => "less".to_string(alloc),
    }
}

fn fault_words(alloc: Global, fault: CommandFault) -> Result<String, AllocError> {
    match fault {
        CommandFault::UnknownCommand => "none".to_string(alloc),
        CommandFault::Event(fault) => format!(in alloc; "{fault}"),
    }
}

// What reading the text answers.
fn words_of(alloc: Global, schema: &Schema, text: &[u8]) -> Result<String, AllocError> {
    if text.contains(&b'\n') {
        return "line feed".to_string(alloc);
    }
    match read_command(alloc, schema, text) {
        Ok(command) => command_words(alloc, &command),
        Err(OrMemory::Fault(fault)) => fault_words(alloc, fault),
        Err(OrMemory::Memory) => "memory".to_string(alloc),
    }
}

// The first line of the table of which something else is read than what stands after it.
fn first_wrong(alloc: Global, schema: &Schema, table: &str) -> Result<String, AllocError> {
    for entry in table.split('\n') {
        let Some((line, wanted)) = entry.split_once('|') else {
            return entry.to_string(alloc);
        };
        let words = words_of(alloc, schema, command_text(line.as_bytes()))?;
        if words.as_str() != wanted {
            return format!(in alloc; "{line}: {}", words.as_str());
        }
    }
    Ok(String::new(alloc))
}

fn read_wrong(alloc: Global, table: &str) -> Result<String, AllocError> {
    match one_type(alloc) {
        Ok(schema) => first_wrong(alloc, &schema, table),
        Err(_) => "one type".to_string(alloc),
    }
}

/// Each line of a script, and what is read of it.
const COMMANDS: &str = "event A,1|event of 0 with 1\n\
event A,1\r|event of 0 with 1\n\
event A,1\r\r|event of 0 with 1\n\
event A,1\r\r\r|carriage return or byte order mark in the line\n\
event A,x|field 1 is no INT\n\
event A,1,2|2 fields where 1 is wanted\n\
event B,1|unknown type\n\
event  A,1|unknown type\n\
event \"A,1|open quote\n\
event |none\n\
event \r|none\n\
event \r\r|none\n\
event|none\n\
Event A,1|none\n\
\u{20}event A,1|none\n\
open 1 1|1 on 1\n\
open 1 1\r|1 on 1\n\
open 1 1\r\r|none\n\
open 0 64|64 on 0\n\
open 0000000001 0000000064|64 on 1\n\
open 9999999999 1|1 on 9999999999\n\
open 00000000001 1|none\n\
open 1 00000000001|none\n\
open 1 65|none\n\
open 1 0|none\n\
open 1  1|none\n\
open  1 1|none\n\
open 1 1 |none\n\
open 1 |none\n\
open  1|none\n\
open 1|none\n\
open|none\n\
open -1 1|none\n\
open 1 +1|none\n\
open 1 1x|none\n\
pull 1 1|1 from 1\n\
pull 64 4294967295|4294967295 from 64\n\
pull 64 4294967296|none\n\
pull 65 1|none\n\
pull 0 1|none\n\
pull 1 0|none\n\
pull 1|none\n\
drop 1|without 1\n\
drop 064|without 64\n\
drop 65|none\n\
drop 0|none\n\
drop 1 |none\n\
drop |none\n\
drop|none\n\
compact|less\n\
compact\r|less\n\
compact\r\r|none\n\
compact |none\n\
compact 1|none\n\
compacts|none\n\
COMPACT|none\n\
|none";

#[test]
fn lines_are_their_commands(rt: HostRuntime) -> Result<(), Fail> {
    let alloc = rt.alloc();
    let wrong = read_wrong(alloc, COMMANDS)?;
    same(&rt, wrong.as_str(), "", "the first wrong line");
    Ok(())
}
