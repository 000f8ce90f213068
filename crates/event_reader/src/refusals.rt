//! Why a line gives no event.

ghost use Rattle.std.specs.Prelude.{◌≡◌, ◌<◌, [], false, length};
ghost use Rattle.event_reader.specs.Fields.{fields, ends_open};
ghost use Rattle.event_reader.specs.Lines.{has_line_feed};
ghost use Rattle.event_reader.specs.Events.{is_bad, event_of_record, values_from};
ghost use Rattle.event_reader.specs.QuotedLines.{cells_after};
ghost use Rattle.event_reader.specs.LineAnswers.{IsRefusal};

use crate::EventFault;
use crate::fields::{count_values, unescape};
use crate::values::read_value;
use cer_base::OrMemory;
use std::alloc::Global;
use stream_schema::{Kind, Schema};

/// The first refusal of a line that gives no event, or that memory ran out, as is answered where the
/// line gives one.
#[cold]
#[inline(never)]
#[tactic(auto, using(crate::proofs::RefusedLines::open_line))]
pub fn refusal(
    alloc: Global,
    schema: &Schema,
    scratch: &mut Vec<u8>,
    line: &[u8],
) -> OrMemory<EventFault>
    requires some { 0 < length line.now }
    requires fine { is_bad line.now ≡ false }
    requires line_feed { has_line_feed line.now ≡ false }
    ensures { IsRefusal result (event_of_record schema.now (ends_open line.now) (fields line.now)) }
{
    let Some(count) = count_values(line) else {
        return OrMemory::Fault(EventFault::OpenQuote);
    };
    let Some(end) = unescape(line, scratch) else {
        return OrMemory::Memory;
    };
    let Some(ty) = schema.type_of_bytes(scratch.as_slice()) else {
        return OrMemory::Fault(EventFault::UnknownType);
    };
    let kinds = schema.kinds(ty).as_slice();
    if count != kinds.len() {
        return OrMemory::Fault(EventFault::FieldCount {
            want: kinds.len() as u64,
            got: count as u64,
        });
    }
    bad_value(alloc, kinds, scratch, &line[end..])
}

/// The first of the fields that is not of its kind, or that memory ran out, as is answered where
/// there is none.
fn bad_value(
    alloc: Global,
    kinds: &[Kind],
    scratch: &mut Vec<u8>,
    fields: &[u8],
) -> OrMemory<EventFault>
    ensures { IsRefusal result (values_from 1 [] kinds.now (cells_after fields.now)) }
{
    let mut rest = fields;
    for (i, kind) in kinds.iter().enumerate() {
        let Some((_, text)) = rest.split_first() else {
            return OrMemory::Memory;
        };
        let Some(end) = unescape(text, scratch) else {
            return OrMemory::Memory;
        };
        match read_value(alloc, *kind, scratch.as_slice()) {
            Ok(Some(_)) => {}
            Ok(None) => {
                return OrMemory::Fault(EventFault::BadValue {
                    field: i as u64 + 1,
                    kind: *kind,
                });
            }
            Err(_) => return OrMemory::Memory,
        }
        rest = &text[end..];
    }
    OrMemory::Memory
}
