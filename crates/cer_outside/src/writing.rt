//! Writing all of a text's bytes to a sink.

ghost use Rattle.std.specs.Prelude.{◌≡◌, [], OnOk, OnErr, IsOk};
ghost use Rattle.cer_outside.specs.Causes.{HasCause};
ghost use Rattle.cer_outside.specs.Bytes.{TookAll, TookPart};

use crate::{Failed, Sink, WriteFault};

/// Writes all of the bytes, in order, in as many calls as the sink needs.
///
/// After an error the sink has taken a proper first part of the bytes, and its count of faults rose
/// by one. With no bytes the sink is not asked, and the answer is `Ok`.
pub fn put_all<K: Sink>(sink: &mut K, bytes: &[u8]) -> Result<(), WriteFault>
    ensures all { OnOk result (TookAll (K.taken sink.old) (K.taken sink.new) bytes.now) }
    ensures part { OnErr result (TookPart (K.taken sink.old) (K.taken sink.new) bytes.now) }
    ensures cause { HasCause (K.faults sink.old) (K.faults sink.new) result }
    ensures unasked { bytes.now ≡ [] → sink.new ≡ sink.old }
    ensures none_succeeds { bytes.now ≡ [] → IsOk result }
{
    let mut done = 0;
    while done < bytes.len() {
        match sink.write(&bytes[done..]) {
            Ok(count) => done += count,
            Err(Failed) => return Err(WriteFault),
        }
    }
    Ok(())
}
