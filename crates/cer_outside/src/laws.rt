//! What follows of the objects that never fail, as contracts of small functions.

ghost use Rattle.std.specs.Prelude.{◌≡◌, ◌<◌, length, IsOk, IsSome, IfErr, IfOk, Some};
ghost use Rattle.cer_outside.specs.declared.OpenError.TheVariants as wanted;
ghost use Rattle.cer_outside.specs.Bytes.{Reads};
ghost use Rattle.cer_outside.specs.Content.{HasOpened};
ghost use Rattle.cer_outside.specs.Files.{file_under, content_under};

use crate::hosts::SureHost;
use crate::sources::SureSource;
use crate::{Failed, Host, OpenError, Source};
use std::alloc::Global;

/// A read of a source that never fails, which follows from the source's own contract.
pub fn read_sure(source: &mut SureSource, into: &mut [u8]) -> Result<usize, Failed>
    requires { 0 < length into.old }
    ensures succeeds { IsOk result }
    ensures bytes { Reads (Some source.old.left) (Some source.new.left) into.new result }
{
    source.read(into)
}

/// Takes a file that the host has: it answers no error but `OpenError::Memory`, which follows from
/// the host's own contract.
pub fn take_known(host: &mut SureHost, alloc: Global, name: &str) -> Result<SureSource, OpenError>
    requires { IsSome (file_under host.old.files name.now) }
    ensures memory { IfErr result (λ e. e ≡ wanted.Memory) }
    ensures bytes { IfOk result (λ s.
        HasOpened (content_under host.old.files name.now) (Some s.left)) }
{
    host.take_file(alloc, name)
}
