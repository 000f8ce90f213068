//! Files in memory.

ghost use Rattle.std.specs.Prelude.{◌≡◌, ◌<◌, [], IfOk};
ghost use Rattle.std.specs.List.{position};
ghost use Rattle.cer_outside.specs.Causes.{one_more};
ghost use Rattle.cer_outside.specs.States.{FileState};
ghost use Rattle.cer_outside.specs.Files.{is_named};
ghost use Rattle.cer_outside.specs.Calls.{source_of};

use crate::calls::one_more;
use crate::sources::{MemSource, SureSource};
use cer_base::{Memory, Text};
use std::alloc::Global;
use std::marker::Model;

/// A file in memory, of which chosen reads fail.
#[derive(Drop)]
pub struct MemFile {
    name: Text,
    bytes: Vec<u8>,
    piece: usize,
    fails: Vec<u64>,
    faults: u64,
}

impl Model for MemFile {
    ghost Value = { FileState };

    ghost view = { λ f. record {
      name = f.name;
      bytes = f.bytes.items;
      piece = f.piece;
      fails = f.fails.items;
      faults = f.faults;
    } };

    ghost invariant = { λ f. 0 < f.piece };
}

impl MemFile {
    /// The file of this name with these bytes, of which one read moves at most `piece`, at least 1.
    /// `fails` lists the numbers of the reads that fail, from 1, of each source that is opened.
    pub fn new(name: Text, bytes: Vec<u8>, piece: usize, fails: Vec<u64>) -> MemFile
        requires { 0 < piece }
        ensures { result ≡ record {
          name = name;
          bytes = bytes.items;
          piece = piece;
          fails = fails.items;
          faults = 0;
        } }
    {
        MemFile {
            name,
            bytes,
            piece,
            fails,
            faults: 0,
        }
    }

    /// A source over a copy of the bytes.
    pub(crate) fn open(&self, alloc: Global) -> Result<MemSource, Memory>
        ensures { IfOk result (λ source. source ≡ source_of self.now) }
    {
        let bytes = Vec::from_slice(alloc, self.bytes.as_slice())?;
        let fails = Vec::from_slice(alloc, self.fails.as_slice())?;
        Ok(MemSource::new(bytes, self.piece, fails))
    }

    /// How often opening it failed; the counter stays at its last value.
    pub(crate) fn faults(&self) -> u64
        ensures { result ≡ self.now.faults }
    {
        self.faults
    }

    /// Counts one more fault.
    pub(crate) fn count_fault(&mut self)
        ensures { self.new ≡ record self.old { faults = one_more self.old.faults } }
    {
        self.faults = one_more(self.faults);
    }

    /// Counts from 0 again.
    pub(crate) fn forget_faults(&mut self)
        ensures { self.new ≡ record self.old { faults = 0 } }
    {
        self.faults = 0;
    }
}

/// The place of the first file of this name.
pub(crate) fn place_of(files: &[MemFile], name: &str) -> Option<usize>
    ensures { result ≡ position (is_named name.now) files.now }
{
    files.iter().position(|file| file.name.as_str() == name)
}

/// A file in memory, of which no read fails.
#[derive(Drop)]
pub struct SureFile {
    name: Text,
    bytes: Vec<u8>,
    piece: usize,
}

impl Model for SureFile {
    ghost Value = { FileState };

    ghost view = { λ f. record {
      name = f.name;
      bytes = f.bytes.items;
      piece = f.piece;
      fails = [];
      faults = 0;
    } };

    ghost invariant = { λ f. 0 < f.piece };
}

impl SureFile {
    /// The file of this name with these bytes, of which one read moves at most `piece`, at least 1.
    pub fn new(name: Text, bytes: Vec<u8>, piece: usize) -> SureFile
        requires { 0 < piece }
        ensures { result ≡ record {
          name = name;
          bytes = bytes.items;
          piece = piece;
          fails = [];
          faults = 0;
        } }
    {
        SureFile { name, bytes, piece }
    }

    /// A source over a copy of the bytes.
    pub(crate) fn open(&self, alloc: Global) -> Result<SureSource, Memory>
        ensures { IfOk result (λ s. s ≡ record { left = self.now.bytes; piece = self.now.piece }) }
    {
        let bytes = Vec::from_slice(alloc, self.bytes.as_slice())?;
        Ok(SureSource::new(bytes, self.piece))
    }
}

/// The place of the first file of this name.
pub(crate) fn sure_place_of(files: &[SureFile], name: &str) -> Option<usize>
    ensures { result ≡ position (is_named name.now) files.now }
{
    files.iter().position(|file| file.name.as_str() == name)
}
