//! Real files and streams as the program's outside. Each error of std is counted once, and is a
//! fault.
//! None of them tells its bytes, since no contract can say what a disk or a pipe gives or takes.

ghost use Rattle.std.specs.Prelude.{◌≡◌, ◌⊎◌, None};
ghost use Rattle.cer_outside.specs.Content.{Untold};
ghost use Rattle.cer_outside.specs.Causes.{Rose};

use cer_base::seed::Seed;
use cer_outside::calls::one_more;
use cer_outside::{Failed, Host, OpenError, Sink, Source};
use std::alloc::Global;
use std::fs;
use std::io::{Read, Write};
use std::rt::Files;

/// A reader of std, with a count of its errors, which stays at its last value.
#[derive(Drop)]
pub struct CountedReader<R: Drop> {
    reader: R,
    faults: u64,
}

impl<R: Read + Drop> Source for CountedReader<R> {
    ghost left = { λ s. None };

    ghost faults = { λ s. s.faults };

    fn read(&mut self, into: &mut [u8]) -> Result<usize, Failed> {
        match self.reader.read(into) {
            Ok(count) => Ok(count),
            Err(_) => {
                self.faults = one_more(self.faults);
                Err(Failed)
            }
        }
    }

    fn fault_count(&self) -> u64 {
        self.faults
    }
}

/// A writer of std, with a count of its errors, which stays at its last value. A write that took
/// nothing counts as an error.
#[derive(Drop)]
pub struct CountedWriter<W: Drop> {
    writer: W,
    faults: u64,
}

impl<W: Write + Drop> CountedWriter<W> {
    /// A writer with no errors so far.
    pub fn new(writer: W) -> CountedWriter<W> {
        CountedWriter { writer, faults: 0 }
    }
}

impl<W: Write + Drop> Sink for CountedWriter<W> {
    ghost taken = { λ s. None };

    ghost faults = { λ s. s.faults };

    fn write(&mut self, piece: &[u8]) -> Result<usize, Failed> {
        match self.writer.write(piece) {
            Ok(count) if count > 0 => Ok(count),
            _ => {
                self.faults = one_more(self.faults);
                Err(Failed)
            }
        }
    }

    fn fault_count(&self) -> u64 {
        self.faults
    }
}

/// The files of the system, with one count of errors for every name, and a seed for the hashes of
/// tables.
#[derive(Drop)]
pub struct SystemFiles<R: Files + Drop> {
    files: R,
    faults: u64,
    seed: Seed,
}

impl<R: Files + Drop> SystemFiles<R> {
    /// The files, with no errors so far.
    pub fn new(files: R, seed: Seed) -> SystemFiles<R> {
        SystemFiles {
            files,
            faults: 0,
            seed,
        }
    }
}

impl<R: Files + Drop> Host for SystemFiles<R> {
    type Src = CountedReader<R::File>;

    ghost content = { λ h name. Untold };

    ghost faults = { λ h name. h.faults };

    ghost opens = { λ before name after.
        (after.faults ≡ before.faults) ⊎ Rose before.faults after.faults };

    fn take_file(
        &mut self,
        alloc: Global,
        name: &str,
    ) -> Result<CountedReader<R::File>, OpenError> {
        match fs::open(&self.files, name) {
            Ok(reader) => Ok(CountedReader { reader, faults: 0 }),
            Err(_) => {
                self.faults = one_more(self.faults);
                Err(OpenError::Failed)
            }
        }
    }

    fn fault_count(&self, name: &str) -> u64 {
        self.faults
    }

    fn seed(&self) -> Seed {
        self.seed
    }
}
