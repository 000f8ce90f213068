//! Hosts in memory: one whose opens and files fail as chosen, and one that never fails at a name
//! that it has.

ghost use Rattle.std.specs.Prelude.{◌≡◌, ◌↔◌, ℕ, List, map, Err, None, Some, IfOk, IfSome};
ghost use Rattle.cer_outside.specs.declared.OpenError.TheVariants as wanted;
ghost use Rattle.cer_outside.specs.Causes.{HasOpenCause};
ghost use Rattle.cer_outside.specs.Content.{HasOpened};
ghost use Rattle.cer_outside.specs.States.{FileState, HostState, SureHostState};
ghost use Rattle.cer_outside.specs.Files.{file_under, content_under, faults_under, sure_faults_under, with_fault, sure_with_fault};
ghost use Rattle.cer_outside.specs.Calls.{after_call, source_of, OpenFails, host_after};

use crate::calls::{Calls, one_more};
use crate::files::{MemFile, SureFile, place_of, sure_place_of};
use crate::sources::{MemSource, SureSource};
use crate::{Host, OpenError, Source};
use std::alloc::Global;
use std::marker::Model;

/// A host of files in memory, of which chosen opens fail. It tells its bytes. It counts the faults
/// of each file that it has, and together those of all other names.
#[derive(Drop)]
pub struct MemHost {
    files: Vec<MemFile>,
    others: u64,
    calls: Calls,
}

impl Model for MemHost {
    ghost Value = { HostState };

    ghost view = { λ h. record { files = h.files.items; others = h.others; calls = h.calls } };
}

impl MemHost {
    /// The first file of a name counts. `fails` lists the numbers of the opens that fail, from 1,
    /// whatever their name. No fault is counted yet.
    pub fn new(mut files: Vec<MemFile>, fails: Vec<u64>) -> MemHost
        ensures { result ≡ record {
          files = map (λ (file : FileState). record file { faults = 0 }) files.items;
          others = 0;
          calls = record { fails = fails.items; made = 0 };
        } }
    {
        for file in files.iter_mut() {
            file.forget_faults();
        }
        MemHost {
            files,
            others: 0,
            calls: Calls::new(fails),
        }
    }

    fn count_fault(&mut self, name: &str)
        ensures { self.new ≡ with_fault name.now self.old }
    {
        match place_of(self.files.as_slice(), name) {
            Some(index) => self.files[index].count_fault(),
            None => self.others = one_more(self.others),
        }
    }
}

impl Host for MemHost {
    type Src = MemSource;

    ghost content = { λ h. content_under h.files };

    ghost faults = { λ h. faults_under h.files h.others };

    ghost opens = { λ before name after. after.calls ≡ after_call before.calls };

    /// Exactly the chosen calls fail, and those for a name that it lacks.
    fn take_file(&mut self, alloc: Global, name: &str) -> Result<MemSource, OpenError>
        ensures fresh { IfOk result (λ source. source.faults ≡ 0) }
        ensures bytes { IfOk result (λ s.
            HasOpened (content_under self.old.files name.now) (Some s.left)) }
        ensures kept { (any : List ℕ) →
            content_under self.new.files any ≡ content_under self.old.files any }
        ensures cause { HasOpenCause name.now (faults_under self.old.files self.old.others)
            (faults_under self.new.files self.new.others) result }
        ensures opened { self.new.calls ≡ after_call self.old.calls }
        ensures fails { result ≡ Err OpenError.Failed ↔ OpenFails self.old name.now }
        ensures source { IfOk result (λ source. IfSome (file_under self.old.files name.now)
            (λ file. source ≡ source_of file)) }
        ensures after { self.new ≡ host_after self.old name.now result }
    {
        let fails = self.calls.next_fails();
        match place_of(self.files.as_slice(), name) {
            Some(index) if !fails => Ok(self.files[index].open(alloc)?),
            _ => {
                self.count_fault(name);
                Err(OpenError::Failed)
            }
        }
    }

    fn fault_count(&self, name: &str) -> u64 {
        match place_of(self.files.as_slice(), name) {
            Some(index) => self.files[index].faults(),
            None => self.others,
        }
    }
}

/// A host of files in memory that fails for no name that it has. It tells its bytes. It counts
/// together the faults of all other names.
#[derive(Drop)]
pub struct SureHost {
    files: Vec<SureFile>,
    others: u64,
}

impl Model for SureHost {
    ghost Value = { SureHostState };

    ghost view = { λ h. record { files = h.files.items; others = h.others } };
}

impl SureHost {
    /// The first file of a name counts.
    pub fn new(files: Vec<SureFile>) -> SureHost
        ensures { result ≡ record { files = files.items; others = 0 } }
    {
        SureHost { files, others: 0 }
    }
}

impl Host for SureHost {
    type Src = SureSource;

    ghost content = { λ h. content_under h.files };

    ghost faults = { λ h. sure_faults_under h.files h.others };

    ghost opens = { λ before name after. after ≡ sure_with_fault name before };

    /// Exactly the calls for a name that it lacks fail.
    fn take_file(&mut self, alloc: Global, name: &str) -> Result<SureSource, OpenError>
        ensures fresh { IfOk result (λ s. ⟦<SureSource as Source>⟧.faults s ≡ 0) }
        ensures bytes { IfOk result (λ s.
            HasOpened (content_under self.old.files name.now) (Some s.left)) }
        ensures kept { (any : List ℕ) →
            content_under self.new.files any ≡ content_under self.old.files any }
        ensures cause { HasOpenCause name.now (sure_faults_under self.old.files self.old.others)
            (sure_faults_under self.new.files self.new.others) result }
        ensures opened { self.new ≡ sure_with_fault name.now self.old }
        ensures fails { result ≡ Err OpenError.Failed
            ↔ (file_under self.old.files name.now ≡ None) }
        ensures source { IfOk result (λ source. IfSome (file_under self.old.files name.now)
            (λ file. source ≡ record { left = file.bytes; piece = file.piece })) }
    {
        match sure_place_of(self.files.as_slice(), name) {
            Some(index) => Ok(self.files[index].open(alloc)?),
            None => {
                self.others = one_more(self.others);
                Err(OpenError::Failed)
            }
        }
    }

    fn fault_count(&self, name: &str) -> u64 {
        match sure_place_of(self.files.as_slice(), name) {
            Some(_) => 0,
            None => self.others,
        }
    }
}
