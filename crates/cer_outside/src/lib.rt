//! The outside: where bytes come from, where they go, and who has files, each with a count of its
//! faults and, where it tells them, its bytes.
//!
//! Promised: the count of the object that was asked rises by one where a call failed, and stays
//! where it went well; and a call says which bytes moved. So a program's "cannot read" has a cause
//! that the outside gave.
//! It stands on `cer_base`.
#![tactic(auto)]

ghost use Rattle.std.specs.Prelude.{◌≡◌, ℕ, List, ◌<◌, ◌≤◌, length, Option, IfOk};
ghost use Rattle.cer_outside.specs.declared.OpenError.TheVariants as wanted;
ghost use Rattle.cer_outside.specs.Causes.{HasCause, HasOpenCause};
ghost use Rattle.cer_outside.specs.Content.{Content, HasOpened};
ghost use Rattle.cer_outside.specs.Bytes.{Reads, Takes};

use cer_base::Memory;
use cer_base::seed::Seed;
use std::alloc::Global;

pub mod calls;
pub mod files;
pub mod hosts;
pub mod laws;
mod portions;
pub mod sinks;
pub mod sources;
pub mod writing;

/// The call failed, and the object's count of faults rose by one.
#[derive(Clone, Copy, Debug, PartialEq, Eq)]
pub struct Failed;

/// Why a file was not opened.
#[derive(Clone, Copy, Debug, PartialEq, Eq)]
pub enum OpenError {
    /// The host could not open it, and its count of faults for that name rose by one.
    Failed,
    /// Memory ran out.
    Memory,
}

impl From<Memory> for OpenError {
    ghost from_gives = { λ _ e. e ≡ wanted.Memory };

    fn from(_refused: Memory) -> OpenError {
        OpenError::Memory
    }
}

/// Where bytes come from.
pub trait Source {
    /// The bytes that are left, where the source tells them.
    ghost left: { Self → Option (List ℕ) };

    /// How often a call failed.
    ghost faults: { Self → ℕ };

    /// Moves the first bytes that are left into the front of the buffer, at least one and at most
    /// its length, and says how many; 0 at the end alone. The buffer is not empty. A failed call
    /// moves nothing.
    fn read(&mut self, into: &mut [u8]) -> Result<usize, Failed>
        requires { 0 < length into.old }
        ensures bound { IfOk result (λ n. n ≤ length into.old) }
        ensures bytes { Reads (left self.old) (left self.new) into.new result }
        ensures cause { HasCause (faults self.old) (faults self.new) result };

    /// How often a call failed; the counter stays at its last value.
    fn fault_count(&self) -> u64
        ensures { result ≡ faults self.now };
}

/// Where bytes go to.
pub trait Sink {
    /// The bytes that it has taken, where the sink tells them.
    ghost taken: { Self → Option (List ℕ) };

    /// How often a call failed.
    ghost faults: { Self → ℕ };

    /// Takes the first bytes of the piece, at least one, and says how many. The piece is not
    /// empty. A failed call takes nothing.
    fn write(&mut self, piece: &[u8]) -> Result<usize, Failed>
        requires { 0 < length piece.now }
        ensures low { IfOk result (λ n. 0 < n) }
        ensures high { IfOk result (λ n. n ≤ length piece.now) }
        ensures bytes { Takes (taken self.old) (taken self.new) piece.now result }
        ensures cause { HasCause (faults self.old) (faults self.new) result };

    /// How often a call failed; the counter stays at its last value.
    fn fault_count(&self) -> u64
        ensures { result ≡ faults self.now };
}

/// Who has files.
pub trait Host {
    type Src: Source + Drop;

    /// What the host tells of a name: nothing, that it has no such file, or the file's bytes.
    ghost content: { Self → List ℕ → Content };

    /// How often a call for this name failed.
    ghost faults: { Self → List ℕ → ℕ };

    /// What one call of `take_file` for this name may make of the host. So a caller can say which
    /// calls it makes, in which order, and that it makes no other.
    ghost opens: { Self → List ℕ → Self → Type 0 };

    /// A source that has left what the host has under the name. The host's bytes stay as they
    /// were. A name that the host does not have is a failure.
    fn take_file(&mut self, alloc: Global, name: &str) -> Result<Self::Src, OpenError>
        ensures fresh { IfOk result (λ source. Self.Src.faults source ≡ 0) }
        ensures bytes { IfOk result (λ s. HasOpened (content self.old name.now) (Self.Src.left s)) }
        ensures kept { (any : List ℕ) → content self.new any ≡ content self.old any }
        ensures cause { HasOpenCause name.now (faults self.old) (faults self.new) result }
        ensures opened { opens self.old name.now self.new };

    /// How often a call for this name failed; the counter stays at its last value.
    fn fault_count(&self, name: &str) -> u64
        ensures { result ≡ faults self.now name.now };

    /// What the hashes of tables begin with that hold what the outside chooses: two numbers that it
    /// cannot know, where the host has them, and zeros where it has none. No answer depends on them.
    fn seed(&self) -> Seed {
        Seed::default()
    }
}

/// The sink failed before it had taken all.
#[derive(Clone, Copy, Debug, PartialEq, Eq)]
pub struct WriteFault;
