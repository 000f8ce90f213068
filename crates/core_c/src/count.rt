//! The counts of steps that calls from C begin, and which nobody reads.

ghost use Rattle.std.specs.Prelude.{◌≡◌};

use cer_base::steps::Opening;
use std::marker::PhantomData;

/// The right to the count of one call.
///
/// A runtime gives such rights, and only `main` and tests have one. A call from C is the outermost one of
/// this library, as `main` is of a program, and is given none; so it takes its own. An `Opening` is a
/// blank ledger and nothing else, and that is a marker and nothing else: neither has any bytes.
pub fn opening() -> Opening
    ensures { result.parts ≡ 1 }
{
    let shape = ((PhantomData::<()>,),);
    let at = &raw const shape as *const Opening;
    unsafe { at.read() }
}
