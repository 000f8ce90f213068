//! A block of places after a raw pointer, each place empty or holding a value.
//!
//! `make`, `Places::read`, `Places::write` and `free` are the only functions of the crate that
//! follow a raw pointer. Their contracts name what each place holds, so that no place is read
//! before it was written, and that the block goes back as a whole.
ghost use Rattle.std.specs.Prelude.{◌≡◌, ℕ, ◌<◌, List, Option, Some, None, length, replicate, get_or, slice_set, IfOk, ⊤};
ghost use Rattle.std.specs.Vec.Ownership.{FitsInBlock};
ghost use base.Fml.{ftrue};
ghost use denote.RawPtr.{Ptr};
ghost use Rattle.tecs_arena.specs.Chunks.{IsFilled};
ghost use Rattle.tecs_arena.specs.Ownership.{cells_own, cells_lent, deed_owns};

use std::alloc::{AllocError, Allocator};
use std::marker::{Model, PhantomData, Send};
use std::mem::{align_of, size_of};

/// Where a block begins. It owns nothing.
pub(crate) struct Start<T> {
    ptr: *mut T,
}

impl<T> Clone for Start<T> {
    ghost is_clone = { λ x y. y ≡ x };

    ghost is_infallible = { λ _. ⊤ };

    fn clone(&self) -> Result<Start<T>, AllocError> {
        Ok(*self)
    }
}

impl<T> Copy for Start<T> {}

// It owns nothing.
unsafe impl<T> Send for Start<T> {}

/// The places of a block, seen one by one: what each holds, if it was written. It takes no bytes.
pub(crate) struct Places<T> {
    mark: PhantomData<*const T>,
    ghost at: { Ptr },
    ghost slots: { List (Option T) },
}

impl<T> Model for Places<T> {
    ghost also_owns = { λ c. cells_own T.row c.at c.slots };

    ghost also_shares = { λ c _ κ. cells_lent T.row c.at c.slots κ };
}

// They go to another thread as what they hold may.
unsafe impl<T: Send> Send for Places<T> {}

/// The right to give the block of `len` places back to its allocator. It takes no bytes.
pub(crate) struct Deed<T, A: Allocator> {
    mark: PhantomData<*const (T, A)>,
    ghost at: { Ptr },
    ghost len: { ℕ },
    ghost alloc: { A },
}

impl<T, A: Allocator> Model for Deed<T, A> {
    ghost also_owns = { λ d. deed_owns T.row (A.dealloc_token d.alloc) d.at d.len };

    ghost also_shares = { λ _ _ _. ftrue };
}

// It goes to another thread where a block may be given back there.
unsafe impl<T, A: Allocator + Send> Send for Deed<T, A> {}

/// Makes a block of `len` empty places.
pub(crate) fn make<T, A: Allocator>(
    alloc: &A,
    len: usize,
) -> Result<(Start<T>, Places<T>, Deed<T, A>), AllocError>
    requires { FitsInBlock T.row len }
    ensures { IfOk result (λ r. (r.1.at ≡ r.0.ptr) × (r.1.slots ≡ replicate len None)
        × (r.2.at ≡ r.0.ptr) × (r.2.len ≡ len) × (r.2.alloc ≡ alloc.now)) }
{
    match alloc.allocate(len * size_of::<T>(), align_of::<T>()) {
        Ok(block) => {
            let base = Start {
                ptr: block as *mut T,
            };
            Ok((
                base,
                Places { mark: PhantomData },
                Deed { mark: PhantomData },
            ))
        }
        Err(error) => Err(error),
    }
}

/// Gives the whole block back. What its places hold is forgotten.
pub(crate) fn free<T, A: Allocator>(
    alloc: &A,
    base: Start<T>,
    len: usize,
    cells: Places<T>,
    deed: Deed<T, A>,
)
    requires { (cells.at ≡ base.ptr) × (length cells.slots ≡ len) × (deed.at ≡ base.ptr)
        × (deed.len ≡ len) × (deed.alloc ≡ alloc.now) }
{
    let Places { mark: _ } = cells;
    let Deed { mark: _ } = deed;
    unsafe {
        alloc.deallocate(base.ptr as *mut u8, len * size_of::<T>(), align_of::<T>());
    }
}

impl<T> Places<T> {
    /// Writes the value at the place. What the place values_of is forgotten.
    pub(crate) fn write(&mut self, base: Start<T>, index: usize, item: T)
        requires { (base.ptr ≡ self.old.at) × (index < length self.old.slots) }
        ensures { (self.new.at ≡ self.old.at) × (self.new.slots
            ≡ slice_set self.old.slots index (Some item)) }
    {
        unsafe { base.ptr.add(index).write(item) }
    }

    /// The value at the place, which was written.
    pub(crate) fn read(&self, base: Start<T>, index: usize) -> &T
        requires { (base.ptr ≡ self.now.at) × IsFilled self.now.slots index }
        ensures { get_or self.now.slots index None ≡ Some result.now }
    {
        unsafe { &*base.ptr.add(index) }
    }
}
