//! What a caller in C holds of a service: where it lies, or nothing.

ghost use Rattle.std.specs.Prelude.{◌≡◌, true, false, IfSome, IfNone};
ghost use Rattle.std.specs.declared.alloc.Global.{Global as Heap};
ghost use Rattle.core_service.specs.Services.{ServiceState};
ghost use Rattle.core_service.specs.contracts.service.Service as services;

use crate::unboxed::Unboxed;
use core_service::Service;
use std::alloc::Global;
use std::marker::Model;

/// A place for one service. All zeros, it is empty.
///
/// Whoever holds it moves it as a whole or leaves it where it is, and never makes two of it.
#[repr(C)]
#[derive(Drop)]
pub struct Handle {
    at: *mut u8,
    pub full: bool,
    ghost heap: { Heap },
    pub ghost service: { ServiceState } by { services.the_row.coded },
}

impl Model for Handle {
    ghost use Rattle.core_c.specs.Held.{owns_service};

    ghost also_owns = { λ h. owns_service h.full h.at h.heap h.service };
}

impl Handle {
    /// Whether it has a service.
    pub(crate) fn is_full(&mut self) -> bool
        ensures { (result ≡ self.old.full) × (self.new ≡ self.old) }
    {
        self.full
    }

    /// Gives it the service. One that it had before is lost.
    fn put(&mut self, service: Unboxed<Service, Global>)
        ensures { (self.new.full ≡ true) × (self.new.service ≡ service.value) }
    {
        let Unboxed { at, alloc: _ } = service;
        self.at = at as *mut u8;
        self.full = true;
    }

    /// Takes the service that it has.
    fn take(&mut self, alloc: Global) -> Unboxed<Service, Global>
        requires { self.old.full ≡ true }
        ensures { (result.value ≡ self.old.service) × (self.new.full ≡ false) }
    {
        let at = self.at as *mut Service;
        self.full = false;
        Unboxed { at, alloc }
    }

    /// Puts the service in. One that it had before is lost.
    pub(crate) fn give(&mut self, service: Box<Service>)
        ensures full { self.new.full ≡ true }
        ensures service { self.new.service ≡ service.value }
    {
        self.put(Unboxed::of(service));
    }

    /// Takes the service out, if it has one.
    pub(crate) fn service(&mut self, alloc: Global) -> Option<Box<Service>>
        ensures full { IfSome result (λ service. self.old.full ≡ true) }
        ensures service { IfSome result (λ service. service.value ≡ self.old.service) }
        ensures taken { IfSome result (λ service. self.new.full ≡ false) }
        ensures empty { IfNone result (self.old.full ≡ false) }
        ensures same { IfNone result (self.new ≡ self.old) }
    {
        if self.is_full() {
            return Some(self.take(alloc).into_box());
        }
        None
    }
}
