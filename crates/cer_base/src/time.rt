//! Clocks: that of an event, and from which one on a start is in a window.
ghost use Rattle.std.specs.Prelude.{◌≡◌, IfSome, IfNone};
ghost use Rattle.cer_base.specs.Clocks.{IsShort};

use std::marker::Model;

/// The clock of an event, seen as a whole number: a position, or the value of an attribute. What
/// holds many of them is small, so it is one of 64 bits.
#[derive(Drop, Debug, Default, Clone, Copy, PartialEq, Eq)]
pub struct Time {
    clock: i64,
}

impl Model for Time {
    ghost use Rattle.std.specs.Prelude.{ℤ, refl};

    ghost Value = { ℤ };

    ghost view = { λ t. t.clock };

    ghost inverse = { λ z. record { clock = z } };

    ghost inverse_ok = { λ t _. refl };
}

impl Time {
    /// The clock that is this number.
    #[inline(always)]
    pub fn of(clock: i64) -> Time
        ensures { result ≡ clock }
    {
        Time { clock }
    }

    /// The clock that is this number, where it is one of 64 bits.
    #[inline(always)]
    pub fn try_of(clock: i128) -> Option<Time>
        ensures is { IfSome result (λ t. t ≡ clock) }
        ensures wide { IfNone result (IsShort clock → ⊥) }
    {
        match i64::try_from(clock) {
            Ok(clock) => Some(Time { clock }),
            Err(_) => None,
        }
    }

    /// The number.
    #[inline(always)]
    pub fn get(self) -> i128
        ensures { result ≡ self }
    {
        i128::from(self.clock)
    }
}

/// A clock from which on a start is in a window, seen as a whole number of 128 bits: a window may be
/// wider than the clocks of events reach. It stands in two halves, so that calls hand it on as one
/// value.
#[derive(Drop, Debug, Default, Clone, Copy, PartialEq, Eq)]
pub struct LowTime {
    high: u64,
    low: u64,
}

impl Model for LowTime {
    ghost use Rattle.std.specs.Prelude.{ℤ};

    ghost Value = { ℤ };

    ghost use Rattle.cer_base.specs.Halves.{from_halves, AreHalves, halves, halves-from_halves};

    ghost view = { from_halves };

    ghost invariant = { AreHalves };

    ghost inverse = { halves };

    ghost inverse_ok = { halves-from_halves };
}

impl LowTime {
    /// The clock that is this number.
    #[inline(always)]
    pub fn of(clock: i128) -> LowTime
        ensures { result ≡ clock }
    {
        let bits = clock.cast_unsigned();
        LowTime {
            high: (bits >> 64) as u64,
            low: (bits % (1 << 64)) as u64,
        }
    }

    /// The number.
    #[inline(always)]
    pub fn get(self) -> i128
        ensures { result ≡ self }
    {
        (((self.high as u128) << 64) | self.low as u128).cast_signed()
    }
}
