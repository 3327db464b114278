//! Why a value can't be read.

ghost use Rattle.std.specs.Prelude.{◌≡◌};
ghost use Rattle.cg_reading.specs.declared.misfit.Misfit.TheVariants.{Memory};
ghost use Rattle.cg_reading.specs.Reads.{IsAt};

use std::alloc::{AllocError, AllocFailed};

/// Why a value can't be read: memory ran out, or the value, or its part at that place, has a wrong shape.
#[derive(Clone, Copy, Debug, PartialEq, Eq)]
pub enum Misfit<P> {
    Memory,
    WrongShape(P),
}

/// The misfit of a value that as a whole has a wrong shape.
pub const WRONG_SHAPE: Misfit<()> = Misfit::WrongShape(());

impl<P> Misfit<P> {
    /// Returns the misfit with its place converted by `place_of`.
    pub fn at<Q, F: FnOnce(P) -> Q + Drop>(self, place_of: F) -> Misfit<Q>
        requires { F.IsAlwaysCallable place_of }
        ensures { IsAt (F.post place_of) self result }
    {
        match self {
            Misfit::Memory => Misfit::Memory,
            Misfit::WrongShape(place) => Misfit::WrongShape(place_of(place)),
        }
    }
}

impl<P> From<AllocError> for Misfit<P> {
    ghost from_gives = { λ _ misfit. misfit ≡ Memory };

    fn from(_error: AllocError) -> Misfit<P> {
        Misfit::Memory
    }
}

impl<P, T: Drop> From<AllocFailed<T>> for Misfit<P> {
    ghost from_gives = { λ _ misfit. misfit ≡ Memory };

    fn from(_error: AllocFailed<T>) -> Misfit<P> {
        Misfit::Memory
    }
}
