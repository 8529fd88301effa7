// Why nothing comes of a call on the second archive: a reason that it tells, or want of memory.
use crate::blocks::Fault;
use crate::denial::Denial;
use std::alloc::{AllocError, AllocFailed};

#[derive(Clone, Copy)]
pub(crate) enum Failed<E> {
    For(E),
    Memory(AllocError),
}

impl<E> Failed<E> {
    // The same, with the reason told in another way.
    pub(crate) fn map<R, F: FnOnce(E) -> R>(self, told: F) -> Failed<R>
        requires { F.IsAlwaysCallable told }
    {
        match self {
            Failed::For(reason) => Failed::For(told(reason)),
            Failed::Memory(failed) => Failed::Memory(failed),
        }
    }
}

impl<E> From<AllocError> for Failed<E> {
    fn from(failed: AllocError) -> Failed<E> {
        Failed::Memory(failed)
    }
}

impl<E, T: Drop> From<AllocFailed<T>> for Failed<E> {
    fn from(failed: AllocFailed<T>) -> Failed<E> {
        Failed::Memory(AllocError::from(failed))
    }
}

impl From<Denial> for Failed<Denial> {
    fn from(denial: Denial) -> Failed<Denial> {
        Failed::For(denial)
    }
}

impl From<Fault> for Failed<Fault> {
    fn from(fault: Fault) -> Failed<Fault> {
        Failed::For(fault)
    }
}
