// What is wrong with the bytes of an image.
ghost use Rattle.std.specs.Prelude.{◌≡◌};
ghost use Rattle.s80_image.specs.declared.fault.ReadError.TheVariants.{Fault as FaultError, Memory};

use s80_base::{OutOfMemory, Text};
use std::alloc::{AllocError, AllocFailed};
use thiserror::Error;

/// The first fault of bytes that are read, told from behind: how many bytes are left where the field begins.
#[derive(Clone, Copy, Debug, PartialEq, Eq)]
pub enum Fault {
    /// The bytes end early.
    Short,
    /// How many bytes are left where the field begins, and its value.
    Field(u64, u64),
}

/// Why a part wasn't read.
#[derive(Clone, Copy, Debug, PartialEq, Eq)]
pub enum ReadError {
    Memory,
    Fault(Fault),
}

impl From<OutOfMemory> for ReadError {
    ghost from_gives = { λ _ e. e ≡ Memory };

    fn from(_: OutOfMemory) -> Self {
        ReadError::Memory
    }
}

impl From<AllocError> for ReadError {
    ghost from_gives = { λ _ e. e ≡ Memory };

    fn from(_: AllocError) -> Self {
        ReadError::Memory
    }
}

impl<T: Drop> From<AllocFailed<T>> for ReadError {
    ghost from_gives = { λ _ e. e ≡ Memory };

    fn from(_: AllocFailed<T>) -> Self {
        ReadError::Memory
    }
}

impl From<Fault> for ReadError {
    ghost from_gives = { λ fault e. e ≡ FaultError fault };

    fn from(fault: Fault) -> Self {
        ReadError::Fault(fault)
    }
}

/// Why bytes aren't those of an image. The value of a text or a list is its length.
#[derive(Debug, Drop, Error)]
pub enum ImageFault {
    #[error("out of memory")]
    Memory,
    #[error("the image ends early")]
    Short,
    /// A field's place and its unlawful value.
    #[error("the field at {0} can't have the value {1}")]
    Field(u64, u64),
    /// A class and the selector of its method.
    #[error("a method's code can't be run")]
    Unverified(Text, Text),
}

impl From<ReadError> for ImageFault {
    ghost use Rattle.s80_image.specs.Answers.{fault_of};

    ghost from_gives = { λ error fault. fault ≡ fault_of error };

    fn from(error: ReadError) -> Self {
        match error {
            ReadError::Memory => ImageFault::Memory,
            ReadError::Fault(Fault::Short) => ImageFault::Short,
            ReadError::Fault(Fault::Field(left, value)) => ImageFault::Field(left, value),
        }
    }
}

impl<T: Drop> From<AllocFailed<T>> for ImageFault {
    ghost use Rattle.s80_image.specs.declared.fault.ImageFault.TheVariants as faults;

    ghost from_gives = { λ _ fault. fault ≡ faults.Memory };

    fn from(_: AllocFailed<T>) -> Self {
        ImageFault::Memory
    }
}

impl From<OutOfMemory> for ImageFault {
    ghost use Rattle.s80_image.specs.declared.fault.ImageFault.TheVariants as faults;

    ghost from_gives = { λ _ fault. fault ≡ faults.Memory };

    fn from(_: OutOfMemory) -> Self {
        ImageFault::Memory
    }
}
