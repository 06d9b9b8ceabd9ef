//! Why bytes, a text or a tree give no script.
ghost use Rattle.std.specs.Prelude.{◌≡◌};
ghost use Rattle.p2p_sim_script.specs.declared.error.ScriptError.TheVariants.{Memory};
ghost use Rattle.p2p_sim_script.specs.declared.error.ReadError.TheVariants.{NotJson, Memory as memory};

use json::Invalid;
use std::alloc::{AllocError, AllocFailed};
use thiserror::Error;

/// Why a tree gives no script.
#[derive(Clone, Copy, PartialEq, Eq, Debug, Drop, Error)]
pub enum ScriptError {
    /// The tree hasn't the form of a script.
    #[error("not a script")]
    NotScript,
    /// There was no memory for what the script says.
    #[error("out of memory")]
    Memory,
}

impl From<AllocError> for ScriptError {
    ghost from_gives = { λ _ e. e ≡ Memory };

    fn from(_error: AllocError) -> ScriptError {
        ScriptError::Memory
    }
}

impl<T: Drop> From<AllocFailed<T>> for ScriptError {
    ghost from_gives = { λ _ e. e ≡ Memory };

    fn from(_error: AllocFailed<T>) -> ScriptError {
        ScriptError::Memory
    }
}

/// Why a text isn't read.
#[derive(Clone, Copy, PartialEq, Eq, Debug, Drop, Error)]
pub enum ReadError {
    /// The text isn't JSON.
    #[error("not JSON")]
    NotJson,
    /// There was no memory for what the text says.
    #[error("out of memory")]
    Memory,
}

impl From<Invalid> for ReadError {
    ghost from_gives = { λ _ e. e ≡ NotJson };

    fn from(_invalid: Invalid) -> ReadError {
        ReadError::NotJson
    }
}

impl From<AllocError> for ReadError {
    ghost from_gives = { λ _ e. e ≡ memory };

    fn from(_error: AllocError) -> ReadError {
        ReadError::Memory
    }
}

impl<T: Drop> From<AllocFailed<T>> for ReadError {
    ghost from_gives = { λ _ e. e ≡ memory };

    fn from(_error: AllocFailed<T>) -> ReadError {
        ReadError::Memory
    }
}

/// Why bytes give no script.
#[derive(Clone, Copy, PartialEq, Eq, Debug, Drop, Error)]
pub enum InputError {
    /// The bytes aren't UTF-8, or aren't JSON.
    #[error("not JSON")]
    NotJson,
    /// The JSON hasn't the form of a script.
    #[error("not a script")]
    NotScript,
    /// There was no memory for what the bytes say.
    #[error("out of memory")]
    Memory,
}
