ghost use Rattle.std.specs.Prelude.{◌≡◌, ◌<◌, ◌≤◌, ℕ, List, length, IfOk, IsErrOf};
ghost use Rattle.std.specs.Io.KnownBytes.{Consumes, IsAtEnd};
ghost use Rattle.hwp_io.specs.Causes.{ConsumesAtMost, ConsumesMore};
ghost use Rattle.hwp_io.specs.declared.reading.ReadAll.TheVariants.{ReadFault, OutOfMemory};

use super::{Failed, Source};
use std::alloc::{AllocError, Global};
use std::marker::Model;
use thiserror::Error;

/// Bytes that were read. Clauses see them as the list of the bytes.
#[derive(Drop)]
pub struct Bytes {
    bytes: Vec<u8>,
}

impl Model for Bytes {
    ghost use Rattle.std.specs.Prelude.{ℕ, List};

    ghost Value = { List ℕ };

    ghost view = { λ b. b.bytes.items };
}

impl Bytes {
    /// The bytes, in the order in which they were read.
    pub fn as_slice(&self) -> &[u8]
        ensures { result.now ≡ self.now }
    {
        self.bytes.as_slice()
    }
}

/// Why a source was not read to its end.
#[derive(Clone, Copy, Debug, PartialEq, Eq, Error)]
pub enum ReadAll {
    /// The source failed.
    #[error("read fault")]
    ReadFault,
    /// The source gave more bytes than were allowed.
    #[error("too many bytes")]
    TooLong,
    /// Memory was refused.
    #[error("out of memory")]
    OutOfMemory,
}

impl From<Failed> for ReadAll {
    ghost from_gives = { λ _ e. e ≡ ReadFault };

    fn from(_failed: Failed) -> ReadAll {
        ReadAll::ReadFault
    }
}

impl From<AllocError> for ReadAll {
    ghost from_gives = { λ _ e. e ≡ OutOfMemory };

    fn from(_refused: AllocError) -> ReadAll {
        ReadAll::OutOfMemory
    }
}

/// How many bytes one read may give.
const PIECE: usize = 4096;

/// Reads the source to its end. Each read takes at least one byte or is the last. It is `TooLong`
/// exactly where more than `limit` bytes were read.
pub fn read_all<S: Source>(alloc: Global, src: &mut S, limit: usize) -> Result<Bytes, ReadAll>
    // Ok is all that the source had left, and an error took a front of it.
    ensures all { IfOk result (λ bytes.
        Consumes (S.left src.old) (S.left src.new) bytes × IsAtEnd (S.left src.new)) }
    ensures within { IfOk result (λ bytes. length bytes ≤ limit) }
    ensures long { IsErrOf result ReadAll.TooLong
        → ConsumesMore limit (S.left src.old) (S.left src.new) }
    ensures short { ¬ IsErrOf result ReadAll.TooLong
        → ConsumesAtMost limit (S.left src.old) (S.left src.new) }

    // The count of faults rises at a fault alone.
    ensures later { S.faults src.old ≤ S.faults src.new }
    ensures fault { IsErrOf result ReadAll.ReadFault → S.faults src.old < S.faults src.new }
    ensures quiet { ¬ IsErrOf result ReadAll.ReadFault → S.faults src.new ≡ S.faults src.old }
{
    let mut bytes = Vec::new(alloc);
    let mut piece = [0u8; PIECE];
    loop {
        let count = src.read(&mut piece)?;
        if count == 0 {
            return Ok(Bytes { bytes });
        }
        if count > limit - bytes.len() {
            return Err(ReadAll::TooLong);
        }
        bytes.extend_from_slice(&piece[..count])?;
    }
}
