//! Reading a source to its end.

ghost use Rattle.std.specs.Prelude.{◌≡◌, ◌≢◌, ◌≤◌, ◌<◌, ◌-◌, ◌++◌, ℕ, List, [], length, take, vec_len, IfOk, IfErr, OnOk};
ghost use Rattle.heap_io.specs.Streams.{Rose, Gave, GaveAll, GaveMore, GaveAtMost};
ghost use Rattle.heap_io.specs.declared.reading.ReadFault.TheVariants.{Read, Memory};

use crate::{Failed, Source};
use std::alloc::{AllocError, Global};
use thiserror::Error;

/// Why an input was not read to its end.
#[derive(Clone, Copy, Debug, PartialEq, Eq, Error)]
pub enum ReadFault {
    /// The source failed.
    #[error("the source failed")]
    Read,
    /// More bytes were taken than the limit.
    #[error("the input is too long")]
    TooLong,
    /// There was no memory for the bytes. Nothing else gives this answer.
    #[error("no memory for the input")]
    Memory,
}

impl From<Failed> for ReadFault {
    ghost from_gives = { λ _ e. e ≡ Read };

    fn from(_: Failed) -> Self {
        ReadFault::Read
    }
}

impl From<AllocError> for ReadFault {
    ghost from_gives = { λ _ e. e ≡ Memory };

    fn from(_: AllocError) -> Self {
        ReadFault::Memory
    }
}

/// How many bytes one call asks for.
const PIECE: usize = 16_384;

/// How many bytes the input may have before the list of its bytes grows for the first time. What of
/// it is not used is not touched.
const FIRST_ROOM: usize = 262_144;

/// Reads the source to the end of its input, at most `limit` bytes. The work is linear in the
/// bytes. After an error some bytes were taken, and are lost. A call that fails is not made again:
/// where there is an answer, no call failed.
pub fn read_all<S: Source>(alloc: Global, source: &mut S, limit: u64) -> Result<Vec<u8>, ReadFault>
    ensures whole { IfOk result (λ bytes.
        GaveAll (S.state source.old).contents (S.state source.new).contents bytes.items) }
    ensures within { IfOk result (λ bytes. length bytes.items ≤ limit) }
    ensures read { IfErr result (λ fault. fault ≡ ReadFault.Read
        → Rose (S.state source.old).faults (S.state source.new).faults) }

    // More than `limit` bytes were taken exactly where it answers `TooLong`.
    ensures too_long { IfErr result (λ fault. fault ≡ ReadFault.TooLong
        → GaveMore (S.state source.old).contents (S.state source.new).contents limit) }
    ensures at_most { IfErr result (λ fault. fault ≢ ReadFault.TooLong
        → GaveAtMost (S.state source.old).contents (S.state source.new).contents limit) }
    ensures quiet { OnOk result ((S.state source.new).faults ≡ (S.state source.old).faults) }
    ensures counted { (S.state source.old).faults ≤ (S.state source.new).faults }
{
    let mut piece = zeroes(alloc, PIECE)?;
    read_pieces(alloc, source, &mut piece, limit)
}

/// That many bytes 0.
fn zeroes(alloc: Global, count: usize) -> Result<Vec<u8>, AllocError>
    ensures { IfOk result (λ bytes. vec_len bytes ≡ count) }
{
    vec![in alloc; 0u8; count]
}

/// The same as `read_all`, piece by piece.
fn read_pieces<S: Source>(
    alloc: Global,
    source: &mut S,
    piece: &mut [u8],
    limit: u64,
) -> Result<Vec<u8>, ReadFault>
    requires { 0 < length piece.old }
    ensures whole { IfOk result (λ bytes.
        GaveAll (S.state source.old).contents (S.state source.new).contents bytes.items) }
    ensures within { IfOk result (λ bytes. length bytes.items ≤ limit) }
    ensures read { IfErr result (λ fault. fault ≡ ReadFault.Read
        → Rose (S.state source.old).faults (S.state source.new).faults) }
    ensures too_long { IfErr result (λ fault. fault ≡ ReadFault.TooLong
        → GaveMore (S.state source.old).contents (S.state source.new).contents limit) }
    ensures at_most { IfErr result (λ fault. fault ≢ ReadFault.TooLong
        → GaveAtMost (S.state source.old).contents (S.state source.new).contents limit) }
    ensures quiet { OnOk result ((S.state source.new).faults ≡ (S.state source.old).faults) }
    ensures counted { (S.state source.old).faults ≤ (S.state source.new).faults }
{
    let mut bytes = Vec::with_capacity(alloc, FIRST_ROOM)?;
    while take_piece(source, piece, &mut bytes, limit)? > 0 {}
    Ok(bytes)
}

/// Takes the next piece and appends it to the bytes. It answers how many bytes that were.
fn take_piece<S: Source>(
    source: &mut S,
    piece: &mut [u8],
    bytes: &mut Vec<u8>,
    limit: u64,
) -> Result<usize, ReadFault>
    requires room { 0 < length piece.old }
    requires within { vec_len bytes.old ≤ limit }
    ensures appended { IfOk result (λ k. bytes.new.items ≡ bytes.old.items ++ take k piece.new) }
    ensures bound { IfOk result (λ k. k ≤ length piece.new) }
    ensures within { OnOk result (vec_len bytes.new ≤ limit) }
    ensures taken { IfOk result (λ k.
        Gave (S.state source.old).contents (S.state source.new).contents (take k piece.new)) }
    ensures end { IfOk result (λ k.
        (xs : List ℕ) → (S.state source.old).contents ≡ Some xs → k ≡ 0 → xs ≡ []) }
    ensures read { IfErr result (λ fault. fault ≡ ReadFault.Read
        → Rose (S.state source.old).faults (S.state source.new).faults) }
    ensures too_long { IfErr result (λ fault. fault ≡ ReadFault.TooLong
        → GaveMore (S.state source.old).contents (S.state source.new).contents (limit - vec_len bytes.old)) }
    ensures at_most { IfErr result (λ fault. fault ≢ ReadFault.TooLong
        → GaveAtMost (S.state source.old).contents (S.state source.new).contents (limit - vec_len bytes.old)) }
    ensures quiet { OnOk result ((S.state source.new).faults ≡ (S.state source.old).faults) }
    ensures counted { (S.state source.old).faults ≤ (S.state source.new).faults }
{
    let k = source.take(piece)?;
    if k as u64 > limit - bytes.len() as u64 {
        return Err(ReadFault::TooLong);
    }
    bytes.extend_from_slice(&piece[..k])?;
    Ok(k)
}
