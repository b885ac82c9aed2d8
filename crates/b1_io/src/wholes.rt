// Reading all that a source holds, and writing all of a text.
ghost use Rattle.std.specs.Prelude.{◌≡◌, ◌+◌, ◌<◌, ◌≤◌, ◌^◌, [], ◌++◌, Some, length, take, vec_len, IfOk, OnOk, OnErr, IfErr, IfSome};
ghost use Rattle.b1_io.specs.declared.wholes.NotAll.TheVariants.{Memory};
ghost use Rattle.b1_io.specs.Streams.{Rose, Gave, GaveSuch, Took, TookSuch, IsAtEnd};
ghost use Rattle.b1_io.specs.Whole.{OnFault, OnLong};

use crate::ends::{Failed, Pieces, Sink, Source};
use std::alloc::{AllocError, Global};

// The most bytes that one read asks for.
const CHUNK: usize = 4096;

/// Why not all was read.
#[derive(Clone, Copy, Debug, PartialEq, Eq)]
pub enum NotAll {
    /// A read failed.
    Fault,
    /// The source held more bytes than the limit.
    Long,
    /// Memory ran out, which says nothing of the source.
    Memory,
}

impl From<AllocError> for NotAll {
    ghost from_gives = { λ _ e. e ≡ Memory };

    fn from(_e: AllocError) -> NotAll {
        NotAll::Memory
    }
}

/// Reads `source` to its end, in pieces of at most 4,096 bytes that `to` takes, `limit` bytes at most.
///
/// # Errors
///
/// `Long` where `limit` + 1 bytes were given, and no more are then read; `Fault` only where the
/// source's count of faults rose, after `limit` bytes at most; `Memory` where the bytes found no
/// room. What was read is lost.
pub fn read_into<S: Source, T: Pieces>(
    source: &mut S,
    to: &mut T,
    limit: usize,
) -> Result<(), NotAll>
    requires limit { limit < 2 ^ 31 }
    requires nothing { T.taken to.old ≡ [] }
    ensures within { OnOk result (length (T.taken to.new) ≤ limit) }
    ensures all { OnOk result (IfSome (S.left source.old) (λ held. T.taken to.new ≡ held)) }
    ensures end { OnOk result (IfSome (S.left source.old) (λ _. S.left source.new ≡ Some [])) }
    ensures fault { IfErr result (λ e.
        OnFault e (Rose (S.faults source.old) (S.faults source.new))) }
    ensures unfilled { IfErr result (λ e.
        OnFault e (GaveSuch (S.left source.old) (S.left source.new) (λ given. length given
        ≤ limit))) }
    ensures long { IfErr result (λ e.
        OnLong e (IfSome (S.left source.old) (λ held. limit < length held))) }
    ensures filled { IfErr result (λ e.
        OnLong e (GaveSuch (S.left source.old) (S.left source.new) (λ given. length given
        ≡ limit + 1))) }
    ensures lost { OnErr result (GaveSuch (S.left source.old) (S.left source.new) (λ given.
        length given ≤ limit + 1)) }
    ensures never_falls { S.faults source.old ≤ S.faults source.new }
{
    let mut chunk = [0u8; CHUNK];
    let mut given = 0;
    while given <= limit {
        let room = CHUNK.min(limit + 1 - given);
        let n = read_more(source, &mut chunk[..room], to)?;
        if n == 0 {
            return Ok(());
        }
        given += n;
    }
    Err(NotAll::Long)
}

/// Reads `source` to its end and returns its bytes, `limit` of them at most. Errors are those of `read_into`.
pub fn read_all<S: Source>(alloc: Global, source: &mut S, limit: usize) -> Result<Vec<u8>, NotAll>
    requires { limit < 2 ^ 31 }
    ensures within { IfOk result (λ bytes. vec_len bytes ≤ limit) }
    ensures all { IfOk result (λ bytes. IfSome (S.left source.old) (λ held. bytes.items ≡ held)) }
    ensures end { OnOk result (IfSome (S.left source.old) (λ _. S.left source.new ≡ Some [])) }
    ensures fault { IfErr result (λ e.
        OnFault e (Rose (S.faults source.old) (S.faults source.new))) }
    ensures unfilled { IfErr result (λ e.
        OnFault e (GaveSuch (S.left source.old) (S.left source.new) (λ given. length given
        ≤ limit))) }
    ensures long { IfErr result (λ e.
        OnLong e (IfSome (S.left source.old) (λ held. limit < length held))) }
    ensures filled { IfErr result (λ e.
        OnLong e (GaveSuch (S.left source.old) (S.left source.new) (λ given. length given
        ≡ limit + 1))) }
    ensures lost { OnErr result (GaveSuch (S.left source.old) (S.left source.new) (λ given.
        length given ≤ limit + 1)) }
    ensures never_falls { S.faults source.old ≤ S.faults source.new }
{
    let mut bytes = Vec::new(alloc);
    read_into(source, &mut bytes, limit)?;
    Ok(bytes)
}

// Reads once, into a chunk with room, and hands over what was given.
fn read_more<S: Source, T: Pieces>(
    source: &mut S,
    chunk: &mut [u8],
    to: &mut T,
) -> Result<usize, NotAll>
    requires { 0 < length chunk.old }
    ensures within { IfOk result (λ n. n ≤ length chunk.new) }
    ensures gave { IfOk result (λ n.
        Gave (S.left source.old) (S.left source.new) (take n chunk.new)) }
    ensures grew { IfOk result (λ n. T.taken to.new ≡ T.taken to.old ++ take n chunk.new) }
    ensures end { IfOk result (λ n. n ≡ 0 → IsAtEnd (S.left source.new)) }
    ensures never_long { IfErr result (λ e. OnLong e ⊥) }
    ensures fault { IfErr result (λ e.
        OnFault e (Rose (S.faults source.old) (S.faults source.new))) }
    ensures none { IfErr result (λ e. OnFault e (S.left source.new ≡ S.left source.old)) }
    ensures lost { OnErr result (GaveSuch (S.left source.old) (S.left source.new) (λ given.
        length given ≤ length chunk.new)) }
    ensures never_falls { S.faults source.old ≤ S.faults source.new }
{
    let Ok(n) = source.read(chunk) else {
        return Err(NotAll::Fault);
    };
    to.take(&chunk[..n])?;
    Ok(n)
}

/// Writes all of `bytes` to `sink`. Of no bytes it makes no call.
///
/// # Errors
///
/// `Failed` only where the sink's count of faults rose. The sink then took a prefix of the bytes,
/// and not all.
pub fn write_all<K: Sink>(sink: &mut K, bytes: &[u8]) -> Result<(), Failed>
    ensures all { OnOk result (Took (K.taken sink.old) (K.taken sink.new) bytes.now) }
    ensures prefix { OnErr result (TookSuch (K.taken sink.old) (K.taken sink.new) bytes.now (λ n.
        n < length bytes.now)) }
    ensures fault { OnErr result (Rose (K.faults sink.old) (K.faults sink.new)) }
    ensures never_falls { K.faults sink.old ≤ K.faults sink.new }
    ensures uncalled { bytes.now ≡ [] → sink.new ≡ sink.old }
{
    let mut sent = 0;
    while sent < bytes.len() {
        sent += sink.write(&bytes[sent..])?;
    }
    Ok(())
}
