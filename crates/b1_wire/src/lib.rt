//! Numbers in files: four or eight bytes, the lowest first.
#![tactic(auto)]

ghost use Rattle.std.specs.Prelude.{◌≡◌, ◌++◌, IfOk, OnOk, OnErr};
ghost use Rattle.b1_wire.specs.Numbers.{u32_bytes, u64_bytes, StandsAt, u32_at, u64_at};

use byteorder::{ByteOrder, LittleEndian};
use std::alloc::AllocError;

#[cfg(test)]
mod tests;

/// Too few bytes stand at a place for the number that is read there.
#[derive(Clone, Copy, Debug, PartialEq, Eq)]
pub struct Short {
    /// The place of the number's first byte.
    pub at: usize,
}

/// The number below 2^32 whose four bytes stand at a place, or `Short` exactly where fewer than four bytes stand from
/// there on.
pub fn take_u32(bytes: &[u8], at: usize) -> Result<u32, Short>
    ensures found { IfOk result (λ value. StandsAt bytes.now at (u32_bytes value)) }
    ensures exact { result ≡ u32_at bytes.now at }
{
    if at > bytes.len() || bytes.len() - at < 4 {
        return Err(Short { at });
    }
    Ok(LittleEndian::read_u32(&bytes[at..]))
}

/// The number below 2^64 whose eight bytes stand at a place, or `Short` exactly where fewer than eight bytes stand
/// from there on.
pub fn take_u64(bytes: &[u8], at: usize) -> Result<u64, Short>
    ensures found { IfOk result (λ value. StandsAt bytes.now at (u64_bytes value)) }
    ensures exact { result ≡ u64_at bytes.now at }
{
    if at > bytes.len() || bytes.len() - at < 8 {
        return Err(Short { at });
    }
    Ok(LittleEndian::read_u64(&bytes[at..]))
}

/// Appends a number's four bytes. An error is want of memory, and leaves the bytes as they were.
pub fn put_u32(out: &mut Vec<u8>, value: u32) -> Result<(), AllocError>
    ensures ok { OnOk result (out.new.items ≡ out.old.items ++ u32_bytes value) }
    ensures err { OnErr result (out.new.items ≡ out.old.items) }
{
    let mut bytes = [0; 4];
    LittleEndian::write_u32(&mut bytes, value);
    out.extend_from_slice(&bytes)
}

/// Appends a number's eight bytes. An error is want of memory, and leaves the bytes as they were.
pub fn put_u64(out: &mut Vec<u8>, value: u64) -> Result<(), AllocError>
    ensures ok { OnOk result (out.new.items ≡ out.old.items ++ u64_bytes value) }
    ensures err { OnErr result (out.new.items ≡ out.old.items) }
{
    let mut bytes = [0; 8];
    LittleEndian::write_u64(&mut bytes, value);
    out.extend_from_slice(&bytes)
}
