//! Bytes that are read one by one, and texts that are written piece by piece.

ghost use Rattle.std.specs.Prelude.{◌≡◌, ◌^◌, ◌<◌, [], length, take, map, option_to_list, IfErr};
ghost use Rattle.std.specs.Prelude.{IfNone, IfOk, OnErr, OnOk};
ghost use Rattle.std.specs.Io.KnownBytes.{Appends, Consumes, IsAtEnd};
ghost use Rattle.std.specs.List.{concat};
ghost use Rattle.http_wire.specs.Devices.{CountsFailure};

use crate::device::{DeviceFailed, FaultRead, FaultWrite};
use thiserror::Error;

/// Reads a byte, or none at the end, by one call of the reader.
///
/// # Errors
///
/// Where the read failed, which is counted.
pub fn read_byte<R: FaultRead>(reader: &mut R) -> Result<Option<u8>, DeviceFailed>
    ensures some { IfOk result (λ byte.
        Consumes (R.remaining reader.old) (R.remaining reader.new) (option_to_list byte)) }
    ensures end { IfOk result (λ byte. IfNone byte (IsAtEnd (R.remaining reader.new))) }
    ensures err { OnErr result (Consumes (R.remaining reader.old) (R.remaining reader.new) []) }
    ensures counted { CountsFailure result (R.failures reader.old) (R.failures reader.new) }
{
    let mut buf = [0];
    let n = reader.read(&mut buf)?;
    Ok(if n == 0 { None } else { Some(buf[0]) })
}

/// The writer failed when the first `sent` bytes of a text had gone out.
#[derive(Error, Debug, Clone, Copy, PartialEq, Eq)]
#[error("the device failed after {sent} bytes")]
pub struct Stopped {
    /// How many bytes went out.
    pub sent: u64,
}

/// Writes the whole piece, or answers how many of its bytes went out.
fn write_piece<W: FaultWrite>(writer: &mut W, piece: &[u8]) -> Result<(), usize>
    ensures ok { OnOk result (Appends (W.contents writer.old) (W.contents writer.new) piece.now) }
    ensures within { IfErr result (λ n. n < length piece.now) }
    ensures err { IfErr result (λ n.
        Appends (W.contents writer.old) (W.contents writer.new) (take n piece.now)) }
    ensures counted { CountsFailure result (W.failures writer.old) (W.failures writer.new) }
{
    let mut at = 0;
    while at < piece.len() {
        match writer.write(&piece[at..]) {
            Ok(n) => at += n,
            Err(_) => return Err(at),
        }
    }
    Ok(())
}

/// Writes the pieces, one after another, and nothing else.
///
/// # Errors
///
/// `Stopped` where a write failed: exactly the first `sent` bytes of the pieces went out, which are
/// less than all, and the writer has counted one failure more.
pub fn write_pieces<W: FaultWrite>(writer: &mut W, pieces: &[&[u8]]) -> Result<(), Stopped>
    requires { length (concat (map (λ p. p.now) pieces.now)) < 2 ^ 64 }
    ensures ok { OnOk result (Appends (W.contents writer.old) (W.contents writer.new)
        (concat (map (λ p. p.now) pieces.now))) }
    ensures within { IfErr result (λ stopped.
        stopped.sent < length (concat (map (λ p. p.now) pieces.now))) }
    ensures stopped { IfErr result (λ stopped.
        Appends (W.contents writer.old) (W.contents writer.new)
        (take stopped.sent (concat (map (λ p. p.now) pieces.now)))) }
    ensures counted { CountsFailure result (W.failures writer.old) (W.failures writer.new) }
{
    let mut sent: u64 = 0;
    for piece in pieces {
        match write_piece(writer, piece) {
            Ok(()) => sent += piece.len() as u64,
            Err(n) => return Err(Stopped {
                sent: sent + n as u64,
            }),
        }
    }
    Ok(())
}
