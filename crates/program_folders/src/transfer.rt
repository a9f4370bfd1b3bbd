// Octets between files and buffers.
ghost use Rattle.std.specs.Prelude.{◌≡◌, ◌≤◌, ◌-◌, ◌++◌, length, take, drop, min, IfOk, OnOk, OnErr};
ghost use Rattle.std.specs.Io.KnownBytes.{Appends};
ghost use Rattle.frame_check.specs.Octets.{AreOctets};
ghost use Rattle.program_folders.specs.Transfer.{AppendsPart, ReadsUp};

use outside_calls::FolderFault;
use std::io::{self, ErrorKind, Read, Seek, SeekFrom, Write};

/// Fills the front of `buf` with the octets from `at` on, and answers how many.
pub fn copy_from(octets: &[u8], at: u64, buf: &mut [u8]) -> usize
    ensures count { result ≡ min (length buf.old) (length octets.now - at) }
    ensures front { buf.new ≡ take result (drop at octets.now) ++ drop result buf.old }
    ensures octets { AreOctets octets.now }
{
    let len = octets.len();
    let start = if at < len as u64 { at as usize } else { len };
    let count = (len - start).min(buf.len());
    buf[..count].copy_from_slice(&octets[start..start + count]);
    count
}

/// Reads until the buffer is full or the reader is at its end, and answers how many octets.
pub fn fill<R: Read>(reader: &mut R, buf: &mut [u8]) -> io::Result<usize>
    ensures bound { IfOk result (λ count. count ≤ length buf.old) }
    ensures octets { IfOk result (λ count. ReadsUp (R.remaining reader.old) (R.remaining reader.new) (length buf.new) (take count buf.new)) }
{
    let mut filled = 0;
    while filled < buf.len() {
        let count = reader.read(&mut buf[filled..])?;
        if count == 0 {
            break;
        }
        filled += count;
    }
    Ok(filled)
}

/// Fills the buffer from a place on, as far as the reader goes, and answers how many octets.
pub(crate) fn fill_from<R: Read + Seek>(
    reader: &mut R,
    at: u64,
    buf: &mut [u8],
) -> Result<usize, FolderFault>
    ensures bound { IfOk result (λ count. count ≤ length buf.old) }
{
    reader.seek(SeekFrom::Start(at))?;
    Ok(fill(reader, buf)?)
}

/// Writes the whole piece. A write that takes nothing of a piece that isn't empty is a fault.
pub fn write_all<W: Write>(writer: &mut W, piece: &[u8]) -> io::Result<()>
    ensures ok { OnOk result (Appends (W.contents writer.old) (W.contents writer.new) piece.now) }
    ensures err { OnErr result (AppendsPart (W.contents writer.old) (W.contents writer.new) piece.now) }
{
    let mut written = 0;
    while written < piece.len() {
        let count = writer.write(&piece[written..])?;
        if count == 0 {
            return Err(io::Error::from(ErrorKind::WriteZero));
        }
        written += count;
    }
    Ok(())
}

/// Writes the whole piece, for a folder.
pub(crate) fn put_all<W: Write>(writer: &mut W, piece: &[u8]) -> Result<(), FolderFault>
    ensures ok { OnOk result (Appends (W.contents writer.old) (W.contents writer.new) piece.now) }
    ensures err { OnErr result (AppendsPart (W.contents writer.old) (W.contents writer.new) piece.now) }
{
    match write_all(writer, piece) {
        Ok(()) => Ok(()),
        Err(error) => Err(FolderFault::from(error)),
    }
}
