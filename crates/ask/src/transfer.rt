// Bytes from a reader and to a writer: a call that moves fewer bytes than it is handed is gone on from, and one that a signal interrupts is made again.
ghost use Rattle.std.specs.Prelude.{◌≡◌, ◌↔◌, ◌≤◌, IfOk, IsTrue, drop, length};
ghost use Rattle.std.specs.IoError.{error_kind};
ghost use Rattle.std.specs.Io.KnownBytes.{WriteAppends};
ghost use Rattle.io.specs.Counts.{IsPrefixLen};
ghost use Rattle.ask.specs.Transfer.{read_count, file_read_of, ReadsOn, ReadsOnce, ReadsFront, WritesFront};

use std::io;
use std::io::{ErrorKind, Read, Write};

// How often in a row a call may be interrupted before it counts as failed: every loop has to end.
const PATIENCE: usize = 1_000_000;

// Whether a call that failed was interrupted: then it moved nothing, and may be made again.
fn is_interrupted(error: &io::Error) -> bool
    ensures { IsTrue result ↔ (error_kind error.now ≡ ErrorKind.Interrupted) }
{
    error.kind() == ErrorKind::Interrupted
}

// One write: how many bytes it took. One that failed took none.
fn write_some<W: Write>(writer: &mut W, bytes: &[u8]) -> io::Result<usize>
    ensures counts { IfOk result (λ n. IsPrefixLen n bytes.now) }
    ensures writes { WriteAppends (W.contents writer.old) (W.contents writer.new) result bytes.now }
{
    for _ in 1..PATIENCE {
        match writer.write(bytes) {
            Err(error) if is_interrupted(&error) => {}
            taken => return taken,
        }
    }
    writer.write(bytes)
}

// Writes the bytes, and answers how many were taken: all of them, or fewer where a write took none. Where a write failed, some were taken.
pub fn write_whole<W: Write>(writer: &mut W, bytes: &[u8]) -> io::Result<usize>
    ensures counts { IfOk result (λ n. IsPrefixLen n bytes.now) }
    ensures writes { WritesFront (W.contents writer.old) (W.contents writer.new) bytes.now result }
{
    let mut done = 0;
    // no `for`: a write takes as many bytes as it will
    while done < bytes.len() {
        let taken = write_some(writer, &bytes[done..])?;
        if taken == 0 {
            return Ok(done);
        }
        done += taken;
    }
    Ok(done)
}

// What a read into these bytes said by its answer.
fn file_read_of(got: io::Result<usize>, bytes: &[u8]) -> io::Result<usize>
    ensures reads { result ≡ file_read_of got (length bytes.now) }
    ensures counts { IsPrefixLen (read_count result) bytes.now }
{
    Ok(got?.min(bytes.len()))
}

// One read; at the file's end it reads 0 bytes. One that failed reads none.
fn read_some<R: Read>(reader: &mut R, bytes: &mut [u8]) -> io::Result<usize>
    ensures counts { IsPrefixLen (read_count result) bytes.new }
    ensures reads { ReadsOnce (R.remaining reader.old) (R.remaining reader.new) bytes.new result }
{
    for _ in 1..PATIENCE {
        match reader.read(bytes) {
            Err(error) if is_interrupted(&error) => {}
            got => return file_read_of(got, bytes),
        }
    }
    let got = reader.read(bytes);
    file_read_of(got, bytes)
}

// One read behind the bytes that were read before, which stay.
fn read_on<R: Read>(reader: &mut R, bytes: &mut [u8], done: usize) -> io::Result<usize>
    requires { done ≤ length bytes.old }
    ensures on { ReadsOn done bytes.old bytes.new result }
    ensures reads { ReadsOnce (R.remaining reader.old) (R.remaining reader.new) (drop done bytes.new) result }
{
    read_some(reader, &mut bytes[done..])
}

// Reads until the file ends or the buffer is full. Where a read failed, what was read before stands at the front.
pub fn read_file<R: Read>(reader: &mut R, bytes: &mut [u8]) -> io::Result<usize>
    ensures counts { IsPrefixLen (read_count result) bytes.new }
    ensures reads { ReadsFront (R.remaining reader.old) (R.remaining reader.new) bytes.new result }
{
    let mut done = 0;
    // no `for`: a read brings as many bytes as it will
    while done < bytes.len() {
        let more = read_on(reader, bytes, done)?;
        if more == 0 {
            return Ok(done);
        }
        done += more;
    }
    Ok(done)
}
