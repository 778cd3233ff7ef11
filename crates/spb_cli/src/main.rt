//! The program `spb`: a metric store that reads commands from standard input, a line each, and
//! writes a reply to each on standard output.
#![tactic(auto)]

ghost use Rattle.std.specs.Prelude.{◌≡◌, ◌≢◌, ◌⊎◌, None, map, IfErr, OnOk};
ghost use Rattle.std.specs.String.{string_bytes};
ghost use Rattle.std.specs.Io.KnownBytes.{Appends};
ghost use Rattle.std.specs.IoError.{error_kind};
ghost use Rattle.std.specs.Process.{exit_status};
ghost use Rattle.spb_top.specs.Words.{asked_of};
ghost use Rattle.spb_top.specs.Status.{code_of, status_text};

mod streams;

use file_disk::FileDisk;
use spb_edge::{Bytes, Disk, SureDisk};
use spb_top::{FileUse, Status, code, file_of, run, status_line};
use std::alloc::Global;
use std::env::Env;
use std::fs::{Files, OpenFile};
use std::io::{ErrorKind, Read, Write};
use std::os::unix::fs::FileExt;
use std::process::ExitCode;
use std::{env, io, str};
use streams::{StdSink, StdSource};

fn main(rt: HostRuntime) -> ExitCode {
    let status = match words(&rt) {
        Ok(words) => work(rt.alloc(), &rt, words.as_slice(), rt.stdin(), rt.stdout()),
        Err(status) => status,
    };
    end_with(rt.alloc(), &status, rt.stderr())
}

/// The arguments after the program's name.
fn words<R: Env + AllocGlobal>(rt: &R) -> Result<Vec<String>, Status>
    ensures refused { IfErr result (λ status. status ≡ Status.Usage ⊎ status ≡ Status.NoMemory) }
{
    let mut arguments = match env::args(rt) {
        Ok(arguments) => arguments,
        Err(error) => return Err(status_of(&error)),
    };
    let _program = arguments.next();
    match arguments.collect(rt.alloc()) {
        Ok(words) => Ok(words),
        Err(_) => Err(Status::NoMemory),
    }
}

/// What the program ends with if the arguments can't be read: they aren't text, or memory ran out.
fn status_of(error: &io::Error) -> Status
    ensures memory { error_kind error.now ≡ ErrorKind.OutOfMemory → result ≡ Status.NoMemory }
    ensures other { error_kind error.now ≢ ErrorKind.OutOfMemory → result ≡ Status.Usage }
{
    if error.kind() == ErrorKind::OutOfMemory {
        return Status::NoMemory;
    }
    Status::Usage
}

/// Runs the words over the streams and the file that they name, which is opened, or made if a store is to be made in it. A
/// file that can't be opened fails at each call.
fn work<F: FileExt + OpenFile + Drop, H: Files<File = F>, R: Read + Drop, W: Write + Drop>(
    alloc: Global,
    files: &H,
    words: &[String],
    reader: R,
    writer: W,
) -> Status
    ensures usage { result ≡ Status.Usage → asked_of (map string_bytes words.now) ≡ None }
    ensures others { asked_of (map string_bytes words.now) ≡ None → result ≡ Status.Usage ⊎ result ≡ Status.NoMemory }
{
    match file_of(alloc, words) {
        Ok(FileUse::None) => work_in_memory(alloc, words, reader, writer),
        Ok(FileUse::Old(name)) => {
            work_over(
                alloc,
                words,
                reader,
                writer,
                existing(files, name.as_slice()),
            )
        }
        Ok(FileUse::New(name)) => {
            work_over(alloc, words, reader, writer, made(files, name.as_slice()))
        }
        Err(_) => Status::NoMemory,
    }
}

/// The file of this name, which is there.
fn existing<F: FileExt + OpenFile + Drop, H: Files<File = F>>(
    files: &H,
    name: &[u8],
) -> FileDisk<F> {
    match str::from_utf8(name) {
        Ok(path) => FileDisk::open_existing(files, path),
        Err(_) => FileDisk::absent(),
    }
}

/// The file of this name, which is made if it isn't there.
fn made<F: FileExt + OpenFile + Drop, H: Files<File = F>>(files: &H, name: &[u8]) -> FileDisk<F> {
    match str::from_utf8(name) {
        Ok(path) => FileDisk::open_or_make(files, path),
        Err(_) => FileDisk::absent(),
    }
}

/// Runs words that name no file over the streams.
fn work_in_memory<R: Read + Drop, W: Write + Drop>(
    alloc: Global,
    words: &[String],
    reader: R,
    writer: W,
) -> Status
    ensures usage { result ≡ Status.Usage → asked_of (map string_bytes words.now) ≡ None }
    ensures others { asked_of (map string_bytes words.now) ≡ None → result ≡ Status.Usage ⊎ result ≡ Status.NoMemory }
{
    match SureDisk::new(alloc, &[]) {
        Ok(disk) => work_over(alloc, words, reader, writer, disk),
        Err(_) => Status::NoMemory,
    }
}

/// Runs the words over the streams and the disk.
fn work_over<R: Read + Drop, W: Write + Drop, D: Disk + Drop>(
    alloc: Global,
    words: &[String],
    reader: R,
    writer: W,
    disk: D,
) -> Status
    ensures usage { result ≡ Status.Usage → asked_of (map string_bytes words.now) ≡ None }
    ensures others { asked_of (map string_bytes words.now) ≡ None → result ≡ Status.Usage ⊎ result ≡ Status.NoMemory }
{
    let mut disk = disk;
    let mut input = StdSource::new(reader);
    let mut output = StdSink::new(writer);
    run(alloc, words, &mut input, &mut output, &mut disk)
}

/// What the program ends with. The line of the status is written first, if it has one; a failure to write it changes
/// nothing.
fn end_with<W: Write + Drop>(alloc: Global, status: &Status, writer: W) -> ExitCode
    ensures number { exit_status result ≡ code_of status.now }
{
    let mut writer = writer;
    let _ = report(alloc, status, &mut writer);
    ExitCode::from(code(status))
}

/// Writes the line of the status if it has one.
///
/// # Errors
///
/// `OutOfMemory` if there is no memory for the line, and otherwise the error of the write or of the flush,
/// before which a prefix of the line may have been written.
fn report<W: Write>(alloc: Global, status: &Status, writer: &mut W) -> io::Result<()>
    ensures line { OnOk result (Appends (W.contents writer.old) (W.contents writer.new) (status_text status.now)) }
{
    let Ok(mut line) = Bytes::of(alloc, &[]) else {
        return Err(io::Error::from(ErrorKind::OutOfMemory));
    };
    let Ok(()) = status_line(status, &mut line) else {
        return Err(io::Error::from(ErrorKind::OutOfMemory));
    };
    writer.write_all(line.as_slice())?;
    writer.flush()
}

#[cfg(test)]
mod tests {
    use super::*;
    use std::alloc::AllocError;
    use std::env::FillError;

    /// Arguments, the program's name first.
    #[derive(Drop)]
    struct Arguments<'a>(&'a [&'a [u8]]);

    impl Env for Arguments<'_> {
        fn arg(&self, i: usize, buf: &mut [u8]) -> Result<usize, FillError> {
            let Some(argument) = self.0.get(i) else {
                return Err(FillError::NotPresent);
            };
            let count = argument.len();
            if buf.len() < count {
                return Err(FillError::TooLong);
            }
            buf[..count].copy_from_slice(argument);
            Ok(count)
        }

        fn var(&self, _name: &str, _buf: &mut [u8]) -> Result<usize, FillError> {
            Err(FillError::NotPresent)
        }

        fn var_at(&self, _i: usize, _buf: &mut [u8]) -> Result<usize, FillError> {
            Err(FillError::NotPresent)
        }
    }

    /// A reader that gives its bytes, and then fails.
    #[derive(Drop)]
    struct Torn<'a>(&'a [u8]);

    impl Read for Torn<'_> {
        fn read(&mut self, buf: &mut [u8]) -> io::Result<usize> {
            if self.0.is_empty() {
                return Err(io::Error::from(ErrorKind::Other));
            }
            self.0.read(buf)
        }
    }

    #[test]
    fn words_are_the_arguments_after_the_name(rt: HostRuntime) {
        let names = Arguments(&[b"spb", b"mem", b""]);
        match words(&(names, rt.alloc())) {
            Ok(words) => {
                assert_eq!(rt; words.len(), 2);
                assert_eq!(rt; words[0].as_str(), "mem");
                assert_eq!(rt; words[1].as_str(), "");
            }
            Err(_) => assert!(rt; false),
        }
    }

    #[test]
    fn an_argument_that_is_no_text_is_usage(rt: HostRuntime) {
        let names = Arguments(&[b"spb", b"mem", b"\xff"]);
        assert!(rt; matches!(words(&(names, rt.alloc())), Err(Status::Usage)));
    }

    #[test]
    fn the_line_of_a_status_is_written(rt: HostRuntime) {
        let mut text = Vec::new(rt.alloc());
        assert!(rt; end_with(rt.alloc(), &Status::Done, &mut text) == ExitCode::SUCCESS);
        assert!(rt; text.is_empty());
        assert!(rt; end_with(rt.alloc(), &Status::Usage, &mut text) == ExitCode::from(2));
        assert!(rt; text.as_slice() == b"spb: usage\n".as_slice());
    }

    #[test]
    fn streams_that_fail_end_the_run(rt: HostRuntime) -> Result<(), AllocError> {
        let words = vec![in rt.alloc();
            String::from_str(rt.alloc(), "mem")?,
            String::from_str(rt.alloc(), "l1")?,
            String::from_str(rt.alloc(), "2")?,
            String::from_str(rt.alloc(), "255")?,
        ]?;
        let line = b"add 0 1 0,0\n".as_slice();
        let mut text = Vec::new(rt.alloc());
        let torn = work(rt.alloc(), &rt, words.as_slice(), Torn(line), &mut text);
        assert!(rt; matches!(torn, Status::ReadFault));
        assert!(rt; text.as_slice() == b"ok\n".as_slice());
        let mut none = [0u8; 0];
        let full = work(rt.alloc(), &rt, words.as_slice(), line, none.as_mut_slice());
        assert!(rt; matches!(full, Status::WriteFault));
        let mut text = Vec::new(rt.alloc());
        let done = work(rt.alloc(), &rt, words.as_slice(), line, &mut text);
        assert!(rt; matches!(done, Status::Done));
        assert!(rt; text.as_slice() == b"ok\n".as_slice());
        Ok(())
    }
}
