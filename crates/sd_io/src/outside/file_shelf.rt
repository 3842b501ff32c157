//! The files of the system as a shelf.
ghost use Rattle.std.specs.Prelude.{◌≡◌, ◌≤◌, None, Some, true, false, IsTrue, OnOk, OnErr};
ghost use Rattle.std.specs.Io.{ReadsAtMost};
ghost use Rattle.std.specs.Io.KnownBytes.{ReadConsumes, IsAtEnd};
ghost use Rattle.sd_io.specs.outside.Causes.{HasCause, raised};
ghost use Rattle.sd_io.specs.outside.Counts.{faults_after};
ghost use Rattle.sd_io.specs.outside.Reasons.{FailsFor, FileFails, IsFileNamed};
ghost use Rattle.sd_io.specs.outside.LastFaults.{KeepsFault};
ghost use Rattle.sd_io.specs.outside.Rests.{RestIs};

use crate::outside::again::{open_file, read_file};
use crate::outside::shelf::{Failed, Shelf};
use crate::outside::system::SystemFiles;
use std::io;
use std::marker::Model;

/// A call on a file that failed.
#[derive(Clone, Copy, Debug)]
pub struct LastFault {
    /// Which file it was: 1 is the first that a `begin` named.
    pub file: u64,
    /// The system's reason.
    pub reason: io::Error,
}

/// The files of the system, under their paths. It tells nothing of what they hold.
#[derive(Drop)]
pub struct FileShelf<F: SystemFiles> {
    files: F,
    file: Option<F::File>,
    /// How many times `begin` was called, which is the number of the file that it named last.
    begins: u64,
    last_fault: Option<LastFault>,
    faults: u64,
}

impl<F: SystemFiles> Model for FileShelf<F> {
    ghost use Rattle.std.specs.Prelude.{is_some, option_and_then};
    ghost use Rattle.sd_io.specs.outside.System.{Opened};

    ghost Value = { Opened F F.File };

    ghost view = { λ s. record {
      files = s.files;
      file = s.file;
      begun = is_some s.file;
      left = option_and_then F.File.SystemFile.left s.file;
      begins = s.begins;
      last_fault = s.last_fault;
      faults = s.faults;
    } };
}

impl<F: SystemFiles> FileShelf<F> {
    pub fn new(files: F) -> FileShelf<F>
        ensures faults { ⟦<FileShelf<F> as Shelf>⟧.faults result ≡ 0 }
        ensures begun { ⟦<FileShelf<F> as Shelf>⟧.begun result ≡ false }
        ensures begins { result.begins ≡ 0 }
        ensures last_fault { result.last_fault ≡ None }
    {
        FileShelf {
            files,
            file: None,
            begins: 0,
            last_fault: None,
            faults: 0,
        }
    }

    /// The last call that failed, and nothing before the first.
    pub fn last_fault(&self) -> Option<LastFault>
        ensures { result ≡ self.now.last_fault }
    {
        self.last_fault
    }

    /// Keeps why a call on the file failed that `begin` named last.
    fn fail(&mut self, reason: io::Error) -> Failed
        ensures files { self.new.files ≡ self.old.files }
        ensures file { self.new.file ≡ self.old.file }
        ensures begun { self.new.begun ≡ self.old.begun }
        ensures left { self.new.left ≡ self.old.left }
        ensures begins { self.new.begins ≡ self.old.begins }
        ensures last_fault { self.new.last_fault
            ≡ Some (record { file = self.old.begins; reason = reason }) }
        ensures faults { self.new.faults ≡ raised self.old.faults }
        ensures later { self.old.faults ≤ self.new.faults }
    {
        self.last_fault = Some(LastFault {
            file: self.begins,
            reason,
        });
        self.faults = self.faults.saturating_add(1);
        Failed
    }
}

impl<F: SystemFiles> Shelf for FileShelf<F> {
    ghost serves = { λ s name. true };

    ghost begun = { λ s. s.begun };

    ghost held = { λ s. None };

    ghost rest = { λ s. None };

    ghost faults = { λ s. s.faults };

    fn begin(&mut self, name: &str) -> Result<(), Failed>
        ensures text { OnOk result (RestIs None name.now None) }
        ensures begun { OnOk result (IsTrue self.new.begun) }
        ensures failed { OnErr result ((self.new.begun ≡ false) × IsAtEnd None) }
        ensures cause { HasCause self.old.faults self.new.faults result }
        ensures faults { self.new.faults ≡ faults_after self.old.faults result }
        ensures begins { self.new.begins ≡ raised self.old.begins }
        // The file that is read from here on is one that the system opened by this name.
        ensures opened { OnOk result (IsFileNamed F.refuses F.opens name.now
            self.old.files self.new.file self.new.files) }
        ensures last_fault { KeepsFault
            (λ reason. FailsFor (λ old e new. F.refuses old name.now e new)
            self.old.files reason self.new.files)
            self.new.begins self.old.last_fault self.new.last_fault result }
    {
        self.begins = self.begins.saturating_add(1);
        // The last file is closed before the next is opened, so one descriptor is enough.
        self.file = None;
        match open_file(&mut self.files, name) {
            Ok(file) => {
                self.file = Some(file);
                Ok(())
            }
            Err(reason) => Err(self.fail(reason)),
        }
    }

    fn read(&mut self, buf: &mut [u8]) -> Result<usize, Failed>
        requires { IsTrue self.old.begun }
        ensures bound { ReadsAtMost result buf.new }
        ensures bytes { ReadConsumes None None result buf.new }
        // The file itself, where its type tells what it has left.
        ensures file_bytes { ReadConsumes self.old.left self.new.left result buf.new }
        ensures begun { IsTrue self.new.begun }
        ensures cause { HasCause self.old.faults self.new.faults result }
        ensures faults { self.new.faults ≡ faults_after self.old.faults result }
        ensures begins { self.new.begins ≡ self.old.begins }
        ensures last_fault { KeepsFault
            (λ reason. FileFails F.File.SystemFile.fails self.old.file reason self.new.file)
            self.new.begins self.old.last_fault self.new.last_fault result }
    {
        let count = match &mut self.file {
            Some(file) => read_file(file, buf),
            None => unreachable!(),
        };
        match count {
            Ok(count) => Ok(count),
            Err(reason) => Err(self.fail(reason)),
        }
    }
}

#[cfg(test)]
mod tests {
    use super::*;
    use std::fs;
    use std::io::{ErrorKind, Read};
    use std::process::Abort;
    use std::test::Fail;

    /// Which file the last fault was of, and its kind.
    fn seen<F: SystemFiles>(shelf: &FileShelf<F>) -> Option<(u64, ErrorKind)> {
        let LastFault { file, reason } = shelf.last_fault()?;
        Some((file, reason.kind()))
    }

    /// A text is begun. What the shelf says is compared, so no more is promised.
    fn begin<F: SystemFiles>(shelf: &mut FileShelf<F>, name: &str) -> Result<(), Failed>
        ensures { OnOk result (IsTrue shelf.new.begun) }
    {
        shelf.begin(name)
    }

    /// A read of at most four bytes gives these.
    fn assert_read<F: SystemFiles>(
        rt: &impl Abort,
        shelf: &mut FileShelf<F>,
        wanted: Result<&[u8], Failed>,
    )
        requires { IsTrue shelf.old.begun }
        ensures { IsTrue shelf.new.begun }
    {
        let mut buf = [0; 4];
        match shelf.read(&mut buf) {
            Ok(count) => assert_eq!(rt; Ok(&buf[..count]), wanted),
            Err(Failed) => assert_eq!(rt; wanted, Err(Failed)),
        }
    }

    /// This many calls have failed, the last of this file and for this reason.
    fn assert_faults<F: SystemFiles>(
        rt: &impl Abort,
        shelf: &FileShelf<F>,
        faults: u64,
        last: Option<(u64, ErrorKind)>,
    ) {
        assert_eq!(rt; shelf.faults, faults);
        assert_eq!(rt; seen(shelf), last);
    }

    /// A file is read to its end.
    fn assert_reads_file<F: SystemFiles>(
        rt: &impl Abort,
        shelf: &mut FileShelf<F>,
        name: &str,
    ) -> Result<(), Fail> {
        begin(shelf, name)?;
        assert_read(rt, shelf, Ok(b"one ".as_slice()));
        assert_read(rt, shelf, Ok(b"two".as_slice()));
        assert_read(rt, shelf, Ok(b"".as_slice()));
        assert_faults(rt, shelf, 0, None);
        Ok(())
    }

    /// A folder is begun as a file is, and cannot be read.
    fn assert_refuses_folder<F: SystemFiles>(
        rt: &impl Abort,
        shelf: &mut FileShelf<F>,
        name: &str,
    ) -> Result<(), Fail> {
        begin(shelf, name)?;
        assert_faults(rt, shelf, 1, Some((2, ErrorKind::NotFound)));
        assert_read(rt, shelf, Err(Failed));
        assert_faults(rt, shelf, 2, Some((3, ErrorKind::IsADirectory)));
        Ok(())
    }

    #[test]
    fn reads_a_file_and_counts_a_missing_one(rt: HostRuntime) -> Result<(), Fail> {
        let name = "file_shelf_test.txt";
        fs::write(&rt, name, "one two")?;
        let mut shelf = FileShelf::new(&rt);
        assert_reads_file(&rt, &mut shelf, name)?;
        fs::remove_file(&rt, name)?;
        assert_eq!(rt; begin(&mut shelf, name), Err(Failed));

        let name = "file_shelf_test";
        fs::create_dir(&rt, name)?;
        assert_refuses_folder(&rt, &mut shelf, name)?;
        fs::remove_dir(&rt, name)?;
        Ok(())
    }

    /// A file in which nothing stands.
    #[derive(Drop)]
    struct Nothing;

    impl Read for Nothing {
        fn read(&mut self, _buf: &mut [u8]) -> io::Result<usize> {
            Ok(0)
        }
    }

    /// A system whose first and third openings are interrupted. The second and the fourth fail.
    #[derive(Drop)]
    struct Refusing {
        calls: u32,
    }

    impl SystemFiles for Refusing {
        type File = Nothing;

        ghost refuses = { λ old name reason new. Unit {0} };

        ghost opens = { λ old name file new. Unit {0} };

        fn open_once(&mut self, _name: &str) -> io::Result<Nothing> {
            self.calls = self.calls.saturating_add(1);
            match self.calls {
                2 => Err(io::Error::from(ErrorKind::NotFound)),
                4 => Err(io::Error::from(ErrorKind::PermissionDenied)),
                5 => Ok(Nothing),
                _ => Err(io::Error::from(ErrorKind::Interrupted)),
            }
        }
    }

    #[test]
    fn opens_again_and_keeps_the_last_reason(rt: HostRuntime) -> Result<(), Fail> {
        let mut shelf = FileShelf::new(Refusing { calls: 0 });
        assert_eq!(rt; begin(&mut shelf, "a"), Err(Failed));
        assert_eq!(rt; seen(&shelf), Some((1, ErrorKind::NotFound)));
        assert_eq!(rt; begin(&mut shelf, "a"), Err(Failed));
        let denied = Some((2, ErrorKind::PermissionDenied));
        assert_eq!(rt; seen(&shelf), denied);
        begin(&mut shelf, "b")?;
        assert_read(&rt, &mut shelf, Ok(b"".as_slice()));
        assert_eq!(rt; seen(&shelf), denied);
        Ok(())
    }
}
