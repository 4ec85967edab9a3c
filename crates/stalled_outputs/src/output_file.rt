//! The files and FIFOs of the outputs.
ghost use Rattle.stalled_outputs.specs.Failing.{ends_output as ends_output_lem};
ghost use Rattle.std.specs.Prelude.{◌≡◌};

use journal::{failure_text, tell};
use output_watchdog::{PatientWriter, Reopening};
use std::alloc::{AllocError, Global};
use std::io::{ErrorKind, Write};
use std::rt::Files;
use std::sync::Wait;
use std::{fs, io};

/// A path that is opened at its first write; a fault of opening is that write's. A fault after which the
/// output is off is told on standard error.
#[derive(Drop)]
pub struct OutputFile<F: Files + Drop> {
    files: F,
    alloc: Global,
    /// The output's number.
    output: usize,
    path: String,
    /// Whether the output has patience: then it goes on after some faults.
    is_patient: bool,
    file: Option<F::File>,
}

impl<F: Files + Drop> OutputFile<F>
where
    F::File: Drop,
{
    ghost use Rattle.std.specs.Prelude.{◌≡◌, None};

    /// A path that is not open, of the output of this number.
    pub fn new(
        files: F,
        alloc: Global,
        output: usize,
        path: String,
        is_patient: bool,
    ) -> OutputFile<F>
        ensures path { (result.output ≡ output) × (result.path ≡ path) }
        ensures patience { result.is_patient ≡ is_patient }
        ensures closed { result.file ≡ None }
    {
        OutputFile {
            files,
            alloc,
            output,
            path,
            is_patient,
            file: None,
        }
    }
}

impl<F: Files + Eprint + Drop> OutputFile<F>
where
    F::File: Write + Drop,
{
    ghost use Rattle.std.specs.Io.{WritesAtMost};

    /// Writes to the path, which is opened where it is not open.
    fn write_on(&mut self, buf: &[u8]) -> io::Result<usize>
        ensures bound { WritesAtMost result buf.now }
    {
        if let Some(file) = &mut self.file {
            return file.write(buf);
        }
        let mut file = fs::create(&self.files, self.path.as_str())?;
        let written = file.write(buf);
        self.file = Some(file);
        written
    }

    /// Tells of a fault after which the output is off.
    fn tell_of(&self, fault: &io::Error) {
        if ends_output(fault.kind(), self.is_patient) {
            if let Ok(line) = self.line_of(fault) {
                tell(&self.files, line.as_str());
            }
        }
    }

    fn line_of(&self, fault: &io::Error) -> Result<String, AllocError> {
        let why = format!(in self.alloc; "{fault}")?;
        failure_text(self.alloc, self.output, self.path.as_str(), why.as_str())
    }
}

/// Whether an output is off after a fault of this kind. One with patience waits where its reader went away or
/// its path has no room.
fn ends_output(kind: ErrorKind, is_patient: bool) -> bool
    ensures { result ≡ ends_output_lem is_patient kind }
{
    !is_patient
        || !matches!(
            kind,
            ErrorKind::Interrupted | ErrorKind::BrokenPipe | ErrorKind::WouldBlock
        )
}

impl<F: Files + Eprint + Drop> Write for OutputFile<F>
where
    F::File: Write + Drop,
{
    fn write(&mut self, buf: &[u8]) -> io::Result<usize> {
        let written = self.write_on(buf);
        if let Err(fault) = &written {
            self.tell_of(fault);
        }
        written
    }

    fn flush(&mut self) -> io::Result<()> {
        match &mut self.file {
            Some(file) => file.flush(),
            None => Ok(()),
        }
    }
}

impl<F: Files + Eprint + Drop> Reopening for OutputFile<F>
where
    F::File: Write + Drop,
{
    fn let_go(&mut self) {
        self.file = None;
    }
}

/// What an output writes to.
#[derive(Drop)]
pub enum OutputPath<F: Files + Drop, R: Wait + Copy> {
    /// Its path, for which it waits.
    Direct(OutputFile<F>),
    /// A ring, from which a thread of its own writes to the path.
    Patient(PatientWriter<R>),
}

impl<F: Files + Eprint + Drop, R: Wait + Copy> Write for OutputPath<F, R>
where
    F::File: Write + Drop,
{
    fn write(&mut self, buf: &[u8]) -> io::Result<usize> {
        match self {
            OutputPath::Direct(file) => file.write(buf),
            OutputPath::Patient(writer) => writer.write(buf),
        }
    }

    fn flush(&mut self) -> io::Result<()> {
        match self {
            OutputPath::Direct(file) => file.flush(),
            OutputPath::Patient(writer) => writer.flush(),
        }
    }
}
