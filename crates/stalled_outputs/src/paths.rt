//! What the outputs write to, and the threads that write for those with patience.
ghost use Rattle.std.specs.Prelude.{◌≡◌, IfOk, is_some, length, vec_len};
ghost use Rattle.stalled_outputs.specs.Through.{AreForPatience};

use crate::output_file::{OutputFile, OutputPath};
use counted_devices::Counting;
use output_watchdog::{
    PathWriterArguments, PatientWriter, SharedTally, copy_to_path, path_channel,
};
use settings::OutputSettings;
use std::alloc::{AllocError, Global};
use std::sync::{Arc, Wait};
use std::thread::{self, Threads};
use std::time::Clock;

/// What an output with patience writes through.
#[derive(Drop)]
pub struct PatientPath {
    pub(crate) tally: Arc<SharedTally, Global>,
    pub(crate) path: String,
    /// For how many seconds the path may take nothing.
    pub(crate) seconds: u32,
}

/// What each output writes to, and beside it what it writes through where it has patience.
#[derive(Drop)]
pub struct OutputPaths<R: Wait + Copy> {
    /// One for each output, in their order.
    pub writers: Vec<Counting<OutputPath<HostRuntime, R>>>,
    /// As many, none where an output has no patience.
    pub patient: Vec<Option<PatientPath>>,
}

/// What each output writes to. Where one has patience, the thread is started that writes to its path.
pub fn output_paths<R: Threads + Wait + Clock + Copy + Send + 'static>(
    rt: R,
    host: HostRuntime,
    outputs: &[OutputSettings],
) -> Result<OutputPaths<R>, AllocError>
    ensures writers { IfOk result (λ paths. vec_len paths.writers ≡ length outputs.now) }
    ensures patient { IfOk result (λ paths. AreForPatience paths.patient.items outputs.now) }
{
    let mut writers = Vec::new(host.alloc());
    let mut patient = Vec::new(host.alloc());
    'outputs: for output in outputs {
        let (path, through) = output_path(rt, host, writers.len(), output)?;
        writers.push(Counting::new(path))?;
        patient.push(through)?;
    }
    Ok(OutputPaths { writers, patient })
}

/// What an output writes to, and what it writes through where it has patience.
fn output_path<R: Threads + Wait + Clock + Copy + Send + 'static>(
    rt: R,
    host: HostRuntime,
    number: usize,
    output: &OutputSettings,
) -> Result<(OutputPath<HostRuntime, R>, Option<PatientPath>), AllocError>
    ensures { IfOk result (λ path. is_some path.1 ≡ is_some output.now.patience) }
{
    let alloc = host.alloc();
    let path = String::from_str(alloc, output.path.as_str())?;
    match output.patience {
        None => {
            let file = OutputFile::new(host, alloc, number, path, false);
            Ok((OutputPath::Direct(file), None))
        }
        Some(seconds) => {
            let (writer, through) = patient_path(rt, host, number, path, seconds)?;
            Ok((OutputPath::Patient(writer), Some(through)))
        }
    }
}

/// A ring before a path, and the thread that writes from the one to the other. Nobody joins the thread: it may wait
/// for the path for ever, and ends with the process.
fn patient_path<R: Threads + Wait + Clock + Copy + Send + 'static>(
    rt: R,
    host: HostRuntime,
    number: usize,
    path: String,
    seconds: u32,
) -> Result<(PatientWriter<R>, PatientPath), AllocError> {
    let tally = Arc::new(host.alloc(), SharedTally::new())?;
    let (writer, arguments) = path_channel(rt, host.alloc(), &tally)?;
    let own = String::from_str(host.alloc(), path.as_str())?;
    let file = OutputFile::new(host, host.alloc(), number, own, true);
    start_path_writer(rt, arguments, file)?;
    Ok((
        writer,
        PatientPath {
            tally,
            path,
            seconds,
        },
    ))
}

fn start_path_writer<R: Threads + Wait + Clock + Copy + Send + 'static>(
    rt: R,
    arguments: PathWriterArguments,
    path: OutputFile<HostRuntime>,
) -> Result<(), AllocError> {
    let _detached = thread::spawn(&rt, move || copy_to_path(&rt, arguments, path))?;
    Ok(())
}
