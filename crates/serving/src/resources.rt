//! What the house's threads work with.
ghost use Rattle.std.specs.Prelude.{◌≡◌, ◌≤◌, IfOk, string_bytes, vec_len};
ghost use Rattle.stalled_outputs.specs.Through.{AreForPatience};

use crate::folder::FolderScanner;
use counted_devices::Counting;
use crew_steps::Folder;
use settings::Settings;
use stalled_outputs::{OutputPath, OutputPaths, PatientPath, output_paths};
use std::alloc::AllocError;
use std::sync::Wait;
use std::thread::Threads;
use std::time::Clock;

/// What the outputs write to, where the songs are had, and who finds them anew.
#[derive(Drop)]
pub(crate) struct ThreadResources<O, N, C> {
    pub(crate) writers: Vec<O>,
    pub(crate) source: N,
    pub(crate) scanner: C,
    /// What the outputs with patience write through.
    pub(crate) patient: Vec<Option<PatientPath>>,
    ghost few: { vec_len writers ≤ 8 },
}

/// The resources of a daemon over the files of the system.
pub(crate) type FileResources<R> = ThreadResources<
    Counting<OutputPath<HostRuntime, R>>,
    Folder<HostRuntime>,
    FolderScanner<HostRuntime>,
>;

/// The files and the folder that settings name.
pub(crate) fn resources_of<R: Threads + Wait + Clock + Copy + Send + 'static>(
    rt: R,
    host: HostRuntime,
    settings: &Settings,
) -> Result<FileResources<R>, AllocError>
    requires { vec_len settings.now.outputs ≤ 8 }
    // Clients have the folder of the music scanned again, at its rate and in the profile of the settings.
    ensures folder { IfOk result (λ r. string_bytes r.scanner.folder ≡ string_bytes settings.now.music) }
    ensures rate { IfOk result (λ r. r.scanner.rate ≡ settings.now.rate) }
    ensures everyday { IfOk result (λ r. r.scanner.everyday ≡ settings.now.everyday) }
    ensures writers { IfOk result (λ r. vec_len r.writers ≡ vec_len settings.now.outputs) }
    ensures patient { IfOk result (λ r. AreForPatience r.patient.items settings.now.outputs.items) }
{
    let alloc = host.alloc();
    let scanned = String::from_str(alloc, settings.music.as_str())?;
    let played = String::from_str(alloc, settings.music.as_str())?;
    let OutputPaths { writers, patient } = output_paths(rt, host, &settings.outputs)?;
    Ok(ThreadResources {
        writers,
        source: Folder::new(host, played),
        scanner: FolderScanner::new(host, scanned, settings.rate.copied(), settings.everyday),
        patient,
    })
}
