//! The studio of a run that begins with the gains of a file.
use crate::fault::ProgramFault;
use crate::live_host::LiveHost;
use crate::opening::{OpenedStudio, open_studio, refuse_yield};
use command_line::LiveArgs;
use file_commands::{changed_studio, is_one_file, parse_studio, read_gains};
use std::alloc::Global;
use std::time::Clock;

/// Returns the studio of a configuration's octets, opened as `open_studio` does, whose gains change as the file of
/// `--gains` says, if there is one. Returns the first fault: of the configuration, of `--yield`, of a file that
/// cannot be read, of the offset or of a clock, or of the file's lines.
pub(crate) fn open_begun_studio<R: Clock, H: LiveHost>(
    rt: &R,
    alloc: Global,
    config: &[u8],
    args: LiveArgs<'_>,
    host: &H,
) -> Result<OpenedStudio, ProgramFault> {
    let studio = parse_studio(alloc, config)?;
    refuse_yield(&studio, args.options.yield_seconds)?;
    // Before the opening, which a slow disk would otherwise delay: the run would begin behind its own time.
    let text = gains_text(alloc, args, host)?;
    let opened = open_studio(rt, alloc, studio, args)?;
    match text {
        Some(text) => with_gains(alloc, opened, text.as_slice()),
        None => Ok(opened),
    }
}

/// Returns the opened studio whose gains change as a text says.
// After the opening: the times of a text are media times of the run, and the changes that a configuration plans move
// with the opening.
fn with_gains(
    alloc: Global,
    opened: OpenedStudio,
    text: &[u8],
) -> Result<OpenedStudio, ProgramFault> {
    let studio = changed_studio(alloc, &opened.studio, text)?;
    Ok(OpenedStudio { studio, ..opened })
}

/// Returns the octets of the file of `--gains`, or `None` if the run begins with the gains of its configuration.
fn gains_text<H: LiveHost>(
    alloc: Global,
    args: LiveArgs<'_>,
    host: &H,
) -> Result<Option<Vec<u8>>, ProgramFault> {
    match args.gains {
        Some(path) if !is_still_to_come(host, path, args.keep_gains) => {
            Ok(Some(read_gains(host, alloc, path)?))
        }
        _ => Ok(None),
    }
}

/// Returns true if there is nothing at the path of `--gains` yet, and the run itself is to write the file there.
// So that one command serves for the first start and for each later one.
fn is_still_to_come<H: LiveHost>(host: &H, path: &str, kept: Option<&str>) -> bool {
    match kept {
        Some(kept) => !host.has(path) && is_one_file(host, path, kept),
        None => false,
    }
}
