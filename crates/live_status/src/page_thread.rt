//! The server of a run's page, which runs in a thread of its own, and the error of a page that cannot be opened.

use rtrb::{Producer, RingBuffer};
use status_page::{
    Control, ControlPage, GainRequester, Page, PageServer, RingSource, RunFacts, Snapshot,
    serve_page,
};
use std::alloc::{AllocError, AllocFailed, Global};
use std::hash::RandomState;
use std::io;
use std::io::ErrorKind;
use std::net::{Net, SocketAddr};
use std::random::RandomSource;
use std::sync::Wait;
use std::time::Clock;
use thiserror::Error;

/// The greatest number of snapshots that wait for the page.
// Few are enough: the page uses only the newest, and the run drops one that finds no space.
const MAX_SNAPSHOTS: usize = 4;

/// The error of a page that cannot be opened.
#[derive(Clone, Copy, Debug, PartialEq, Eq, Error)]
pub enum PageFault {
    /// An allocation failed.
    #[error("out of memory")]
    Memory,
    /// The port of the page could not be bound.
    #[error("device: socket page")]
    Page,
}

impl From<AllocError> for PageFault {
    fn from(_fault: AllocError) -> PageFault {
        PageFault::Memory
    }
}

impl<T: Drop> From<AllocFailed<T>> for PageFault {
    fn from(_refused: AllocFailed<T>) -> PageFault {
        PageFault::Memory
    }
}

/// The server of a run's page, with the page, the ring from which its snapshots come, and the control of the run's
/// gains, if the page has it.
#[derive(Drop)]
pub struct PageThread<D: GainRequester> {
    server: PageServer,
    page: Page,
    source: RingSource,
    control: Option<Control<D>>,
}

impl<D: GainRequester> PageThread<D> {
    /// Binds a port of 127.0.0.1, and returns the page's server and the end of the ring for its snapshots. The page
    /// shows these facts of the run. At port 0 the system picks one. Returns `PageFault::Page` if the port cannot be
    /// bound.
    pub(crate) fn bind<R: Net + RandomSource>(
        rt: &R,
        alloc: Global,
        port: u16,
        facts: RunFacts,
        control: Option<Control<D>>,
    ) -> Result<(PageThread<D>, Producer<Snapshot>), PageFault> {
        let (producer, consumer) = RingBuffer::new(alloc, MAX_SNAPSHOTS)?;
        match bind_server(rt, alloc, port) {
            Ok(server) => Ok((
                PageThread {
                    server,
                    page: Page::new(alloc, facts, Snapshot::new()),
                    source: RingSource::new(consumer),
                    control,
                },
                producer,
            )),
            Err(fault) => Err(fault_of(fault.kind())),
        }
    }

    /// Returns the address at which the server listens, or the system's error if it cannot be read.
    pub fn address(&self) -> io::Result<SocketAddr> {
        self.server.address()
    }

    /// Serves the page's clients until the run has ended. It blocks the calling thread.
    pub fn serve<R: Wait + Clock>(self, rt: &R) {
        let PageThread {
            server,
            page,
            source,
            control,
        } = self;
        match control {
            Some(control) => serve_page(rt, server, ControlPage::new(page, control), source),
            None => serve_page(rt, server, page, source),
        }
    }
}

/// Returns the server of a page, which listens at a port of 127.0.0.1.
fn bind_server<R: Net + RandomSource>(rt: &R, alloc: Global, port: u16) -> io::Result<PageServer> {
    PageServer::bind(rt, alloc, RandomState::new(rt)?, port)
}

/// Returns the error of a page whose server could not be bound.
fn fault_of(kind: ErrorKind) -> PageFault {
    match kind {
        ErrorKind::OutOfMemory => PageFault::Memory,
        _ => PageFault::Page,
    }
}
