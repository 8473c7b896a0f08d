//! The task that serves the page of a run.

use crate::status::PageLink;
use live_status::{OpenPage, PageFault, PageThread, open_page};
use run_outputs::{RunStart, SideTask};
use status_page::{Control, GainRequester, RunFacts};
use std::alloc::Global;
use std::net::Net;
use std::random::RandomSource;
use std::sync::Wait;
use std::time::Clock;

/// The task that serves the page of a run. It ends once the run's end of the snapshots' ring was dropped.
#[derive(Drop)]
pub(crate) struct PageTask<D: GainRequester> {
    server: PageThread<D>,
}

impl<D: GainRequester> SideTask for PageTask<D> {
    fn complete<R: Wait + Clock>(self, rt: &R, _start: &RunStart) {
        let PageTask { server } = self;
        server.serve(rt);
    }
}

/// The page of a run: the run's link to it, and the task that serves it. Both are empty without a page.
#[derive(Drop)]
pub(crate) struct RunPage<D: GainRequester> {
    pub(crate) link: PageLink,
    pub(crate) task: Option<PageTask<D>>,
}

/// Binds the page's port, if a page is wanted, and returns the page, which shows these facts of the run. Returns errors
/// as `open_page` does.
// In a function of its own: what holds an HTTP server by name is proved along all of its fields.
pub(crate) fn open_run_page<R: Net + RandomSource, D: GainRequester>(
    rt: &R,
    alloc: Global,
    port: Option<u16>,
    facts: RunFacts,
    control: Option<Control<D>>,
) -> Result<RunPage<D>, PageFault> {
    let OpenPage { thread, snapshots } = open_page(rt, alloc, port, facts, control)?;
    let Some(server) = thread else {
        return Ok(RunPage {
            link: PageLink {
                address: None,
                snapshots,
            },
            task: None,
        });
    };
    let address = match server.address() {
        Ok(address) => Some(address),
        Err(_) => None,
    };
    Ok(RunPage {
        link: PageLink { address, snapshots },
        task: Some(PageTask { server }),
    })
}
