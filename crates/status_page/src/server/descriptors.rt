//! The limit on the descriptors of the process, and those below it that clients leave to the run.
ghost use Rattle.std.specs.Prelude.{◌≡◌};
ghost use Rattle.status_page.specs.Descriptors.{is_left_to_clients};

use libc::types::rlimit;

/// The number of descriptors that clients leave to the run, the greatest ones below the limit.
// A run that goes on opens files: the one that says whether a signal waits, and the next WAV file. Without this,
// programs that connect to the page could keep it from them.
const LEFT_TO_THE_RUN: u64 = 8;

/// The limit on the descriptors of the process: each is below it.
#[derive(Clone, Copy, PartialEq, Eq)]
pub(crate) struct DescriptorLimit {
    /// `None` if the system does not say it.
    limit: Option<u64>,
}

impl DescriptorLimit {
    /// Returns the limit that the process has now.
    pub(crate) fn read() -> DescriptorLimit {
        let mut limit = rlimit {
            rlim_cur: 0,
            rlim_max: 0,
        };
        if libc::getrlimit(libc::RLIMIT_NOFILE, &mut limit) != 0 {
            return DescriptorLimit { limit: None };
        }
        DescriptorLimit {
            limit: Some(limit.rlim_cur),
        }
    }

    /// Returns true if a client may have this descriptor.
    pub(crate) fn allows(&self, descriptor: u64) -> bool
        ensures { result ≡ is_left_to_clients self.now.limit descriptor }
    {
        match self.limit {
            Some(limit) => descriptor.saturating_add(LEFT_TO_THE_RUN) < limit,
            None => true,
        }
    }
}
