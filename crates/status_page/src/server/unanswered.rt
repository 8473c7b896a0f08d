//! The reads of the gains that may be among a client's requests without an answer.
//!
//! A connection answers a request as soon as it is complete, and a read of the gains waits for the run. The server has
//! to know of such a read before that. So this looks for the path of the gains in what comes from the client. It never
//! overlooks a read. It may take something else for one, as a header field with this path: then the client has its turn
//! later, and its answers are the same.
ghost use Rattle.std.specs.Prelude.{◌≡◌, ◌-◌};
ghost use Rattle.status_page.specs.Unanswered.{after_octet, ends_with, may_read};

/// The path of the gains.
const PATH: &[u8] = b"/gains";

/// The beginning of a change, which is no read.
const CHANGE: &[u8] = b"PUT /gains";

/// The reads of the gains that may be among a client's requests without an answer.
#[derive(Clone, Copy, PartialEq, Eq)]
pub(crate) struct UnansweredReads {
    /// How many of the first octets of `PATH` are the last ones that came.
    path: usize,
    /// How many of the first octets of `CHANGE` are the last ones that came.
    change: usize,
    /// How often the path came but in a change, without the reads that were answered.
    count: u64,
}

impl UnansweredReads {
    /// Returns the reads of a client that has sent nothing.
    pub(crate) fn new() -> UnansweredReads
        ensures path { result.path ≡ 0 }
        ensures change { result.change ≡ 0 }
        ensures count { result.count ≡ 0 }
    {
        UnansweredReads {
            path: 0,
            change: 0,
            count: 0,
        }
    }

    /// Notes octets that came from the client.
    pub(crate) fn note(&mut self, octets: &[u8]) {
        for octet in octets {
            self.note_octet(*octet);
        }
    }

    /// Notes an octet that came from the client.
    fn note_octet(&mut self, octet: u8)
        ensures { self.new ≡ after_octet self.old octet }
    {
        self.path = ends_with(PATH, self.path, octet);
        self.change = ends_with(CHANGE, self.change, octet);
        if self.path == PATH.len() && self.change != CHANGE.len() {
            self.count = self.count.saturating_add(1);
        }
    }

    /// Notes that a read was answered.
    pub(crate) fn note_answer(&mut self)
        ensures path { self.new.path ≡ self.old.path }
        ensures change { self.new.change ≡ self.old.change }
        ensures count { self.new.count ≡ self.old.count - 1 }
    {
        self.count = self.count.saturating_sub(1);
    }

    /// Returns true if there may be a read among the requests without an answer.
    pub(crate) fn may_read(&self) -> bool
        ensures { result ≡ may_read self.now }
    {
        self.count > 0
    }
}

/// Returns how many of the first octets of a word are the last ones that came, if there were `before` of them before
/// this octet came.
// The first octet of each word comes in it once. So if an octet is not the next one of a word, the word can begin only
// with this octet.
fn ends_with(word: &[u8], before: usize, octet: u8) -> usize
    ensures { result ≡ ends_with word.now before octet }
{
    if before < word.len() && word[before] == octet {
        return before + 1;
    }
    usize::from(word.first() == Some(&octet))
}
