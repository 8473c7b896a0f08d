//! The operator's page of a run: HTML, JSON and Prometheus metrics of a snapshot, and their HTTP
//! server on 127.0.0.1.
//!
//! - **What is shown**: `Snapshot` holds all that changes, and `RunFacts` what does not. `state_json` and
//!   `metrics_text` write the numbers of a snapshot under the same keys.
//! - **Without sockets**: the caller keeps a `Page` with the newest snapshot, and for each client a
//!   connection from `new_connection`. After octets arrived, call `read_from` and `Page::answer`. As
//!   long as the connection `wants_write`, call `write_to` and `answer`. Drop the connection once it
//!   `is_done`. The page is at `/`, `state_json` at `/state`, and `metrics_text` at `/metrics`, with the
//!   metrics of the facts behind it.
//! - **With sockets**: `PageServer::bind` listens on 127.0.0.1, and each `turn` waits for sockets and
//!   responds from the page. `serve_page` does so in a thread of its own, and takes a newer snapshot
//!   from its `RingSource` before each turn.
//! - **With gains**: a `ControlPage` also shows the gains of the run at `/gains`, and changes them for a
//!   client that has the run's `Token`. It asks a `GainRequester`, which the run's side implements. The
//!   connections of its clients come from `new_control_connection`. `PageServer` and `serve_page` take
//!   either page.
//!
//! Nothing else waits for the server's thread. A client that reads nothing delays only itself. It is
//! dropped after ten seconds, and so is one whose request is not complete ten seconds after its
//! first octet. A 65th client takes the place of the one that has been longest without a complete
//! request.
//!
//! A request has to be addressed to 127.0.0.1, localhost or [::1]: the page of another site cannot
//! read what is answered here under a name that it has had resolved to 127.0.0.1.
#![tactic(auto)]

mod condition;
mod control;
mod control_page;
mod fields;
mod page;
mod path_condition;
mod run_facts;
mod server;
mod snapshot;

pub use control::shape::GainShape;
pub use control::token::Token;
pub use control::{Control, GainRequester, RequestOutcome};
pub use control_page::ControlPage;
pub use page::Page;
pub use page::controls_html::CONTROLS;
pub use page::html::HTML;
pub use page::metrics::metrics_text;
pub use page::state::state_json;
pub use run_facts::RunFacts;
pub use server::client::{new_connection, new_control_connection};
pub use server::served::{GainsAnswer, ServedPage};
pub use server::source::{RingSource, serve_page};
pub use server::{MAX_CLIENTS, PageServer};
pub use snapshot::{
    ChannelState, Condition, CopyCounts, PathCondition, PathState, Snapshot, SocketState,
    StreamName, StreamState,
};
