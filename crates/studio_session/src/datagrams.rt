//! All datagrams of a session, in memory.
ghost use Rattle.std.specs.Prelude.{◌<◌, ◌≤◌, length, map, All, IfOk, OnOk};
ghost use Rattle.mix_packets.specs.OutSpec.{datagram_length};
ghost use Rattle.studio_config.specs.Studio.{Studio};
ghost use Rattle.studio_session.specs.Cursor.{IsReadyFor};
ghost use Rattle.studio_session.specs.Play.{HasPlayed, IsRunnableBy};
ghost use Rattle.studio_session.specs.Run.{AreDatagrams};

use crate::session::Session;
use crate::source::EventSource;
use mix_packets::MAX_OUTPUT_OCTETS;
use std::alloc::{AllocError, Global};

/// Returns the datagrams of all blocks that are ready, in order.
pub fn all_datagrams<E: EventSource>(
    alloc: Global,
    session: &mut Session,
    source: &E,
) -> Result<Vec<Vec<u8>>, AllocError>
    requires short { datagram_length session.old.mixer.packer.spec ≤ 1452 }
    requires some { 0 < session.old.mixer.packer.spec.frames }
    requires ready { All (IsReadyFor (E.events source.now)) session.old.cursors }
    ensures datagrams { IfOk result (λ datagrams. (studio : Studio)
        → IsRunnableBy studio (E.events source.now) → HasPlayed studio (E.events source.now) session.old 0
        → AreDatagrams studio (E.events source.now) (map (λ d. d.items) datagrams.items)) }
    ensures ready { OnOk result (All (IsReadyFor (E.events source.now)) session.new.cursors) }
    ensures played { IfOk result (λ datagrams. (studio : Studio)
        → IsRunnableBy studio (E.events source.now) → HasPlayed studio (E.events source.now) session.old 0
        → HasPlayed studio (E.events source.now) session.new (length datagrams.items)) }
{
    let mut out = [0u8; MAX_OUTPUT_OCTETS];
    let mut datagrams = Vec::new(alloc);
    // The label names the loop in its proof.
    'rounds: loop {
        match session.next_datagram(source, &mut out) {
            Some(len) => {
                let datagram = Vec::from_slice(alloc, &out[..len])?;
                datagrams.push(datagram)?;
            }
            None => return Ok(datagrams),
        }
    }
}
