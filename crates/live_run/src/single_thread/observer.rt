//! The observer of a run in one thread: the outputs that take its events, and its status.
ghost use Rattle.std.specs.Prelude.{◌≡◌, ℕ, [], ◌∷◌, None, IfOk};
ghost use Rattle.mix_packets.specs.Block.{block_start};
ghost use Rattle.engine_run.specs.Observers.{Came, Closed, Hears};
ghost use Rattle.run_outputs.specs.Events.{arrival, taken_change};
ghost use Rattle.live_run.specs.PathPlace.{path_place};

use crate::path_order::path_place;
use crate::shown_health::ShownHealth;
use engine_run::RunObserver;
use live_io::UdpFeed;
use live_status::{EngineStatus, StatusOutputs};
use mix_packets::OutSpec;
use rtp_stream::Path;
use run_outputs::{ArrivedDatagram, DatagramOrigin, EventOutput, TakenChange};
use std::alloc::{AllocError, Global};
use std::io::Write;
use std::time::Clock;
use studio_config::StudioSpec;
use studio_engine::Engine;
use studio_session::ArriveOutcome;

/// The observer of a run in one thread, with the outputs that take its events, and its status if it is wanted.
#[derive(Drop)]
pub(crate) struct LiveObserver<'v, E, V> {
    /// The studio of the run.
    studio: &'v StudioSpec,
    outputs: V,
    status: Option<EngineStatus<'v, E, ShownHealth<'v>>>,
}

impl<'v, E: Write + Drop, V: EventOutput> LiveObserver<'v, E, V> {
    /// Returns the observer of a run of this studio, which was notified of nothing yet. Allocates all its memory, and
    /// returns `AllocError` if that fails.
    pub(crate) fn new(
        alloc: Global,
        studio: &'v StudioSpec,
        outputs: V,
        status: StatusOutputs<'v, E>,
        health: ShownHealth<'v>,
    ) -> Result<LiveObserver<'v, E, V>, AllocError>
        ensures kept { IfOk result (λ observer. observer.outputs ≡ outputs) }
        ensures studio { IfOk result (λ observer. observer.studio.now ≡ studio.now) }
    {
        let StatusOutputs { publisher, meter } = status;
        let status = match publisher {
            Some(publisher) => Some(EngineStatus::new(
                alloc,
                studio.streams(),
                publisher,
                meter,
                health,
            )?),
            None => None,
        };
        Ok(LiveObserver {
            studio,
            outputs,
            status,
        })
    }

    /// Returns the outputs that take the events.
    pub(super) fn outputs(&self) -> &V
        ensures { result.now ≡ self.now.outputs }
    {
        &self.outputs
    }
}

impl<'a, R: Clock, E: Write + Drop, V: EventOutput> RunObserver<UdpFeed<'a, R>>
    for LiveObserver<'_, E, V> {
    ghost heard = { λ observer. None };

    ghost noted = { λ observer. None };

    fn arrived(
        &mut self,
        engine: &Engine,
        stream: usize,
        path: Path,
        octets: &[u8],
        outcome: ArriveOutcome,
        feed: &UdpFeed<'a, R>,
    )
        ensures arrived { (origin : DatagramOrigin)
            × (origin.path_index ≡ path_place self.old.studio.now.streams stream path)
            × V.arrives self.old.outputs (arrival stream path origin engine.now.time octets.now) self.new.outputs }
        ensures studio { self.new.studio ≡ self.old.studio }
    {
        // The place by the stream and the path that the engine took the datagram for. The feed has the addresses.
        let origin = DatagramOrigin {
            path_index: path_place(self.studio, stream, path),
            ..feed.origin()
        };
        self.outputs.arrived(&ArrivedDatagram {
            stream,
            path,
            origin,
            time: engine.time(),
            octets,
        });
        if let Some(status) = &mut self.status {
            status.note(engine, stream, path, outcome);
        }
    }

    fn changed(&mut self, engine: &Engine, at: i64, gains: &[i32])
        ensures changed { V.changes self.old.outputs
            (taken_change engine.now.time at engine.now.mixer.packer.number gains.now) self.new.outputs }
    {
        let time = engine.time();
        let next_block = block_number(engine.output(), engine.next_block_start());
        self.outputs.changed(&TakenChange {
            time,
            at,
            next_block,
            gains,
        });
    }

    fn before_wait(&mut self, engine: &Engine)
        ensures same { self.new.outputs ≡ self.old.outputs }
    {
        if let Some(status) = &mut self.status {
            status.publish_if_due(engine);
        }
    }

    fn closed(&mut self, engine: &Engine)
        ensures closed { V.closes self.old.outputs engine.now.time self.new.outputs }
    {
        self.outputs.closed(engine.time());
        if let Some(status) = &mut self.status {
            status.publish_last(engine);
        }
    }
}

/// Returns the number of the block that begins at a time, which is the number of blocks before it.
fn block_number(output: &OutSpec, start: i64) -> u64
    ensures { (number : ℕ) → start ≡ block_start output.now number → result ≡ number }
{
    // Nothing is limited here: a block begins at the output's start or after it.
    let instants = start.saturating_sub(output.start());
    u64::try_from(instants).unwrap_or(0) / u64::from(output.frames())
}
