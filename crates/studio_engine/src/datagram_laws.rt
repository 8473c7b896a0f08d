//! Laws of the datagrams of an engine. Nothing is computed here: the clauses are the laws.
ghost use Rattle.std.specs.Prelude.{◌≡◌, ℕ, List, true};
ghost use Rattle.studio_config.specs.Studio.{Studio};
ghost use Rattle.studio_mix.specs.Blocks.{AreFirstBlocks};
ghost use Rattle.studio_session.specs.Event.{TraceEvent};
ghost use Rattle.studio_session.specs.Play.{feeds_of};
ghost use Rattle.studio_session.specs.Run.{AreDatagrams};
ghost use Rattle.studio_engine.specs.Engine.{EngineState};
ghost use Rattle.studio_engine.specs.Session.{HasGivenReady, HasSession};

/// States that the datagrams which an engine returned are those of the first blocks of the events that it took. After
/// a turn that returned `None` they are those of all blocks that are ready. Once the engine is settled they are
/// exactly those that `run_studio` returns for these events.
pub fn an_engine_gives_the_datagrams_of_its_events()
    ensures first { (studio : Studio) (engine : EngineState) (events : List TraceEvent) (datagrams : List (List ℕ))
        → HasSession studio engine events datagrams → AreFirstBlocks studio (feeds_of studio events) datagrams }
    ensures ready { (studio : Studio) (engine : EngineState) (events : List TraceEvent) (datagrams : List (List ℕ))
        → HasGivenReady studio engine events datagrams → AreDatagrams studio events datagrams }
    ensures settled { (studio : Studio) (engine : EngineState) (events : List TraceEvent) (datagrams : List (List ℕ))
        → HasSession studio engine events datagrams → engine.settled ≡ true → AreDatagrams studio events datagrams }
{}
