//! The creation of a run's outputs.
ghost use Rattle.std.specs.Prelude.{◌≡◌, Bool, IfOk, ⊤};
ghost use Rattle.studio_config.specs.Studio.{Studio};
ghost use Rattle.run_outputs.specs.Create.{BeginsIf};

use crate::events::EventOutput;
use crate::fault::OutputFault;
use crate::mix::{MixOutput, NoOutput};
use crate::side_task::{OneTask, SideTask, SideTasks};
use std::alloc::Global;
use studio_config::StudioSpec;

/// The parts of an output that was created.
#[derive(Drop)]
pub struct CreatedOutput<E, M, T> {
    /// The part that takes the events of a run in one thread.
    pub events: E,
    /// The part that takes the mix.
    pub mix: M,
    /// The tasks that write the output. Each ends once the other two parts were dropped.
    pub tasks: T,
}

/// An output that a run is to have.
pub trait CreateOutput: Drop {
    /// The part that takes the events of a run in one thread.
    type Events: EventOutput;

    /// The part that takes the mix.
    type Mix: MixOutput;

    /// The tasks that write the output.
    type Tasks: SideTasks;

    /// Holds of the first two parts when they were created, for a run of this studio whose gains can be changed or not.
    ghost begins: { Bool → Studio → Self.Events → Self.Mix → Type 0 };

    /// Creates the output of a run of this studio. `is_controlled` is true if the gains of the run can be changed.
    ///
    /// A run calls it last before its first thread starts, so that a start that fails before touches no file. All
    /// memory is allocated before a file is created. A file that was created is removed when it is dropped before the
    /// run has begun (`RunStart`): also if another output cannot be created, or a thread cannot be started.
    fn create(
        self,
        alloc: Global,
        studio: &StudioSpec,
        is_controlled: bool,
    ) -> Result<CreatedOutput<Self::Events, Self::Mix, Self::Tasks>, OutputFault>
        ensures { IfOk result (λ created. begins is_controlled studio.now created.events created.mix) };
}

impl<C: CreateOutput> CreateOutput for Option<C> {
    type Events = Option<C::Events>;

    type Mix = Option<C::Mix>;

    type Tasks = Option<C::Tasks>;

    ghost begins = { λ is_controlled studio events mix.
        BeginsIf (λ one other. C.begins is_controlled studio one other) events mix };

    fn create(
        self,
        alloc: Global,
        studio: &StudioSpec,
        is_controlled: bool,
    ) -> Result<CreatedOutput<Option<C::Events>, Option<C::Mix>, Option<C::Tasks>>, OutputFault> {
        let Some(output) = self else {
            return Ok(CreatedOutput {
                events: None,
                mix: None,
                tasks: None,
            });
        };
        let CreatedOutput { events, mix, tasks } = output.create(alloc, studio, is_controlled)?;
        Ok(CreatedOutput {
            events: Some(events),
            mix: Some(mix),
            tasks: Some(tasks),
        })
    }
}

impl<A: CreateOutput, B: CreateOutput> CreateOutput for (A, B) {
    type Events = (A::Events, B::Events);

    type Mix = (A::Mix, B::Mix);

    type Tasks = (A::Tasks, B::Tasks);

    ghost begins = { λ is_controlled studio events mix.
        A.begins is_controlled studio events.0 mix.0 × B.begins is_controlled studio events.1 mix.1 };

    fn create(
        self,
        alloc: Global,
        studio: &StudioSpec,
        is_controlled: bool,
    ) -> Result<
        CreatedOutput<(A::Events, B::Events), (A::Mix, B::Mix), (A::Tasks, B::Tasks)>,
        OutputFault,
    > {
        let (first, second) = self;
        let first = first.create(alloc, studio, is_controlled)?;
        let second = second.create(alloc, studio, is_controlled)?;
        Ok(CreatedOutput {
            events: (first.events, second.events),
            mix: (first.mix, second.mix),
            tasks: (first.tasks, second.tasks),
        })
    }
}

/// A task that is done next to a run, as an output that takes nothing of the run.
#[derive(Drop)]
pub struct TaskOutput<T> {
    task: T,
}

impl<T: Drop> TaskOutput<T> {
    /// Returns the output that is this task.
    pub fn new(task: T) -> TaskOutput<T> {
        TaskOutput { task }
    }
}

impl<T: SideTask + Send + Drop> CreateOutput for TaskOutput<T> {
    type Events = NoOutput;

    type Mix = NoOutput;

    type Tasks = OneTask<T>;

    ghost begins = { λ is_controlled studio events mix. ⊤ };

    fn create(
        self,
        _alloc: Global,
        _studio: &StudioSpec,
        _is_controlled: bool,
    ) -> Result<CreatedOutput<NoOutput, NoOutput, OneTask<T>>, OutputFault> {
        let TaskOutput { task } = self;
        Ok(CreatedOutput {
            events: NoOutput,
            mix: NoOutput,
            tasks: OneTask::new(task),
        })
    }
}
