//! Tasks that other threads do next to a run, each for as long as the run lasts.
ghost use Rattle.std.specs.Prelude.{◌≡◌, IfOk};

use crate::start::RunStart;
use std::sync::Wait;
use std::thread;
use std::thread::Threads;
use std::time::Clock;

/// The error of a thread that could not be started.
#[derive(Clone, Copy, Debug, PartialEq, Eq)]
pub struct ThreadFault;

/// A task that is done next to a run, and ends with it.
pub trait SideTask {
    /// Does the task until the run has ended. It blocks the calling thread.
    ///
    /// A task with a file that was created for the run waits for `start` before it drops the file.
    fn complete<R: Wait + Clock>(self, rt: &R, start: &RunStart);
}

/// The tasks that are done next to a run.
pub trait SideTasks: Drop {
    /// The type of a task.
    type Task: SideTask + Send + Drop;

    /// Returns the next task, or `None` if there is none left.
    fn next_task(&mut self) -> Option<Self::Task>;
}

/// One task.
#[derive(Drop)]
pub struct OneTask<T> {
    /// The task, until it was returned.
    task: Option<T>,
}

impl<T: Drop> OneTask<T> {
    /// Returns the tasks that are this one.
    pub fn new(task: T) -> OneTask<T> {
        OneTask { task: Some(task) }
    }
}

impl<T: SideTask + Send + Drop> SideTasks for OneTask<T> {
    type Task = T;

    fn next_task(&mut self) -> Option<T> {
        self.task.take()
    }
}

impl<S: SideTasks> SideTasks for Option<S> {
    type Task = S::Task;

    fn next_task(&mut self) -> Option<S::Task> {
        match self {
            Some(tasks) => tasks.next_task(),
            None => None,
        }
    }
}

/// A task of one of two types.
// What a thread takes is one type. So tasks of different types go to their threads as one of both.
#[derive(Drop)]
pub enum EitherTask<A, B> {
    /// A task of the first type.
    First(A),
    /// A task of the second type.
    Second(B),
}

impl<A: SideTask, B: SideTask> SideTask for EitherTask<A, B> {
    fn complete<R: Wait + Clock>(self, rt: &R, start: &RunStart) {
        match self {
            EitherTask::First(task) => task.complete(rt, start),
            EitherTask::Second(task) => task.complete(rt, start),
        }
    }
}

impl<A: SideTasks, B: SideTasks> SideTasks for (A, B) {
    type Task = EitherTask<A::Task, B::Task>;

    fn next_task(&mut self) -> Option<EitherTask<A::Task, B::Task>> {
        match self.0.next_task() {
            Some(task) => Some(EitherTask::First(task)),
            None => match self.1.next_task() {
                Some(task) => Some(EitherTask::Second(task)),
                None => None,
            },
        }
    }
}

/// Calls `run` in this thread, with each of the tasks in a thread of its own, and returns the result of `run` once all
/// have ended. Returns `ThreadFault` if a thread cannot be started; then `run` is not called, and `start` has failed.
/// Otherwise the run has begun, unless `run` notes in `start` that it has not.
// No method of a trait: there the toolchain does not follow that a type parameter may go to another thread.
pub fn run_beside<
    'a,
    R: Threads + Wait + Sync + Clock,
    S: SideTasks + 'a,
    G: FnOnce() -> O + Drop,
    O: Drop,
>(rt: &'a R, tasks: S, start: &'a RunStart, run: G) -> Result<O, ThreadFault>
    requires run { G.pre run }
    ensures ran { IfOk result (λ value. G.post run value) }
{
    // A scope ends once all its threads have.
    thread::scope(
        thread::scope_env::<'a>(),
        rt,
        move |scope| -> Result<O, ThreadFault>
            requires run { G.pre run }
            ensures ran { IfOk result (λ value. G.post run value) }
        {
            let mut tasks = tasks;
            for _ in 0..u32::MAX {
                let Some(task) = tasks.next_task() else {
                    let value = run();
                    start.set_begun();
                    return Ok(value);
                };
                if scope.spawn(move || task.complete(rt, start)).is_err() {
                    break;
                }
            }
            // The tasks whose threads were started wait for it.
            start.set_failed();
            Err(ThreadFault)
        },
    )
}
