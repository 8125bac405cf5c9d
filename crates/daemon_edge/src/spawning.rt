//! Workers, and who starts them.
ghost use Rattle.std.specs.Prelude.{All, ◌≡◌, ◌<◌, ◌≤◌, ◌↔◌, ℕ, List, [], ◌∷◌, Bool, IsTrue, length, slice_get, slice_index_or};
ghost use Rattle.isis_edge.specs.Faults.{Rose};
ghost use Rattle.isis_edge.specs.Memory.{IsToFail};
ghost use Rattle.daemon_edge.specs.Ports.{Adds};
ghost use Rattle.daemon_edge.specs.Workers.{EachWorks, Works, UnlessRefused, WorksUnlessRefused};

use crate::faults::count_fault;
use isis_edge::Calls;
use note_list::NoteList;
use std::alloc::Global;
use std::sync::Wait;
use std::thread;
use std::thread::Threads;
use std::time::Clock;

/// What a thread works on (own).
pub trait Worker {
    // What it needs; what it was before its work, and is after it.
    ghost ready: { Self → Type 0 };

    ghost works: { Self → Self → Type 0 };

    /// Its work. It may wait.
    fn work<R: Wait + Clock>(&mut self, rt: &R)
        requires { ready self.old }
        ensures { works self.old self.new };
}

/// How the starts of workers ended.
#[derive(Clone, Copy, PartialEq, Eq, Debug)]
pub enum Started {
    /// Each worked once.
    All,
    /// A start was refused: each worked once or is as before.
    Refused,
    /// None worked, and no start was asked for.
    OutOfMemory,
}

/// What decides of the starts of workers, of each one alone (own).
pub trait Spawner {
    // The starts refused. A count at its type's last value counts as risen in every call.
    ghost faults: { Self → ℕ };
    // What was answered, in order: of each start whether it was refused.
    ghost answers: { Self → List Bool };

    /// Whether the next start is refused.
    fn refuses(&mut self) -> bool
        ensures answers { Adds (answers self.old) (answers self.new) (result ∷ []) }
        ensures later { faults self.old ≤ faults self.new }
        ensures cause { IsTrue result → Rose (faults self.old) (faults self.new) };
}

/// A spawner that refuses the starts of these numbers, counted from 1 over all its calls.
#[derive(Drop)]
pub struct ThreadSpawner {
    calls: Calls,
    answers: NoteList<bool, ()>,
}

impl ThreadSpawner {
    /// A spawner that refuses these starts; with an empty list it refuses none.
    pub fn new(refused: Vec<u64>) -> ThreadSpawner
        ensures { (result.calls.failing.items ≡ refused.items) × (result.calls.made ≡ 0)
            × (result.calls.faults ≡ 0) × (result.answers.items ≡ []) }
    {
        ThreadSpawner {
            calls: Calls {
                failing: refused,
                made: 0,
                faults: 0,
            },
            answers: NoteList::new(&()),
        }
    }
}

impl Spawner for ThreadSpawner {
    ghost faults = { λ s. s.calls.faults };

    ghost answers = { λ s. s.answers.items };

    fn refuses(&mut self) -> bool
        ensures answers { Adds self.old.answers.items self.new.answers.items (result ∷ []) }
        ensures later { self.old.calls.faults ≤ self.new.calls.faults }
        ensures cause { IsTrue result → Rose self.old.calls.faults self.new.calls.faults }
        ensures fails { IsTrue result ↔ IsToFail self.old.calls.failing.items self.old.calls.made }
    {
        let fails = self.calls.next_fails();
        self.answers.push(&fails);
        if fails {
            count_fault(&mut self.calls);
        }
        fails
    }
}

/// Runs the workers whose starts aren't refused, each in a thread of its own. They come back in order.
pub fn run_all<S: Spawner, R: Threads + Wait + Clock + Sync, W: Worker + Send>(
    rt: &R,
    alloc: Global,
    spawner: &mut S,
    workers: Vec<W>,
) -> (Vec<W>, Started)
    requires { All W.ready workers.items }
    ensures { EachWorks W.works (S.faults spawner.old) (S.faults spawner.new)
        (S.answers spawner.old) (S.answers spawner.new) workers.items result.0.items result.1 }
{
    let mut workers = workers;
    if workers.is_empty() {
        return (workers, Started::All);
    }
    let count = workers.len();
    let Ok(mut refused) = Vec::with_capacity(alloc, count) else {
        return (workers, Started::OutOfMemory);
    };
    for _ in 0..count {
        refused.push_reserved(spawner.refuses());
    }
    if !refused.contains(&true) {
        work_all(rt, workers.as_mut_slice());
        return (workers, Started::All);
    }
    work_some(rt, workers.as_mut_slice(), refused.as_slice());
    (workers, Started::Refused)
}

/// Each worker works, in a thread of its own.
fn work_all<R: Threads + Wait + Clock + Sync, W: Worker + Send>(rt: &R, workers: &mut [W])
    requires { (0 < length workers.old) × All W.ready workers.old }
    ensures { Works W.works workers.old workers.new }
{
    let count = workers.len();
    thread::for_each_mut(
        rt,
        workers,
        count,
        &|_place: usize, worker: &mut W|
            requires { W.ready worker.old }
            ensures { W.works worker.old worker.new }
        { worker.work(rt) },
    );
}

/// The workers whose starts aren't refused work.
fn work_some<R: Threads + Wait + Clock + Sync, W: Worker + Send>(
    rt: &R,
    workers: &mut [W],
    refused: &[bool],
)
    requires { (0 < length workers.old) × All W.ready workers.old }
    ensures { WorksUnlessRefused W.works refused.now workers.old workers.new }
{
    let count = workers.len();
    thread::for_each_mut(
        rt,
        workers,
        count,
        &|place: usize, worker: &mut W|
            requires { W.ready worker.old }
            ensures { UnlessRefused (slice_get refused.entry.now place) (W.works worker.old worker.new)
                (worker.new ≡ worker.old) }
        {
            match refused.get(place) {
                Some(true) => {}
                _ => worker.work(rt),
            }
        },
    );
}
