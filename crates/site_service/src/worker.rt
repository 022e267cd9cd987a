//! Workers in threads, each with a door of its own.
ghost use Rattle.std.specs.Prelude.{◌≡◌, ◌<◌, ◌≤◌, ℕ, [], length, vec_len, vec_capacity, slice_index_or, map, reverse};
ghost use Rattle.std.specs.List.{list_any};
ghost use Rattle.site_service.specs.Workers.{pass_of, door_of, has_failed, IsReady, HasWorked};

use outside::{Clock, Disk, Door, Words};
use site_server::serve_door;
use site_turns::DeskStore;
use std::alloc::Global;
use std::sync::Wait;
use std::thread;
use std::thread::Threads;
use turn_desk::{Desk, Pass};

/// A worker: its pass, its door, and whether the door has failed.
pub(crate) struct Worker<G> {
    pub(crate) pass: Pass,
    pub(crate) door: G,
    pub(crate) failed: bool,
}

/// Each pass with its door, the last ones first.
pub(crate) fn pair<G>(
    passes: Vec<Pass>,
    doors: Vec<G>,
    workers: Vec<Worker<G>>,
) -> (Vec<Pass>, Vec<G>, Vec<Worker<G>>)
    requires long { vec_len passes ≡ vec_len doors }
    requires room { (workers.items ≡ []) × (vec_len passes ≤ vec_capacity workers) }
    ensures passes { passes.items ≡ reverse (map pass_of result.2.items) }
    ensures doors { doors.items ≡ reverse (map door_of result.2.items) }
    ensures room { (result.0.items ≡ []) × (vec_capacity result.0 ≡ vec_capacity passes) × (result.1.items ≡ []) × (vec_capacity result.1 ≡ vec_capacity doors) }
{
    let mut passes = passes;
    let mut doors = doors;
    let mut workers = workers;
    while let Some(pass) = passes.pop() {
        let Some(door) = doors.pop() else {
            unreachable!()
        };
        workers.push_reserved(Worker {
            pass,
            door,
            failed: false,
        });
    }
    (passes, doors, workers)
}

/// The passes and the doors again, in order.
pub(crate) fn part<G>(
    passes: Vec<Pass>,
    doors: Vec<G>,
    workers: Vec<Worker<G>>,
) -> (Vec<Pass>, Vec<G>)
    requires room { (passes.items ≡ []) × (vec_len workers ≤ vec_capacity passes) × (doors.items ≡ []) × (vec_len workers ≤ vec_capacity doors) }
    ensures passes { result.0.items ≡ reverse (map pass_of workers.items) }
    ensures doors { result.1.items ≡ reverse (map door_of workers.items) }
{
    let mut passes = passes;
    let mut doors = doors;
    let mut workers = workers;
    while let Some(worker) = workers.pop() {
        let Worker {
            pass,
            door,
            failed: _,
        } = worker;
        passes.push_reserved(pass);
        doors.push_reserved(door);
    }
    workers.destroy_empty();
    (passes, doors)
}

/// Whether one of the doors has failed.
pub(crate) fn one_failed<G>(workers: &[Worker<G>]) -> bool
    ensures { result ≡ list_any has_failed workers.now }
{
    workers.iter().any(|worker| worker.failed)
}

/// Serves the worker's door to its end.
fn serve_one<G: Door, D: Disk, C: Clock, W: Words, R: Wait>(
    rt: &R,
    alloc: Global,
    desk: &Desk<DeskStore<D, C, W>>,
    worker: &mut Worker<G>,
)
    requires { IsReady G.state desk.now worker.old }
    ensures { HasWorked G.state desk.now worker.old worker.new }
{
    worker.failed = serve_door(rt, alloc, desk, &mut worker.pass, &mut worker.door);
}

/// Serves all doors to their ends, each in a thread of its own.
fn serve_all<
    G: Door + Send,
    D: Disk + Send,
    C: Clock + Send,
    W: Words + Send,
    R: Threads + Wait + Sync,
>(rt: &R, alloc: Global, desk: &Desk<DeskStore<D, C, W>>, workers: &mut [Worker<G>])
where
    G::Link: Send,
    requires { (0 < length workers.old) × ((k : ℕ) (d : Worker G) → k < length workers.old → IsReady G.state desk.now (slice_index_or workers.old k d)) }
    ensures long { length workers.new ≡ length workers.old }
    ensures each { (k : ℕ) (d : Worker G) → k < length workers.old → HasWorked G.state desk.now (slice_index_or workers.old k d) (slice_index_or workers.new k d) }
{
    let count = workers.len();
    thread::for_each_mut(
        rt,
        workers,
        count,
        &|_, worker| serve_one(rt, alloc, desk, worker),
    );
}

/// The same, over all workers.
pub(crate) fn serve_each<
    G: Door + Send,
    D: Disk + Send,
    C: Clock + Send,
    W: Words + Send,
    R: Threads + Wait + Sync,
>(rt: &R, alloc: Global, desk: &Desk<DeskStore<D, C, W>>, workers: &mut Vec<Worker<G>>)
where
    G::Link: Send,
    requires { (0 < vec_len workers.old) × ((k : ℕ) (d : Worker G) → k < length workers.old.items → IsReady G.state desk.now (slice_index_or workers.old.items k d)) }
    ensures long { length workers.new.items ≡ length workers.old.items }
    ensures each { (k : ℕ) (d : Worker G) → k < length workers.old.items → HasWorked G.state desk.now (slice_index_or workers.old.items k d) (slice_index_or workers.new.items k d) }
{
    serve_all(rt, alloc, desk, workers.as_mut_slice());
}
