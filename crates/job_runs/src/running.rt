//! Running a job to its end.

ghost use Rattle.std.specs.Prelude.{◌≡◌, ◌<◌, ◌^◌, All, IfOk, length};
ghost use Rattle.cuts.specs.orders.Chosen.{first_scene};
ghost use Rattle.rest_probe.specs.Waves.{IsFor};
ghost use Rattle.turn_table.specs.Hands.{IsFree, parts_of};
ghost use Rattle.worlds.specs.Later.{IsLater};
ghost use Rattle.worlds.specs.Standing.{IsStanding};
ghost use Rattle.worlds.specs.World.{scene_in};
ghost use Rattle.job_runs.specs.Runs.{IsInOrder, IsJobRun, IsOfSteady, IsOfWorkers, IsReachedWorld, IsRested};

use crate::host::Host;
use crate::words::Words;
use ptl_types::NoMemory;
use rank_threads::{Fabric, Gate, Hand, SpentWires, run_keeping, run_steady};
use rest_probe::Wave;
use schedule_compiler::Job;
use std::alloc::Global;
use std::sync::Wait;
use std::thread::Threads;
use worlds::{World, runs_by_words};

/// What holds of a world whatever was done with it.
fn recall_standing(world: &World)
    ensures { IsStanding world.now }
{
    let _ = world.enabled();
}

/// Makes all that is left of a world of a job.
fn finished(world: World, job: &Job) -> World
    requires own { world.spare ≡ 0 }
    requires schedule { world.schedule ≡ job.now.schedule }
    requires inputs { world.inputs ≡ job.now.inputs }
    ensures run { IsJobRun job.now result }
    ensures reached { scene_in world ≡ first_scene → IsReachedWorld result }
    ensures later { IsLater world result }
{
    let _ = job;
    let mut world = world;
    world.run_to_rest();
    recall_standing(&world);
    world
}

/// Runs a job on one thread, in an order of the world's own.
///
/// # Errors
///
/// There was no memory for its ranks and lanes. Nothing was run.
pub fn run_once(alloc: Global, job: &Job) -> Result<World, NoMemory>
    ensures { IfOk result (λ w. IsJobRun job.now w × IsReachedWorld w) }
{
    let world = World::open(alloc, job)?;
    Ok(finished(world, job))
}

/// Runs a job on one thread in the order that the words of a generator choose, which this number seeds.
///
/// # Errors
///
/// There was no memory for its ranks and lanes. Nothing was run.
pub fn run_chosen(alloc: Global, job: &Job, seed: u64) -> Result<World, NoMemory>
    ensures { IfOk result (λ w. IsJobRun job.now w × (IsReachedWorld w × IsInOrder seed w)) }
{
    let mut world = World::open(alloc, job)?;
    let mut words = Words::of(seed);
    world.run_chosen(&mut words);
    runs_by_words::<Words>();
    recall_standing(&world);
    Ok(world)
}

/// Runs a job by workers on threads; what they leave is made at the end. Where no thread can be started, the call does a worker's
/// part itself. The wires that they used are handed over beside the world.
///
/// # Errors
///
/// There was no memory for its ranks, wires and workers. Nothing was run.
pub fn run_by_workers<R: Threads + Wait + Sync, G: Gate>(
    host: &Host<R, G>,
    workers: u32,
    job: &Job,
) -> Result<(World, SpentWires), NoMemory>
    requires { 0 < workers }
    ensures { IfOk result (λ left. IsJobRun job.now left.0 × IsOfWorkers workers left.0) }
{
    let (fabric, hands) = Fabric::open(host.rt, host.alloc, job, workers, &host.gate)?;
    let (world, spent) = run_keeping(host.rt, fabric, hands);
    let world = finished(world, job);
    Ok((world, spent))
}

/// Lets a worker for each hand make steps until a wave of probes has found rest, and closes the fabric. Its wires come beside the world.
fn close_steady<R: Threads + Wait + Sync, G: Gate + Drop>(
    rt: &R,
    fabric: Fabric<G>,
    hands: Vec<Hand>,
    wave: Wave,
) -> (World, SpentWires)
    requires hands { All (λ h. IsFree fabric.turns h) hands.items }
    requires all { parts_of hands.items ≡ 2 ^ 32 }
    requires nonempty { 0 < length hands.items }
    requires at_most { length hands.items < 2 ^ 32 }
    requires lanes { IsFor fabric.job.schedule.plan wave }
    ensures schedule { result.0.schedule ≡ fabric.job.schedule }
    ensures inputs { result.0.inputs ≡ fabric.job.inputs }
    ensures own { result.0.spare ≡ 0 }
    ensures rested { IsRested fabric (length hands.items) result.0 }
{
    let mut hands = hands;
    let mut wave = wave;
    run_steady(rt, &fabric, &mut hands, &mut wave);
    fabric.close_at_rest(rt, hands, wave)
}

/// Runs a job by workers on threads that go on until nothing is left. Where no thread can be started, the call does a worker's part
/// itself. The wires that they used are handed over beside the world.
///
/// # Errors
///
/// There was no memory for its ranks, wires and workers. Nothing was run.
pub fn run_steadily<R: Threads + Wait + Sync, G: Gate>(
    host: &Host<R, G>,
    workers: u32,
    job: &Job,
) -> Result<(World, SpentWires), NoMemory>
    requires { 0 < workers }
    ensures { IfOk result (λ left. IsJobRun job.now left.0 × IsOfSteady workers left.0) }
{
    let wave = Wave::open(host.alloc, job.schedule())?;
    let (fabric, hands) = Fabric::open(host.rt, host.alloc, job, workers, &host.gate)?;
    let (world, spent) = close_steady(host.rt, fabric, hands, wave);
    Ok((finished(world, job), spent))
}
