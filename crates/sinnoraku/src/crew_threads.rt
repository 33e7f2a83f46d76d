//! The threads of a crew: started together, and each run to its end.

ghost use Rattle.std.specs.Prelude.{◌≡◌, ◌<◌, ◌≤◌, ◌++◌, ◌∷◌, [], IfOk, IfSome, List, Some, length, map, vec_len};
ghost use Rattle.std.specs.List.{All};
ghost use mathlib.Core.List.{IsPrefix};
ghost use Rattle.am_history.specs.Fronts.{FrontView};
ghost use Rattle.am_provider.specs.Callers.{IsNewCaller};
ghost use Rattle.am_provider.specs.Histories.{EntryView};
ghost use Rattle.sinnoraku.specs.Runs.{AreCrewOutcomes};

use crate::crew::{Crew, Worked};
use crate::limits::Limits;
use crate::run_fault::RunFault;
use crate::start::Start;
use am_history::{Front, NewHistory, Timeline, open};
use am_provider::{Caller, Entry, Provider, Recorded, Register, TurnsSeen};
use std::alloc::Global;
use std::marker::{Brand, PhantomData};
use std::sync::Wait;
use std::thread;
use std::thread::{Promise, Scope, Threads};

/// The outcomes of threads, and their callers.
#[derive(Drop)]
pub(crate) struct Done<O, N: Recorded> {
    pub(crate) outcomes: Vec<O>,
    pub(crate) callers: Vec<Caller<N>>,
}

impl<O, N: Recorded> Done<O, N> {
    fn none(alloc: Global) -> Done<O, N>
        ensures { (result.outcomes.items ≡ []) × (result.callers.items ≡ []) }
    {
        Done {
            outcomes: Vec::new(alloc),
            callers: Vec::new(alloc),
        }
    }
}

// The outcomes of threads and their callers, and what each had seen of the turns.
type AllDone<O, N, M> = (Done<O, N>, Vec<TurnsSeen<N, M>>);

// A thread that ended. It has no outcome if it wasn't to work.
type EndedThread<O, N, M> = Worked<Option<O>, N, M>;

// What all threads share.
#[derive(Drop)]
struct Shared<'s, N: Recorded, M: Timeline, C: Crew<R>, R> {
    rt: &'s R,
    alloc: Global,
    limits: Limits,
    crew: &'s C,
    provider: &'s Provider<N>,
    register: &'s Register<N, M>,
    start: &'s Start,
    ghost settings: { (N.places ≡ limits.places) × (N.policy ≡ limits.policy)
        × (provider.now.resolve_timeout ≡ limits.resolve_timeout) },
}

// That a thread's outcome is as its crew promises.
#[derive(Clone, Copy, Drop)]
struct CrewPromise<'s, C, R> {
    crew: &'s C,
    limits: Limits,
    index: usize,
    runtime: PhantomData<R>,
}

impl<'s, C: Crew<R>, R> CrewPromise<'s, C, R> {
    // That it is so of a thread of these.
    fn by<N: Recorded, M: Timeline>(
        shared: &Shared<'s, N, M, C, R>,
        index: usize,
    ) -> CrewPromise<'s, C, R>
        ensures crew { result.crew ≡ shared.now.crew }
        ensures limits { result.limits ≡ shared.now.limits }
        ensures index { result.index ≡ index }
    {
        CrewPromise {
            crew: shared.crew,
            limits: shared.limits,
            index,
            runtime: PhantomData::<R>,
        }
    }
}

impl<'s, C: Crew<R>, R, N: Recorded, M: Timeline> Promise<EndedThread<C::Outcome, N, M>>
    for CrewPromise<'s, C, R> {
    ghost use Rattle.std.specs.Prelude.{IfSome, List};
    ghost use mathlib.Core.List.{IsPrefix};
    ghost use Rattle.am_history.specs.Fronts.{FrontView};
    ghost use Rattle.am_provider.specs.Histories.{EntryView};

    ghost kept_by = { λ p ended. (turns : List (FrontView EntryView)) → IsPrefix ended.seen.seen turns
        → IfSome ended.outcome (C.comes_to p.crew.now p.limits turns p.index ended.caller.pass ended.caller.front) };
}

// Runs a thread for each caller. None works before all are there; where one can't be started, none works.
pub(crate) fn run_threads<N: Recorded + Send + Sync, C: Crew<R> + Sync, R: Threads + Wait + Sync>(
    rt: &R,
    alloc: Global,
    limits: Limits,
    crew: &C,
    provider: &Provider<N>,
    callers: Vec<Caller<N>>,
) -> Result<Done<C::Outcome, N>, RunFault>
    requires fits { C.fits crew.now limits }
    requires count { vec_len callers ≡ limits.callers }
    requires fresh { All (λ caller. IsNewCaller caller.pass caller.front) callers.items }
    requires limits { (N.places ≡ limits.places) × (N.policy ≡ limits.policy)
        × (provider.now.resolve_timeout ≡ limits.resolve_timeout) }
    ensures { IfOk result (λ done. (length done.callers.items ≡ limits.callers)
        × (turns : List (FrontView EntryView)) × AreCrewOutcomes (C.comes_to crew.now limits turns)
        (map (λ caller. (caller.pass, caller.front)) done.callers.items) done.outcomes.items) }
{
    let taken = NewHistory::<Front<Entry, N>>::make(alloc, 1)?;
    run_registered::<N, Brand, C, R>(rt, alloc, limits, crew, provider, callers, taken)
}

// Runs them, with a register of the turns.
fn run_registered<
    N: Recorded + Send + Sync,
    M: Timeline + Send + Sync,
    C: Crew<R> + Sync,
    R: Threads + Wait + Sync,
>(
    rt: &R,
    alloc: Global,
    limits: Limits,
    crew: &C,
    provider: &Provider<N>,
    mut callers: Vec<Caller<N>>,
    taken: NewHistory<Front<Entry, N>>,
) -> Result<Done<C::Outcome, N>, RunFault>
    requires table { taken.board.shared.table_id ≡ M.timeline }
    requires ledger { (taken.ledger.name ≡ M.entries) × (taken.ledger.parts ≡ M.holders) × (0 < taken.ledger.parts) }
    requires fits { C.fits crew.now limits × (vec_len callers ≡ limits.callers) }
    requires fresh { All (λ caller. IsNewCaller caller.pass caller.front) callers.items }
    requires limits { (N.places ≡ limits.places) × (N.policy ≡ limits.policy)
        × (provider.now.resolve_timeout ≡ limits.resolve_timeout) }
    ensures { IfOk result (λ done. (length done.callers.items ≡ limits.callers)
        × (turns : List (FrontView EntryView)) × AreCrewOutcomes (C.comes_to crew.now limits turns)
        (map (λ caller. (caller.pass, caller.front)) done.callers.items) done.outcomes.items) }
{
    let onlooker = onlooker_of(provider, &mut callers);
    let register = Register::new(open::<Front<Entry, N>, M>(taken), onlooker);
    let start = Start::new(limits.callers);
    let shared = Shared {
        rt,
        alloc,
        limits,
        crew,
        provider,
        register: &register,
        start: &start,
    };
    let (done, seen) = run_shared(&shared, callers)?;
    register.conclude(seen);
    Ok(done)
}

// An onlooker of the calls, from the first caller.
fn onlooker_of<N: Recorded>(provider: &Provider<N>, callers: &mut [Caller<N>]) -> Front<Entry, N>
    requires some { 0 < length callers.old }
    requires fresh { All (λ caller. IsNewCaller caller.pass caller.front) callers.old }
    ensures count { length callers.new ≡ length callers.old }
    ensures fresh { All (λ caller. IsNewCaller caller.pass caller.front) callers.new }
{
    provider.onlooker(&mut callers[0])
}

// Runs a thread for each caller, which share this.
fn run_shared<
    N: Recorded + Send + Sync,
    M: Timeline + Send + Sync,
    C: Crew<R> + Sync,
    R: Threads + Wait + Sync,
>(
    shared: &Shared<'_, N, M, C, R>,
    callers: Vec<Caller<N>>,
) -> Result<AllDone<C::Outcome, N, M>, RunFault>
    requires fits { C.fits shared.now.crew.now shared.now.limits }
    requires count { vec_len callers ≤ shared.now.limits.callers }
    requires fresh { All (λ caller. IsNewCaller caller.pass caller.front) callers.items }
    ensures { IfOk result (λ all. (length all.0.callers.items ≡ vec_len callers)
        × ((turns : List (FrontView EntryView)) → All (λ one. IsPrefix one.seen turns) all.1.items
        → AreCrewOutcomes (C.comes_to shared.now.crew.now shared.now.limits turns)
        (map (λ caller. (caller.pass, caller.front)) all.0.callers.items) all.0.outcomes.items)) }
{
    thread::scope(
        thread::scope_env(),
        shared.rt,
        |scope| -> Result<AllDone<C::Outcome, N, M>, RunFault>
            requires fits { C.fits shared.now.crew.now shared.now.limits }
            requires count { vec_len callers ≤ shared.now.limits.callers }
            requires fresh { All (λ caller. IsNewCaller caller.pass caller.front) callers.items }
            ensures { IfOk result (λ all. (length all.0.callers.items ≡ vec_len callers)
                × ((turns : List (FrontView EntryView)) → All (λ one. IsPrefix one.seen turns) all.1.items
                → AreCrewOutcomes (C.comes_to shared.entry.now.crew.now shared.entry.now.limits turns)
                (map (λ caller. (caller.pass, caller.front)) all.0.callers.items) all.0.outcomes.items)) }
        { run_from(scope, shared, callers) },
    )
}

// Starts a thread for the last caller, then those for the others, and waits for it when these have ended.
fn run_from<
    's,
    E,
    N: Recorded + Send + Sync,
    M: Timeline + Send + Sync,
    C: Crew<R> + Sync,
    R: Threads + Wait + Sync,
>(
    scope: &Scope<'s, E>,
    shared: &'s Shared<'s, N, M, C, R>,
    mut callers: Vec<Caller<N>>,
) -> Result<AllDone<C::Outcome, N, M>, RunFault>
    requires fits { C.fits shared.now.crew.now shared.now.limits }
    requires count { vec_len callers ≤ shared.now.limits.callers }
    requires fresh { All (λ caller. IsNewCaller caller.pass caller.front) callers.items }
    ensures { IfOk result (λ all. (length all.0.callers.items ≡ vec_len callers)
        × ((turns : List (FrontView EntryView)) → All (λ one. IsPrefix one.seen turns) all.1.items
        → AreCrewOutcomes (C.comes_to shared.now.crew.now shared.now.limits turns)
        (map (λ caller. (caller.pass, caller.front)) all.0.callers.items) all.0.outcomes.items)) }
{
    let Some(caller) = callers.pop() else {
        return Ok((Done::none(shared.alloc), Vec::new(shared.alloc)));
    };
    let index = callers.len();
    let promise = CrewPromise::by(shared, index);
    let Ok(child) = scope.spawn_with(
        promise,
        move || -> EndedThread<C::Outcome, N, M>
            requires { (C.fits shared.now.crew.now shared.now.limits) × (IsNewCaller caller.pass caller.front)
                × (index < shared.now.limits.callers) }
        { work_when_told(shared, index, caller) },
    ) else {
        shared.start.give_up(shared.rt);
        return Err(RunFault::NoThread);
    };
    let others = run_from(scope, shared, callers);
    let ended = child.join(shared.rt);
    with_last(others?, ended)
}

// The outcomes of some threads, and that of one more, which has ended.
fn with_last<O: Drop, N: Recorded, M: Timeline>(
    others: AllDone<O, N, M>,
    ended: EndedThread<O, N, M>,
) -> Result<AllDone<O, N, M>, RunFault>
    ensures callers { IfOk result (λ all. all.0.callers.items ≡ others.0.callers.items ++ ended.caller ∷ []) }
    ensures seen { IfOk result (λ all. all.1.items ≡ others.1.items ++ ended.seen ∷ []) }
    ensures outcome { IfOk result (λ all. (one : O) × (ended.outcome ≡ Some one)
        × (all.0.outcomes.items ≡ others.0.outcomes.items ++ one ∷ [])) }
{
    let (mut done, mut all_seen) = others;
    let Worked {
        outcome,
        caller,
        seen,
    } = ended;
    let Some(outcome) = outcome else {
        return Err(RunFault::NoThread);
    };
    done.outcomes.push(outcome)?;
    done.callers.push(caller)?;
    all_seen.push(seen)?;
    Ok((done, all_seen))
}

// Meets the other threads, and works.
fn work_when_told<N: Recorded, M: Timeline, C: Crew<R>, R: Wait>(
    shared: &Shared<'_, N, M, C, R>,
    index: usize,
    caller: Caller<N>,
) -> EndedThread<C::Outcome, N, M>
    requires { (C.fits shared.now.crew.now shared.now.limits) × (IsNewCaller caller.pass caller.front)
        × (index < shared.now.limits.callers) }
    ensures { (turns : List (FrontView EntryView)) → IsPrefix result.seen.seen turns
        → IfSome result.outcome
        (C.comes_to shared.now.crew.now shared.now.limits turns index result.caller.pass result.caller.front) }
{
    if !shared.start.arrive(shared.rt) {
        let seen = shared.register.onlooker(shared.rt);
        return Worked {
            outcome: None,
            caller,
            seen,
        };
    }
    let Worked {
        outcome,
        caller,
        seen,
    } = shared.crew.work(
        shared.rt,
        shared.limits,
        shared.provider,
        shared.register,
        index,
        caller,
    );
    Worked {
        outcome: Some(outcome),
        caller,
        seen,
    }
}
