//! A program whose sections threads run.

ghost use Rattle.std.specs.Prelude.{◌≡◌, ◌<◌, ◌≤◌, ◌+◌, ◌^◌, ◌↔◌, length, map, IsTrue, MatchBool, IfOk, IfErr, OnOk, OnErr};
ghost use Rattle.std.specs.List.{All};
ghost use Rattle.core_lang.specs.WellFormed.{CanCall};
ghost use Rattle.core_lang_helpers.specs.Prints.{most_prints};
ghost use Rattle.lock_manager.specs.Manager.{IsQuiet};
ghost use Rattle.runner.specs.Working.Opens.{IsSame, ready_again};
ghost use Rattle.runner.specs.Working.Answers.{open_of};
ghost use Rattle.workers.specs.Seats.{AllBelow, Gains, new_seats};
ghost use Rattle.workers.specs.Answers.{IsAnswer, IsAnswerAsAccepted, RunsAsAccepted, IsSeated, IsHistoryOf, AnswersAreIn, as_call};
ghost use Rattle.workers.specs.Logs.{Begins, IsSound};
ghost use Rattle.workers.specs.Seen.{Sees, SeenIsIn};
ghost use Rattle.workers.specs.Working.LockEnds.{IsPartAt, asked_open};
ghost use Rattle.workers.specs.Working.Within.{HasAnswer, HasBegun, HasRoomFor, IsEntered, SeesItsOwn};

use crate::answer_room::AnswerRoom;
use crate::closed::{Closed, Strange};
use crate::closing::fit;
use crate::front::Front;
use crate::gate::Gate;
use crate::guarded::Guarded;
use crate::log::Log;
use crate::naming::Naming;
use crate::parking::{Parking, Wakings};
use crate::print_rooms::PrintRooms;
use crate::row::Row;
use crate::seat::{CallRefusal, Done, Seat};
use crate::seating::Seating;
use core_lang::value::Value;
use lock_manager::ticket::Receipt;
use lowering::compiled::Program;
use runner::states::{Asked, Ended, Next, Ready};
use source::memory::NoMemory;
use std::alloc::Global;
use std::mem;
use std::sync::{Mutex, Wait};

/// A program whose sections threads run, each from its own [`Seat`]. The manager of its locks, with the cells and the
/// history, is under a Mutex.
#[derive(Drop)]
pub struct Shared<'p, 'r, J: Naming> {
    alloc: Global,
    program: &'p Program,
    guarded: Mutex<Guarded<'p, 'r, J>>,
    wakings: Wakings,
    print_rooms: PrintRooms,
    ghost is: { program.now ≡ J.plan },
    ghost rooms: { print_rooms ≡ map most_prints J.plan.program.sections.items },
}

// Takes a thread out of its seat. The thread as it was before its first call takes its place.
fn take_out<'p>(ready: &mut Ready<'p>) -> Ready<'p>
    ensures { result ≡ ready.old }
{
    let thread = ready.thread();
    mem::replace(ready, Ready::new(thread))
}

// Puts a thread back.
fn put_back<'p>(place: &mut Ready<'p>, ready: Ready<'p>)
    ensures { place.new ≡ ready.entry }
{
    let _first = mem::replace(place, ready);
}

// Tells the gate of the next `count` grants of a thread that had `granted` before. Returns how many it has then.
fn pass_each<G: Gate>(gate: &G, thread: u32, granted: u32, count: u32) -> u32 {
    let mut granted = granted;
    for _ in 0..count {
        granted = granted.wrapping_add(1);
        gate.pass(thread, granted);
    }
    granted
}

// The section after an answer. Where it waits for a lock, the thread is woken first.
fn awake<'p, R: Wait>(rt: &R, asked: Asked<'p>, parking: &Parking) -> Next<'p>
    ensures { open_of result ≡ asked_open asked.entry }
{
    match asked {
        Asked::Got(next) => next,
        Asked::Waits(again, _) => {
            parking.wait(rt);
            Next::Asking(again)
        }
    }
}

// An open section, and how many locks it was granted.
struct Going<'p> {
    next: Next<'p>,
    granted: u32,
}

// A call of a section by a thread, the place where the thread waits, and the observer.
#[derive(Drop)]
struct Request<'a, G> {
    thread: u32,
    section: usize,
    arguments: &'a [Value],
    parking: &'a Parking,
    gate: &'a G,
}

impl<G: Gate> Request<'_, G> {
    // The most locks that it asks for in one hold of the Mutex.
    fn most(&self) -> u32 {
        if self.gate.sees_each_grant() {
            1
        } else {
            u32::MAX
        }
    }
}

impl<'p, 'r, J: Naming> Shared<'p, 'r, J> {
    /// The program before any call, with the seats of the first `count` threads. The seats have no answers and have
    /// seen nothing. The calls are entered into `row`, which `J` names. The row is unchanged, also after an error, and
    /// can be lent again. Where several are opened over one row, only the one that enters a call first can enter any:
    /// the calls and the `close` of the others fail with `Strange`.
    ///
    /// # Errors
    ///
    /// `NoMemory`: a growth was refused.
    pub fn open(
        row: &'r Row,
        alloc: Global,
        program: &'p Program,
        count: u32,
    ) -> Result<(Shared<'p, 'r, J>, Vec<Seat<'p, 'r, J>>), NoMemory>
        requires program { program.now ≡ J.plan }
        requires row { row.now ≡ J.book }
        requires few { count ≤ 64 }
        ensures { IfOk result (λ r. r.1.items ≡ new_seats count) }
    {
        let print_rooms = PrintRooms::of(alloc, program.expanded())?;
        let log = Log::of(row, alloc, count)?;
        let Seating { seats, wakings, .. } = Seating::of(alloc, log.front(), count)?;
        let guarded = match Guarded::open(alloc, program, log) {
            Ok(guarded) => guarded,
            Err(NoMemory) => {
                drop(seats);
                drop(wakings);
                return Err(NoMemory);
            }
        };
        let shared = Shared {
            alloc,
            program,
            guarded: Mutex::new(guarded),
            wakings: Wakings::new(wakings),
            print_rooms,
        };
        Ok((shared, seats))
    }

    /// The program.
    pub fn program(&self) -> &'p Program
        ensures { result.now ≡ J.plan }
    {
        self.program
    }

    /// Runs a section from a seat, and enters it into the history. Other threads may run sections meanwhile. The gate
    /// observes its progress.
    ///
    /// The answer is the result of the call after some legal history of true entries, as long as the answer's position.
    /// The call began after all earlier answers of the seat, at the latest at its own position. What the seat has seen
    /// is what it had seen, then entries of others, then this call. After its begin a call is not refused memory, which
    /// no clause says.
    ///
    /// # Errors
    ///
    /// `NoMemory`; or `Strange`: the manager is not the one that the seat left, the thread has another entry that the
    /// seat has not seen, the log has no place for the thread, or the row has entries of another [`Shared`]. The seat
    /// is then unchanged, and nothing was entered: the thread has no entry between what the seat had seen and the entry
    /// of a later call (`seen`), and a closed history has exactly the entries of the seat's answers (`close`:
    /// `answers`).
    pub fn call<R: Wait, G: Gate>(
        &self,
        rt: &R,
        seat: &mut Seat<'p, 'r, J>,
        section: usize,
        arguments: &[Value],
        gate: &G,
    ) -> Result<Done, CallRefusal>
        requires { CanCall J.plan.program section arguments.now }
        ensures answer { let call = as_call section arguments.now in
            IfOk result (λ d. IsAnswer J.plan call d.position d.outcome d.prints.items) }
        ensures accepted { let call = as_call section arguments.now in
            IfOk result (λ d. IsAnswerAsAccepted J.plan call d.position d.outcome d.prints.items) }
        ensures gained { let call = as_call section arguments.now in
            IfOk result (λ d. Gains seat.old seat.new d.position call d.outcome d.prints.items) }
        ensures above { IfOk result (λ d. AllBelow d.position seat.old.answers) }
        ensures seen { OnOk result (Sees J.plan seat.old seat.new) }
        ensures err { OnErr result (seat.new ≡ seat.old) }
    {
        let ready = take_out(&mut seat.ready);
        let request = Request {
            thread: ready.thread(),
            section,
            arguments,
            parking: &seat.parking,
            gate,
        };
        match self.run(rt, ready, &request, &mut seat.seen) {
            Ok((ready, done)) => {
                put_back(&mut seat.ready, ready);
                Ok(done)
            }
            Err((ready, refusal)) => {
                put_back(&mut seat.ready, ready);
                Err(refusal)
            }
        }
    }

    // Makes a call of a thread, from its begin to its entry. Entering it shows that there was room for its prints: it
    // is run whole there.
    fn run<R: Wait, G: Gate>(
        &self,
        rt: &R,
        ready: Ready<'p>,
        request: &Request<'_, G>,
        seen: &mut Front<'r, J>,
    ) -> Result<(Ready<'p>, Done), (Ready<'p>, CallRefusal)>
        requires thread { ready.thread < 64 }
        requires fits { CanCall J.plan.program request.now.section request.now.arguments.now }
        ensures answer { let call = as_call request.now.section request.now.arguments.now in
            IfOk result (λ r. HasAnswer J.plan call ready.entry seen.old r.0 r.1 seen.new) }
        ensures accepted { let call = as_call request.now.section request.now.arguments.now in
            IfOk result (λ r. IsAnswerAsAccepted J.plan call r.1.position r.1.outcome r.1.prints.items) }
        ensures err { IfErr result (λ r. r.0 ≡ ready.entry) }
        ensures same { OnErr result (seen.new ≡ seen.old) }
    {
        history::laws::legal_is_serial();
        lowering::laws::compiled_run_alike();
        core_lang::laws::writing_out_changes_nothing();
        let _shown = self.program.expanded();
        core_lang_helpers::laws::no_run_prints_more();
        let mut front = seen.again();
        let (room, going) = self.begin(rt, ready, request, &mut front)?;
        let ended = match self.go_on(rt, going, request, &mut front) {
            Ok(ended) => ended,
            Err(ready) => return Err((ready, CallRefusal::Strange)),
        };
        let mut done = room.of(&ended.entry());
        match self.finish(rt, ended, &front, seen) {
            Ok((ready, position)) => {
                done.position = position;
                // (only now, since an open section neither takes nor frees memory)
                done.prints.shrink_to_fit();
                Ok((ready, done))
            }
            Err(ready) => Err((ready, CallRefusal::Strange)),
        }
    }

    // Prepares all that a call can need, and begins it. Unless the gate observes each grant, it asks for the first locks
    // in the same hold of the Mutex. Then the cells of the section are part of what the log `front` leaves.
    fn begin<R: Wait, G: Gate>(
        &self,
        rt: &R,
        ready: Ready<'p>,
        request: &Request<'_, G>,
        front: &mut Front<'r, J>,
    ) -> Result<(AnswerRoom, Going<'p>), (Ready<'p>, CallRefusal)>
        requires thread { ready.thread < 64 }
        requires fits { CanCall J.plan.program request.now.section request.now.arguments.now }
        ensures ok { let call = as_call request.now.section request.now.arguments.now in
            IfOk result (λ r. HasBegun J.plan call ready.entry (open_of r.1.next)) }
        ensures part { IfOk result (λ r. IsPartAt J.plan front.new (open_of r.1.next)) }
        ensures room { IfOk result (λ r. HasRoomFor J.plan request.now.section r.0) }
        ensures err { IfErr result (λ r. r.0 ≡ ready.entry) }
    {
        let alloc = self.alloc;
        let prints = self.print_rooms.room(request.section);
        let Ok(room) = AnswerRoom::new(alloc, prints) else {
            return Err((ready, CallRefusal::NoMemory));
        };
        let poised = match ready.prepare(alloc, self.program, request.section, request.arguments) {
            Ok(poised) => poised,
            Err(ready) => return Err((ready, CallRefusal::NoMemory)),
        };
        let asks = !request.gate.sees_each_grant();
        let begun = self.guarded.lock(rt).begin_on(alloc, poised, asks, front);
        let (asked, count) = match begun {
            Ok(answered) => answered,
            Err(refused) => return Err(refused),
        };
        request.gate.pass(request.thread, 0);
        let granted = pass_each(request.gate, request.thread, 0, count);
        let next = awake(rt, asked, request.parking);
        Ok((room, Going { next, granted }))
    }

    // Runs an open section to its end, and waits for its locks. Its cells are part of what the log `front` leaves,
    // before and after. Errors: the manager is not the one that the section left; the section has ended without an
    // entry.
    fn go_on<R: Wait, G: Gate>(
        &self,
        rt: &R,
        going: Going<'p>,
        request: &Request<'_, G>,
        front: &mut Front<'r, J>,
    ) -> Result<Ended<'p>, Ready<'p>>
        requires plan { (open_of going.next).plan ≡ J.plan }
        requires part { IsPartAt J.plan front.old (open_of going.next) }
        ensures ok { IfOk result (λ ended. IsSame (open_of going.entry.next) ended) }
        ensures part { IfOk result (λ ended. IsPartAt J.plan front.new ended) }
        ensures err { IfErr result (λ ready. ready ≡ ready_again (open_of going.entry.next)) }
    {
        runner::laws::sections_stay_part();
        let most = request.most();
        let Going {
            mut next,
            mut granted,
        } = going;
        for _ in rt.forever() {
            next = match next {
                Next::Running(running) => running.run(usize::MAX).1,
                Next::Asking(asking) => {
                    let answer = self.guarded.lock(rt).ask(asking, front, most);
                    match answer {
                        Ok((asked, count)) => {
                            granted = pass_each(request.gate, request.thread, granted, count);
                            awake(rt, asked, request.parking)
                        }
                        Err(ready) => {
                            self.wakings.wake_all();
                            return Err(ready);
                        }
                    }
                }
                Next::Ended(ended) => return Ok(ended),
            };
        }
        unreachable!()
    }

    // Enters the entry of a section that began when the history was at least as long as what its seat has seen, and
    // wakes the first waiter for each of its locks. Errors: the entry doesn't fit, or another entry of the thread came
    // between; the section has ended without an entry.
    fn finish<R: Wait>(
        &self,
        rt: &R,
        ended: Ended<'p>,
        front: &Front<'r, J>,
        seen: &mut Front<'r, J>,
    ) -> Result<(Ready<'p>, usize), Ready<'p>>
        requires plan { ended.plan ≡ J.plan }
        requires part { IsPartAt J.plan front.now ended }
        ensures entered { IfOk result (λ r. IsEntered J.plan (length seen.old) ended.entry r.1) }
        ensures own { IfOk result (λ r. SeesItsOwn ended.entry r.1 seen.old seen.new) }
        ensures sound { OnOk result (IsSound J.plan seen.new) }
        ensures ok { IfOk result (λ r. r.0 ≡ record { thread = ended.entry.thread; step = ended.entry.step + 1 }) }
        ensures err { IfErr result (λ ready. ready ≡ ready_again ended.entry) }
        ensures same { OnErr result (seen.new ≡ seen.old) }
    {
        let finished = self.guarded.lock(rt).finish(ended, front, seen);
        match finished {
            Ok((ready, receipt)) => {
                self.wake(&receipt);
                let position = receipt.position();
                Ok((ready.keep(receipt), position))
            }
            Err(ready) => {
                self.wakings.wake_all();
                Err(ready)
            }
        }
    }

    // Wakes the threads that a receipt names.
    fn wake(&self, receipt: &Receipt) {
        for i in 0..64usize {
            match receipt.wake(i) {
                Some(thread) => self.wakings.wake(thread),
                None => return,
            }
        }
    }

    /// What two seats of one log have seen are prefixes of each other; returns whether that of `one` is a prefix of
    /// that of `other`.
    pub fn agree(one: &Seat<'p, 'r, J>, other: &Seat<'p, 'r, J>) -> bool
        ensures one_begins { MatchBool result (Begins one.now.seen other.now.seen)
            (Begins other.now.seen one.now.seen) }
        ensures exact { IsTrue result ↔ Begins one.now.seen other.now.seen }
    {
        one.seen.begins(&other.seen)
    }

    /// Closes the history, and returns it with the values that it leaves, if no section is open, the seats' answers are
    /// exactly its entries, and what they have seen is a prefix of it.
    ///
    /// # Errors
    ///
    /// A section is open, the answers are not exactly the entries, or the row has others.
    #[tactic(auto, using(crate::proofs::Guarding::has_cells))]
    pub fn close(self, seats: Vec<Seat<'p, 'r, J>>) -> Result<Closed<'p>, Strange>
        ensures history { IfOk result (λ c. IsHistoryOf J.plan c.history c.values) }
        ensures accepted { IfOk result (λ c. RunsAsAccepted J.plan c.history c.values) }
        ensures quiet { IfOk result IsQuiet }
        ensures answers { IfOk result (λ c. All (AnswersAreIn c.history) seats.entry.items) }
        ensures no_other { IfOk result (λ c. All (IsSeated seats.entry.items) c.history) }
        ensures seen { IfOk result (λ c. All (SeenIsIn c.history) seats.entry.items) }
    {
        history::laws::legal_is_serial();
        lowering::laws::compiled_run_alike();
        let Shared {
            alloc: _,
            program,
            guarded,
            wakings: _,
            print_rooms: _,
        } = self;
        let _shown = program.expanded();
        let Some((manager, log)) = guarded.into_inner().into_parts() else {
            return Err(Strange);
        };
        manager.keeps_its_rules();
        let fits = fit(seats.as_slice(), &log);
        drop(seats);
        drop(log);
        if !fits {
            drop(manager);
            return Err(Strange);
        }
        Ok(Closed { manager })
    }
}
