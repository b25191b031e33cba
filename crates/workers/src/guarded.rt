//! The state under the Mutex.

ghost use Rattle.std.specs.Prelude.{◌≡◌, ◌<◌, ◌+◌, ◌^◌, [], length, IfOk, IfErr, OnOk, OnErr, IfSome, IsTrue};
ghost use Rattle.locks.specs.Waiting.{HasNoCycle};
ghost use Rattle.lock_manager.specs.Manager.{IsQuiet};
ghost use Rattle.lock_manager.specs.Working.Managers.{opened, askers_of, IsKept};
ghost use Rattle.runner.specs.Working.Opens.{IsSame, ready_of, ready_again};
ghost use Rattle.runner.specs.Working.Answers.{GoesOnSame, open_of};
ghost use Rattle.workers.specs.Working.Guarding.{IsManagerOf};
ghost use Rattle.workers.specs.Working.LockEnds.{AreAsSeen, IsPartAt, asked_open};
ghost use Rattle.workers.specs.Logs.{IsSound};
ghost use Rattle.workers.specs.Working.Within.{IsBegun, IsBegunOn, IsEntered, SeesItsOwn};

use crate::asking::ask_on;
use crate::front::Front;
use crate::lock_ends::LockEnds;
use crate::log::Log;
use crate::naming::Naming;
use crate::seat::CallRefusal;
use lock_manager::manager::Manager;
use lock_manager::ticket::Receipt;
use locks::lock::Lock;
use lowering::compiled::Program;
use runner::states::{Asked, Asking, Ended, Next, Poised, Ready, Running};
use source::memory::NoMemory;
use std::alloc::Global;
use std::marker::Model;

/// The state that the Mutex guards: a manager of the program that `J` names, whose entries are true, and the log of
/// these entries. Its value is the manager.
///
/// Each method is one hold of the Mutex. What one hold left for the next is tested, never taken for granted.
#[derive(Drop)]
pub struct Guarded<'p, 'r, J: Naming> {
    manager: Manager<'p>,
    log: Log<'r, J>,
    ends: LockEnds<'p>,
}

impl<'p, 'r, J: Naming> Model for Guarded<'p, 'r, J> {
    ghost use Rattle.std.specs.Prelude.{◌≡◌};
    ghost use Rattle.lock_manager.specs.Manager.{Managed};
    ghost use Rattle.workers.specs.Working.Guarding.{IsManagerOf};
    ghost use Rattle.workers.specs.Working.LockEnds.{AreEndsOf};

    ghost Value = { Managed };

    ghost view = { λ g. g.manager };

    ghost invariant = { λ g.
        IsManagerOf J.plan g.manager
        × (g.log ≡ g.manager.history)
        × (g.ends.layout ≡ J.plan.layout)
        × AreEndsOf g.ends g.manager.history };
}

impl<'p, 'r, J: Naming> Guarded<'p, 'r, J> {
    /// The state before any call.
    ///
    /// # Errors
    ///
    /// `NoMemory`: a growth was refused.
    pub fn open(
        alloc: Global,
        program: &'p Program,
        log: Log<'r, J>,
    ) -> Result<Guarded<'p, 'r, J>, NoMemory>
        requires named { program.now ≡ J.plan }
        requires empty { log ≡ [] }
        ensures { IfOk result (λ g. g ≡ opened J.plan.layout J.plan.ranks) }
    {
        worlds::laws::worlds_stay_ready();
        let _shown = program.expanded();
        let manager = Manager::open(alloc, program.layout(), program.ranks())?;
        let ends = LockEnds::of(alloc, program.layout())?;
        Ok(Guarded { manager, log, ends })
    }

    /// Begins a call.
    ///
    /// # Errors
    ///
    /// An allocation fails, or the thread has an open section. Nothing has begun.
    pub fn begin(
        &mut self,
        alloc: Global,
        poised: Poised<'p>,
    ) -> Result<Running<'p>, (Ready<'p>, CallRefusal)>
        requires thread { poised.thread < 64 }
        ensures ok { IfOk result (λ running. IsBegun poised.entry running) }
        ensures err { IfErr result (λ e. e.0 ≡ ready_of poised.entry) }
        ensures history { self.new.history ≡ self.old.history }
    {
        if self.manager.is_open(poised.thread()) {
            return Err((poised.let_go(), CallRefusal::Strange));
        }
        match poised.begin(alloc, &mut self.manager) {
            Ok(running) => Ok(running),
            Err(ready) => Err((ready, CallRefusal::NoMemory)),
        }
    }

    /// Begins a call. If `asks` is set, it also runs the first instruction, and asks for the locks that the section then
    /// needs. The cells of the section are part of what the log `front` leaves. Returns the section, which waits or goes
    /// on, and how many locks were granted.
    ///
    /// # Errors
    ///
    /// As those of [`Guarded::begin`] and [`Guarded::ask`]. The section has ended without an entry.
    pub(crate) fn begin_on(
        &mut self,
        alloc: Global,
        poised: Poised<'p>,
        asks: bool,
        front: &mut Front<'r, J>,
    ) -> Result<(Asked<'p>, u32), (Ready<'p>, CallRefusal)>
        requires thread { poised.thread < 64 }
        requires plan { poised.plan ≡ J.plan }
        ensures ok { IfOk result (λ r. IsBegunOn poised.entry (asked_open r.0)) }
        ensures part { IfOk result (λ r. IsPartAt J.plan front.new (asked_open r.0)) }
        ensures err { IfErr result (λ e. e.0 ≡ ready_of poised.entry) }
        ensures history { self.new.history ≡ self.old.history }
    {
        runner::laws::sections_stay_part();
        let running = match self.begin(alloc, poised) {
            Ok(running) => running,
            Err(refused) => return Err(refused),
        };
        if !asks {
            return Ok((Asked::Got(Next::Running(running)), 0));
        }
        match self.ask_first(running.run(1).1, front) {
            Ok(answered) => Ok(answered),
            Err(ready) => Err((ready, CallRefusal::Strange)),
        }
    }

    // Asks for the locks that a section needs next, if it asks for one. Errors: as those of `ask`.
    fn ask_first(
        &mut self,
        next: Next<'p>,
        front: &mut Front<'r, J>,
    ) -> Result<(Asked<'p>, u32), Ready<'p>>
        requires plan { (open_of next).plan ≡ J.plan }
        requires part { IsPartAt J.plan front.old (open_of next) }
        ensures ok { IfOk result (λ r. IsSame (open_of next.entry) (asked_open r.0)) }
        ensures part { IfOk result (λ r. IsPartAt J.plan front.new (asked_open r.0)) }
        ensures err { IfErr result (λ ready. ready ≡ ready_again (open_of next.entry)) }
        ensures history { self.new.history ≡ self.old.history }
    {
        match next {
            Next::Asking(asking) => self.ask(asking, front, u32::MAX),
            next => Ok((Asked::Got(next), 0)),
        }
    }

    // Tests that the cells of these locks have the values that the log `front`, which was seen, leaves: since then
    // nothing was entered, or none of the locks was given back. No cell is read.
    fn are_as_seen(&self, locks: &[Lock], front: &Front<'r, J>) -> bool
        ensures { IsTrue result → AreAsSeen J.plan locks.now front.now self.now.history }
    {
        history::laws::commuting();
        history::laws::one_entry_more();
        self.manager.keeps_its_rules();
        let log = self.log.front();
        if !front.begins(&log) {
            return false;
        }
        front.len() == log.len() || self.ends.are_before(locks, front.len())
    }

    /// Asks for the next lock, and after each grant for the one after it, at most `most` times, for a section whose cells
    /// are part of what the log `front` leaves. Afterwards `front` is the present log, and they are part of what that
    /// leaves. Returns the last answer, and how many locks were granted.
    ///
    /// # Errors
    ///
    /// The manager isn't the one that the section left. The section has ended without an entry.
    pub(crate) fn ask(
        &mut self,
        asking: Asking<'p>,
        front: &mut Front<'r, J>,
        most: u32,
    ) -> Result<(Asked<'p>, u32), Ready<'p>>
        requires plan { asking.plan ≡ J.plan }
        requires part { IsPartAt J.plan front.old asking }
        ensures ok { IfOk result (λ r. GoesOnSame asking.entry r.0) }
        ensures part { IfOk result (λ r. IsPartAt J.plan front.new (asked_open r.0)) }
        ensures err { IfErr result (λ ready. ready ≡ ready_again asking.entry) }
        ensures history { self.new.history ≡ self.old.history }
    {
        runner::laws::sections_stay_part();
        asking.keeps_its_rules();
        self.manager.keeps_its_rules();
        if !asking.fits(&self.manager) {
            return Err(asking.give_up(&mut self.manager));
        }
        if !self.are_as_seen(asking.held(), front) {
            return Err(asking.give_up(&mut self.manager));
        }
        *front = self.log.front();
        Ok(ask_on(&mut self.manager, asking, most))
    }

    /// Enters the entry of a section that began when the history was at least as long as what its seat has seen, and
    /// whose cells are part of what the log `front` leaves. Afterwards the seat has seen all entries up to this one,
    /// which is included.
    ///
    /// # Errors
    ///
    /// The entry doesn't fit, or another entry of the thread came between. The section has ended without an entry.
    pub(crate) fn finish(
        &mut self,
        ended: Ended<'p>,
        front: &Front<'r, J>,
        seen: &mut Front<'r, J>,
    ) -> Result<(Ready<'p>, Receipt), Ready<'p>>
        requires plan { ended.plan ≡ J.plan }
        requires part { IsPartAt J.plan front.now ended }
        ensures entered { IfOk result (λ r. IsEntered J.plan (length seen.old) ended.entry r.1.position) }
        ensures own { IfOk result (λ r. SeesItsOwn ended.entry r.1.position seen.old seen.new) }
        ensures sound { OnOk result (IsSound J.plan seen.new) }
        ensures small { IfOk result (λ r. r.1.position + 1 < 2 ^ 64) }
        ensures ok { IfOk result (λ r. r.0 ≡ record { thread = ended.entry.thread; step = ended.entry.step + 1 }) }
        ensures err { IfErr result (λ ready. ready ≡ ready_again ended.entry) }
        ensures same { OnErr result (seen.new ≡ seen.old) }
        ensures nothing { OnErr result (self.new.history ≡ self.old.history) }
        ensures one { IfOk result (λ r. r.1.position ≡ length self.old.history) }
    {
        history::laws::one_entry_more();
        worlds::laws::sections_stay_in_order();
        runner::laws::sections_stay_part();
        ended.keeps_its_rules();
        self.manager.keeps_its_rules();
        let floor = seen.len();
        let position = self.manager.history().len();
        let entry = ended.entry();
        let begun = entry.begun();
        if begun < floor || position < begun || !self.are_as_seen(ended.held(), front) {
            return Err(self.give_up(ended));
        }
        if !ended.fits_as_part(&self.manager) {
            return Err(self.give_up(ended));
        }
        if !seen.begins(&self.log.front())
            || !self.log.has_none_of(entry.thread(), floor)
            || !self.log.enter(&entry)
        {
            return Err(self.give_up(ended));
        }
        *seen = self.log.front();
        self.ends.give_back(ended.held(), seen.len());
        Ok(ended.release(&mut self.manager))
    }

    /// Ends a section without an entry.
    pub(crate) fn give_up(&mut self, ended: Ended<'p>) -> Ready<'p>
        ensures ready { result ≡ ready_again ended.entry }
        ensures history { self.new.history ≡ self.old.history }
    {
        ended.give_up(&mut self.manager)
    }

    /// The manager and the log, if no section is open.
    pub fn into_parts(self) -> Option<(Manager<'p>, Log<'r, J>)>
        ensures manager { IfSome result (λ r. r.0 ≡ self.entry) }
        ensures of_the_program { IfSome result (λ r. IsManagerOf J.plan r.0) }
        ensures quiet { IfSome result (λ r. IsQuiet r.0) }
        ensures log { IfSome result (λ r. r.1 ≡ r.0.history) }
    {
        let Guarded {
            manager,
            log,
            ends: _,
        } = self;
        if !manager.is_quiet() {
            return None;
        }
        Some((manager, log))
    }

    /// A law: the manager keeps its rules, and no threads wait in a cycle. It has the layout and the ranks of the
    /// program, and its entries are true.
    pub fn keeps_its_rules(&self)
        ensures of_the_program { IsManagerOf J.plan self.now }
        ensures rules_kept { IsKept self.now }
        ensures no_circle { HasNoCycle (askers_of self.now) }
    {
        self.manager.keeps_its_rules();
    }
}
