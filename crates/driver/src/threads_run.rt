//! The answers of `run` for a program.

ghost use Rattle.std.specs.Prelude.{◌≡◌, IfOk, Some, None, length};
ghost use Rattle.driver.specs.Working.Answering.{Meets};
ghost use Rattle.driver.specs.Working.ThreadRunning.{is_run};
ghost use Rattle.driver.specs.ThreadRuns.{IsStrange, IsThreadsRun};

use crate::answer::Answer;
use crate::status::Status;
use core_lang::value::Value;
use driver_words::RunOptions;
use input_files::Format;
use lowering::compiled::Program;
use report::entries_text;
use report_runs::Seen;
use rope::Rope;
use source::keyed::KeyedState;
use source::memory::NoMemory;
use std::alloc::Global;
use std::sync::Wait;
use std::thread::Threads;
use workers::closed::Closed;
use workers::delaying::DelayingGate;
use workers::gate::Gate;
use workers::seat::CallRefusal;
use workers::threads::run_threads;

/// A gate that delays threads where `delays` is given, and lets them pass otherwise.
#[derive(Drop)]
struct RunGate {
    delays: Option<DelayingGate>,
}

impl RunGate {
    /// The gate of a run after `before` earlier runs: its delays are drawn from `seed` plus `before`.
    fn of(seed: Option<u64>, before: u64) -> RunGate {
        RunGate {
            delays: match seed {
                Some(seed) => Some(DelayingGate::new(seed.wrapping_add(before))),
                None => None,
            },
        }
    }
}

impl Gate for RunGate {
    fn pass(&self, thread: u32, step: u32) {
        if let Some(delays) = &self.delays {
            delays.pass(thread, step);
        }
    }

    fn sees_each_grant(&self) -> bool {
        self.delays.is_some()
    }
}

/// The values that a closed history leaves in its cells, whose number is `cells`.
fn values_of(alloc: Global, closed: &Closed<'_>, cells: usize) -> Result<Vec<Value>, NoMemory>
    requires { cells ≡ length closed.now.values }
    ensures { IfOk result (λ values. values.items ≡ closed.now.values) }
{
    let mut values = Vec::with_capacity(alloc, cells)?;
    for cell in 0..cells {
        values.push(closed.cell(cell))?;
    }
    Ok(values)
}

/// A finished run, with the values that it leaves in its cells.
#[derive(Drop)]
struct Ran<'p> {
    closed: Closed<'p>,
    values: Vec<Value>,
}

/// The answer that reports a refusal.
fn refused(alloc: Global, refusal: CallRefusal) -> Result<Answer, NoMemory>
    ensures { IfOk result (Meets IsStrange) }
{
    match refusal {
        CallRefusal::NoMemory => Err(NoMemory),
        CallRefusal::Strange => {
            let message = String::from_str(alloc, "autolock: strange")?;
            Answer::refused(alloc, Status::Strange, message)
        }
    }
}

/// Runs of a program's scripts, each script in a thread of its own.
#[derive(Drop)]
pub struct ThreadRuns<'p, 't, R: Threads + Wait + Sync> {
    /// The source of the threads.
    pub threads: &'t R,
    /// The allocator.
    pub alloc: Global,
    /// The program.
    pub program: &'p Program,
    /// The options: how often the scripts run, and with which delays.
    pub running: RunOptions,
    /// How runs are hashed: keyed by the program's text.
    pub hashing: KeyedState,
}

impl<'p, 't, R: Threads + Wait + Sync> ThreadRuns<'p, 't, R> {
    /// Runs all scripts once, after `before` earlier runs.
    fn once(&self, before: u64) -> Result<Ran<'p>, CallRefusal>
        ensures { IfOk result (is_run self.now.program.now) }
    {
        let gate = RunGate::of(self.running.seed, before);
        let closed = run_threads(self.threads, self.alloc, self.program, &gate)?;
        let cells = self.program.expanded().cells.len();
        let values = values_of(self.alloc, &closed, cells)?;
        Ok(Ran { closed, values })
    }

    /// Runs all scripts once, and returns their history text.
    fn one(&self) -> Result<Answer, NoMemory>
        ensures { IfOk result (Meets (IsThreadsRun None self.now.program.now)) }
    {
        let ran = match self.once(0) {
            Ok(ran) => ran,
            Err(refusal) => return refused(self.alloc, refusal),
        };
        let typed = self.program.expanded();
        let history = ran.closed.history();
        let out = entries_text(self.alloc, Format::Two, typed, history, &ran.values)?;
        Ok(Answer::done(self.alloc, Rope::of(self.alloc, out)))
    }

    /// Runs all scripts the given number of times, and returns the text of how these runs differ.
    fn all(&self, times: u64) -> Result<Answer, NoMemory>
        ensures { IfOk result (Meets (IsThreadsRun (Some times) self.now.program.now)) }
    {
        let mut seen = Seen::new(self.alloc, self.program.expanded(), self.hashing);
        for before in 0..times {
            match self.once(before) {
                Ok(ran) => seen.add(ran.closed.history(), &ran.values)?,
                Err(refusal) => return refused(self.alloc, refusal),
            }
        }
        let out = seen.text()?;
        Ok(Answer::done(self.alloc, Rope::of(self.alloc, out)))
    }

    /// Runs all scripts as often as `running` asks, and returns the answer to `run`. It returns if all calls return.
    pub fn answer(&self) -> Result<Answer, NoMemory>
        ensures { IfOk result (Meets (IsThreadsRun self.now.running.times self.now.program.now)) }
    {
        match self.running.times {
            Some(times) => self.all(times),
            None => self.one(),
        }
    }
}
