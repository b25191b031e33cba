//! The questions about a text.

ghost use Rattle.std.specs.Prelude.{◌≡◌, ◌↔◌, List, Some, None, ℕ, codes, true, false};
ghost use Rattle.std.specs.Borrow.{Bor};
ghost use Rattle.test_support.specs.Asking.{IsSerial, IsSimulate, looking};

use driver_words::{OutcomesOptions, Report};

/// How orders of calls are explored.
const LOOKING: OutcomesOptions<'static> = OutcomesOptions {
    turns: 1000,
    count: 1000,
    seed: 0,
    cells: None,
    answers: false,
    full: false,
    expect: None,
};

/// An engine of the crate `driver` that is run on the text, and the question about its answer.
#[derive(Clone, Copy)]
pub enum Engine<'a> {
    /// `check`: whether it accepts the text, or its fault.
    Check,
    /// The whole report on its program.
    Report(Report<'a>),
    /// The graph of its lock classes.
    Graph,
    /// `simulate`: the world after these steps.
    Simulate(&'a str),
}

// The question for the listing, with places or without.
fn listing<'a>(places: bool) -> Asked<'a>
    ensures { result ≡ Asked.Engine (Engine.Report (Report.Listing places)) }
{
    Asked::Engine(Engine::Report(Report::Listing { places }))
}

/// A question about a text.
#[derive(Clone, Copy)]
pub enum Asked<'a> {
    /// The answer of this engine.
    Engine(Engine<'a>),
    /// The tokens.
    Tokens,
    /// Whether the text has a tree, or its fault.
    Tree,
    /// The printed tree.
    Print,
    /// Whether the printed tree is read again as the same tree.
    Again,
    /// The lock paths of the sections and points.
    Paths,
    /// The points of the sections, and their lock paths.
    Points,
    /// The order of the lock classes, and what it means for the points.
    Order,
}

impl Asked<'_> {
    /// The question that `word` asks, if it is one of the words below.
    pub fn named(word: &str) -> Option<Asked<'_>>
        ensures check { (result ≡ Some (Asked.Engine Engine.Check)) ↔ (word.now ≡ codes "check") }
        ensures lists { (result ≡ Some (Asked.Engine (Engine.Report (Report.Check false))))
            ↔ (word.now ≡ codes "lists") }
        ensures graph { (result ≡ Some (Asked.Engine Engine.Graph)) ↔ (word.now ≡ codes "graph") }
        ensures listing { (result ≡ Some (Asked.Engine (Engine.Report (Report.Listing false))))
            ↔ (word.now ≡ codes "listing") }
        ensures places { (result ≡ Some (Asked.Engine (Engine.Report (Report.Listing true))))
            ↔ (word.now ≡ codes "places") }
        ensures serial { (turns : ℕ) → (result ≡ Some (Asked.Engine (Engine.Report (Report.Serial turns false))))
            ↔ IsSerial word.now turns }
        ensures outcomes { (result ≡ Some (Asked.Engine (Engine.Report (Report.Outcomes looking))))
            ↔ (word.now ≡ codes "outcomes") }
        ensures simulate { (steps : Bor (List ℕ)) → result ≡ Some (Asked.Engine (Engine.Simulate steps))
            → IsSimulate word.now steps.now }
        ensures steps { (s : List ℕ) → IsSimulate word.now s
            → (steps : Bor (List ℕ)) × (result ≡ Some (Asked.Engine (Engine.Simulate steps))) }
        ensures tokens { (result ≡ Some Asked.Tokens) ↔ (word.now ≡ codes "tokens") }
        ensures tree { (result ≡ Some Asked.Tree) ↔ (word.now ≡ codes "tree") }
        ensures print { (result ≡ Some Asked.Print) ↔ (word.now ≡ codes "print") }
        ensures again { (result ≡ Some Asked.Again) ↔ (word.now ≡ codes "again") }
        ensures paths { (result ≡ Some Asked.Paths) ↔ (word.now ≡ codes "paths") }
        ensures points { (result ≡ Some Asked.Points) ↔ (word.now ≡ codes "points") }
        ensures order { (result ≡ Some Asked.Order) ↔ (word.now ≡ codes "order") }
    {
        if let Some(turns) = word.strip_prefix("serial ") {
            return match turns.parse::<u64>() {
                Ok(turns) => Some(Asked::Engine(Engine::Report(Report::Serial {
                    turns,
                    changed: false,
                }))),
                Err(_) => None,
            };
        }
        if let Some(steps) = word.strip_prefix("simulate ") {
            return Some(Asked::Engine(Engine::Simulate(steps)));
        }
        match word {
            "check" => Some(Asked::Engine(Engine::Check)),
            "lists" => Some(Asked::Engine(Engine::Report(Report::Check { source: false }))),
            "graph" => Some(Asked::Engine(Engine::Graph)),
            "listing" => Some(listing(false)),
            "places" => Some(listing(true)),
            "outcomes" => Some(Asked::Engine(Engine::Report(Report::Outcomes(LOOKING)))),
            "tokens" => Some(Asked::Tokens),
            "tree" => Some(Asked::Tree),
            "print" => Some(Asked::Print),
            "again" => Some(Asked::Again),
            "paths" => Some(Asked::Paths),
            "points" => Some(Asked::Points),
            "order" => Some(Asked::Order),
            _ => None,
        }
    }
}
