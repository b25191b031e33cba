//! The commands and their arguments.

ghost use Rattle.std.specs.Prelude.{◌≡◌, IfOk, codes, false};
ghost use Rattle.clap.specs.Words.{new_app, rule_of};
ghost use Rattle.driver_words.specs.Commands.{Adds, AddsRule, IsCommand, autolock, with_file, with_steps, with_history};
ghost use Rattle.driver_words.specs.Commands.{file_rule, flag_rule, number_rule, count_rule, prefix_rule, seed_rule, turns_rule};
ghost use Rattle.driver_words.specs.Commands.{with_count, with_header, with_json, with_lines, with_open, with_places, with_prefix};
ghost use Rattle.driver_words.specs.Commands.{with_sections, with_source};
ghost use Rattle.driver_words.specs.Commands.{with_seed, with_turns, with_why};
ghost use Rattle.driver_words.specs.Commands.{cells_rule, with_answers, with_cells, with_full};
ghost use Rattle.driver_words.specs.Commands.{choice_rule, color_rule, expect_rule, length_rule, times_rule};
ghost use Rattle.driver_words.specs.Commands.{with_all, with_changed, with_color, with_expect, with_length, with_seed_choice};
ghost use Rattle.driver_words.specs.Commands.{with_times, with_worst};

use clap::builder::ValueParser;
use clap::{Arg, ArgAction, Command};
use std::alloc::{AllocError, Global};

/// The version that `--version` prints after the program's name.
const VERSION: &str = "0.2.0";

/// A required argument without a flag.
fn file_argument<'a>(alloc: Global, id: &'a str) -> Arg<'a>
    ensures rule { rule_of result ≡ file_rule id.entry.now }
    ensures local { result.global ≡ false }
{
    Arg::new(alloc, id).required(true)
}

/// An option with a number, and its default.
fn number_argument<'a>(alloc: Global, id: &'a str, default: &'a str) -> Arg<'a>
    ensures rule { rule_of result ≡ number_rule id.entry.now default.entry.now }
    ensures local { result.global ≡ false }
{
    Arg::new(alloc, id)
        .long(id)
        .value_name("N")
        .value_parser(ValueParser::unsigned(0, 1_000_000_000))
        .default_value(default)
}

/// `--turns N`.
fn turns_argument<'a>(alloc: Global) -> Arg<'a>
    ensures rule { rule_of result ≡ turns_rule }
    ensures local { result.global ≡ false }
{
    number_argument(alloc, "turns", "1000000").help(
        "How many turns an execution of a loop may take",
    )
}

/// `--count N`.
fn count_argument<'a>(alloc: Global) -> Arg<'a>
    ensures rule { rule_of result ≡ count_rule }
    ensures local { result.global ≡ false }
{
    number_argument(alloc, "count", "100000").help("How many orders to look at, at most")
}

/// `--seed N`.
fn seed_argument<'a>(alloc: Global) -> Arg<'a>
    ensures rule { rule_of result ≡ seed_rule }
    ensures local { result.global ≡ false }
{
    number_argument(alloc, "seed", "0").help("Which orders to draw, where there are more")
}

/// `--seed N` of items.
fn items_argument<'a>(alloc: Global) -> Arg<'a>
    ensures rule { rule_of result ≡ seed_rule }
    ensures local { result.global ≡ false }
{
    number_argument(alloc, "seed", "0").help("Which items to draw")
}

/// `--seed N`, which may be left out.
fn seed_choice_argument<'a>(alloc: Global) -> Arg<'a>
    ensures rule { rule_of result ≡ choice_rule (codes "seed") }
    ensures local { result.global ≡ false }
{
    Arg::new(alloc, "seed")
        .long("seed")
        .value_name("N")
        .value_parser(ValueParser::unsigned(0, 1_000_000_000))
        .help("Hold the threads up now and then, and by what")
}

/// `--times N`.
fn times_argument<'a>(alloc: Global) -> Arg<'a>
    ensures rule { rule_of result ≡ times_rule }
    ensures local { result.global ≡ false }
{
    Arg::new(alloc, "times")
        .long("times")
        .value_name("N")
        .value_parser(ValueParser::unsigned(1, 1_000_000))
        .help("Run them this many times, and report each order of calls and each end that was seen")
}

/// `--length N`.
fn length_argument<'a>(alloc: Global) -> Arg<'a>
    ensures rule { rule_of result ≡ length_rule }
    ensures local { result.global ≡ false }
{
    number_argument(alloc, "length", "100").help("How many items to write")
}

/// `--color WHEN`.
fn color_argument<'a>(alloc: Global) -> Arg<'a>
    ensures rule { rule_of result ≡ color_rule }
    ensures local { result.global ≡ false }
{
    Arg::new(alloc, "color")
        .long("color")
        .value_name("WHEN")
        .default_value("auto")
        .help("Whether to write in colours: auto, always or never")
}

/// `--expect COMPARISON`.
fn expect_argument<'a>(alloc: Global) -> Arg<'a>
    ensures rule { rule_of result ≡ expect_rule }
    ensures local { result.global ≡ false }
{
    Arg::new(alloc, "expect")
        .long("expect")
        .value_name("COMPARISON")
        .help("What each end is to have, as 'a[0] + a[1] == 300'")
}

/// A word that takes no value, as `--json`.
fn flag_argument<'a>(alloc: Global, id: &'a str, help: &'a str) -> Arg<'a>
    ensures rule { rule_of result ≡ flag_rule id.entry.now }
    ensures local { result.global ≡ false }
{
    Arg::new(alloc, id)
        .long(id)
        .action(ArgAction::SetTrue)
        .help(help)
}

/// `--prefix NAME`.
fn prefix_argument<'a>(alloc: Global) -> Arg<'a>
    ensures rule { rule_of result ≡ prefix_rule }
    ensures local { result.global ≡ false }
{
    Arg::new(alloc, "prefix")
        .long("prefix")
        .value_name("NAME")
        .default_value("al")
        .help("What the names of C begin with")
}

/// `--cells NAME,..`.
fn cells_argument<'a>(alloc: Global) -> Arg<'a>
    ensures rule { rule_of result ≡ cells_rule }
    ensures local { result.global ≡ false }
{
    Arg::new(alloc, "cells")
        .long("cells")
        .value_name("NAMES")
        .help("The cells whose values distinguish ends, as n,a,a[0],p[1].x")
}

/// A command over one file, or over another argument in its place.
fn operand_command<'a>(
    alloc: Global,
    name: &'a str,
    about: &'a str,
    operand: &'a str,
) -> Result<Command<'a>, AllocError>
    ensures { IfOk result (IsCommand (with_file name.entry.now)) }
{
    Command::new(alloc, name)
        .about(about)
        .arg(file_argument(alloc, "FILE").help(operand))
}

/// A command over one file.
fn file_command<'a>(alloc: Global, name: &'a str, about: &'a str) -> Result<Command<'a>, AllocError>
    ensures { IfOk result (IsCommand (with_file name.entry.now)) }
{
    operand_command(alloc, name, about, "The program's text")
}

/// A steps file.
fn steps_argument<'a>(alloc: Global) -> Arg<'a>
    ensures rule { rule_of result ≡ file_rule (codes "STEPS") }
    ensures local { result.global ≡ false }
{
    let help = "Which thread makes how many steps: items T, T*N, T! or T+";
    file_argument(alloc, "STEPS").help(help)
}

/// `check`.
fn check_command<'a>(alloc: Global) -> Result<Command<'a>, AllocError>
    ensures { IfOk result (IsCommand (with_source (with_file (codes "check")))) }
{
    let about = "Say in which order locks are taken, and which ones before each statement";
    let help = "Tell also the helper of each place, and the line of the source";
    file_command(alloc, "check", about)?.arg(flag_argument(alloc, "source", help))
}

/// `explain`.
fn explain_command<'a>(alloc: Global) -> Result<Command<'a>, AllocError>
    ensures { IfOk result (IsCommand (with_color (with_json (with_file (codes "explain"))))) }
{
    let about =
        "Tell the fault of a program, with its place in the source and what can be done about it";
    let operand = "The program's text; or a code, E01 to E20, for what it means";
    let help = "Tell it as a JSON object, in one line";
    let command = operand_command(alloc, "explain", about, operand);
    let command = with_argument(command, flag_argument(alloc, "json", help));
    with_argument(command, color_argument(alloc))
}

/// `lsp`.
fn lsp_command<'a>(alloc: Global) -> Command<'a>
    ensures { IsCommand (new_app (codes "lsp")) result }
{
    Command::new(alloc, "lsp").about(
        "Serve an editor by the language server protocol, over standard input and output",
    )
}

/// `listing`.
fn listing_command<'a>(alloc: Global) -> Result<Command<'a>, AllocError>
    ensures { IfOk result (IsCommand (with_places (with_file (codes "listing")))) }
{
    let about = "Write the instructions of each section";
    let help = "Tell where each instruction's statement starts";
    file_command(alloc, "listing", about)?.arg(flag_argument(alloc, "places", help))
}

/// `emit`.
fn emit_command<'a>(alloc: Global) -> Result<Command<'a>, AllocError>
    ensures { IfOk result (IsCommand (with_lines (with_prefix (with_header (with_file (codes "emit")))))) }
{
    let about = "Write the sections in C, with their locks placed";
    let command = file_command(alloc, "emit", about);
    let help = "Write the header of that C file";
    let command = with_argument(command, flag_argument(alloc, "header", help));
    let command = with_argument(command, prefix_argument(alloc));
    let help = "Tell debuggers and sanitizers the lines of FILE";
    with_argument(command, flag_argument(alloc, "lines", help))
}

/// `serial`.
fn serial_command<'a>(alloc: Global) -> Result<Command<'a>, AllocError>
    ensures { IfOk result (IsCommand (with_changed (with_turns (with_file (codes "serial"))))) }
{
    let about = "Run all calls one after another, and write the history";
    let command = with_argument(file_command(alloc, "serial", about), turns_argument(alloc));
    let help = "Leave out the cells that hold what they held at the opening";
    with_argument(command, flag_argument(alloc, "changed", help))
}

/// `schedule`.
fn schedule_command<'a>(alloc: Global) -> Result<Command<'a>, AllocError>
    ensures { IfOk result (IsCommand (with_worst (with_length (with_seed (with_file (codes "schedule")))))) }
{
    let about = "Write a steps file whose items are drawn";
    let command = with_argument(
        file_command(alloc, "schedule", about),
        items_argument(alloc),
    );
    let command = with_argument(command, length_argument(alloc));
    let help = "Have threads wait for each other as much as can be";
    with_argument(command, flag_argument(alloc, "worst", help))
}

/// `simulate`.
fn simulate_command<'a>(alloc: Global) -> Result<Command<'a>, AllocError>
    ensures { IfOk result (IsCommand (with_steps (with_file (codes "simulate")))) }
{
    let about = "Run the steps of a steps file, and write the cells and threads after them";
    file_command(alloc, "simulate", about)?.arg(steps_argument(alloc))
}

/// A history file.
fn history_argument<'a>(alloc: Global) -> Arg<'a>
    ensures rule { rule_of result ≡ file_rule (codes "HISTORY") }
    ensures local { result.global ≡ false }
{
    file_argument(alloc, "HISTORY").help("The history that was recorded")
}

/// `run`.
fn run_command<'a>(alloc: Global) -> Result<Command<'a>, AllocError>
    ensures { IfOk result (IsCommand (with_times (with_seed_choice (with_file (codes "run"))))) }
{
    let about = "Run the calls of each thread in a thread of its own, and write the history";
    let command = with_argument(
        file_command(alloc, "run", about),
        seed_choice_argument(alloc),
    );
    with_argument(command, times_argument(alloc))
}

/// A command with one more argument, if both could be made.
fn with_argument<'a>(
    command: Result<Command<'a>, AllocError>,
    argument: Arg<'a>,
) -> Result<Command<'a>, AllocError>
    requires { argument.global ≡ false }
    ensures { AddsRule command.entry (rule_of argument.entry) result }
{
    command?.arg(argument)
}

/// `outcomes`.
fn outcomes_command<'a>(alloc: Global) -> Result<Command<'a>, AllocError>
    ensures { let counted = with_turns (with_seed (with_count (with_file (codes "outcomes")))) in
        IfOk result (IsCommand (with_expect (with_full (with_answers (with_cells counted))))) }
{
    let about =
        "Run all calls one after another in all orders, or in some, and write each way the cells end";
    let command = file_command(alloc, "outcomes", about);
    let command = with_argument(command, count_argument(alloc));
    let command = with_argument(command, seed_argument(alloc));
    let command = with_argument(command, turns_argument(alloc));
    let command = with_argument(command, cells_argument(alloc));
    let help = "Tell ends apart also by how the calls ended";
    let command = with_argument(command, flag_argument(alloc, "answers", help));
    let help = "Write all of each end, and not only what differs from the first";
    let command = with_argument(command, flag_argument(alloc, "full", help));
    with_argument(command, expect_argument(alloc))
}

/// `replay`.
fn replay_command<'a>(alloc: Global) -> Result<Command<'a>, AllocError>
    ensures { IfOk result (IsCommand (with_open (with_why (with_turns (with_history (with_file (codes "replay"))))))) }
{
    let about = "Compare a recorded history with what its calls answer, one after another";
    let command = file_command(alloc, "replay", about);
    let command = with_argument(command, history_argument(alloc));
    let command = with_argument(command, turns_argument(alloc));
    let help = "Say what may stand where the history differs";
    let command = with_argument(command, flag_argument(alloc, "why", help));
    let help = "Take calls from outside: any threads call any sections, whatever the scripts are";
    with_argument(command, flag_argument(alloc, "open", help))
}

/// `trace`.
fn trace_command<'a>(alloc: Global) -> Result<Command<'a>, AllocError>
    ensures { IfOk result (IsCommand (with_all (with_sections (with_steps (with_file (codes "trace")))))) }
{
    let about =
        "Run the steps of a steps file, and write a line for each, then what simulate writes";
    let command = file_command(alloc, "trace", about);
    let command = with_argument(command, steps_argument(alloc));
    let help = "Leave the instructions out";
    let command = with_argument(command, flag_argument(alloc, "sections", help));
    let help = "Tell also the steps that do nothing";
    with_argument(command, flag_argument(alloc, "all", help))
}

/// A command line with one more command, if both could be made.
fn with_command<'a>(
    line: Result<Command<'a>, AllocError>,
    command: Result<Command<'a>, AllocError>,
) -> Result<Command<'a>, AllocError>
    ensures { Adds line.entry command.entry result }
{
    line?.subcommand(command?)
}

/// The whole command line.
pub fn command<'a>(alloc: Global) -> Result<Command<'a>, AllocError>
    ensures { IfOk result (IsCommand autolock) }
{
    let line = Command::new(alloc, "autolock")
        .version(VERSION)
        .about("Programs with atomic sections: locks inferred from protected_by annotations")
        .subcommand_required(true);
    let line = with_command(Ok(line), check_command(alloc));
    let line = with_command(line, explain_command(alloc));
    let about = "Write the program's text laid out anew, with its tokens and comments";
    let line = with_command(line, file_command(alloc, "format", about));
    let about =
        "Write the order of the lock classes as a graph in DOT: which has to come before which, and why";
    let line = with_command(line, file_command(alloc, "order", about));
    let line = with_command(line, listing_command(alloc));
    let line = with_command(line, emit_command(alloc));
    let line = with_command(line, serial_command(alloc));
    let line = with_command(line, outcomes_command(alloc));
    let line = with_command(line, schedule_command(alloc));
    let line = with_command(line, simulate_command(alloc));
    let line = with_command(line, trace_command(alloc));
    let line = with_command(line, run_command(alloc));
    let line = with_command(line, replay_command(alloc));
    with_command(line, Ok(lsp_command(alloc)))
}
