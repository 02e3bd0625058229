//! What is done for the words of each command.

ghost use Rattle.std.specs.Prelude.{◌≡◌, ◌≢◌, ℕ, List, [], ◌∷◌, true, false, None, vec_len, length};
ghost use Rattle.program_words.specs.Bounds.{IsBounded, RunBounds};
ghost use Rattle.program_words.specs.declared.command.CheckWords.{CheckWords};
ghost use Rattle.program_words.specs.declared.command.CollectWords.{CollectWords};
ghost use Rattle.program_words.specs.declared.command.FleetWords.{FleetWords};
ghost use Rattle.program_words.specs.declared.command.GenerateWords.{GenerateWords};
ghost use Rattle.program_words.specs.declared.command.QueryWords.{QueryWords};
ghost use Rattle.program_words.specs.declared.command.ReportWords.{ReportWords};
ghost use Rattle.program_words.specs.declared.command.CommandWords.TheVariants.{Check as AsksCheck, Collect as AsksCollect, Fleet as AsksFleet, Generate as AsksGenerate, Query as AsksQuery, Report as AsksReport, SelfTest as AsksSelfTest};
ghost use Rattle.program_words.specs.Commands.{by_threads, sources_in};
ghost use Rattle.osq_program.specs.Answers.{IsUsageStatus};
ghost use Rattle.osq_program.specs.Commands.{is_forwarding};
ghost use Rattle.osq_program.specs.Doing.{MeetsCommand, DoesQuery, TellsCommand, TellsOfQuery};

use crate::check::run_check;
use crate::collect::run_collect;
use crate::explain::run_explain;
use crate::fleet::run_fleet;
use crate::generate::run_generate;
use crate::orders::run_in_turn;
use crate::outside::{Observes, Outside};
use crate::query::run_query;
use crate::reporting::run_report;
use crate::self_test::run_self_test;
use crate::status::Status;
use batch_forwarder::Link;
use batch_keeper::Keeper;
use osq_outside::{Clock, Files, Sink, Source};
use program_words::{CommandWords, QueryWords};
use std::alloc::Global;

/// Answers the question of the words, or shows its plan.
fn do_query<S: Source, O: Sink, F: Files, C: Clock, K: Keeper, L: Link>(
    alloc: Global,
    words: &QueryWords,
    outside: &mut Outside<S, O, F, C, K, L>,
) -> Status
    requires sources { vec_len outside.old.sources ≡ length words.now.sources }
    requires bounded { RunBounds words.now.start words.now.step words.now.ticks words.now.records words.now.sources }
    ensures usage { ¬ IsUsageStatus result }
    ensures link { outside.new.link ≡ outside.old.link }
    ensures ledger { outside.new.ledger ≡ outside.old.ledger }
    ensures sources { vec_len outside.new.sources ≡ vec_len outside.old.sources }
    ensures files { words.now.config ≡ None → outside.new.files ≡ outside.old.files }
    ensures unread { words.now.explain ≡ true → outside.new ≡ record outside.old { results = outside.new.results; status = outside.new.status } }
    ensures does { DoesQuery words.now (⟦<Outside<S, O, F, C, K, L> as Observes>⟧.observed outside.old outside.new) result }
    ensures told { TellsOfQuery words.now (⟦<Outside<S, O, F, C, K, L> as Observes>⟧.observed outside.old outside.new) result }
{
    if words.explain {
        return run_explain(alloc, words.text.as_str(), outside);
    }
    run_query(alloc, words, outside)
}

/// Does what the words of a command ask for, which is no session by threads. There are as many sources as they name.
pub(crate) fn run_command<S: Source, O: Sink, F: Files, C: Clock, K: Keeper, L: Link>(
    alloc: Global,
    words: &CommandWords,
    outside: &mut Outside<S, O, F, C, K, L>,
) -> Status
    requires sources { vec_len outside.old.sources ≡ sources_in words.now }
    requires bounded { IsBounded words.now }
    requires one_thread { by_threads words.now ≡ false }
    ensures usage { ¬ IsUsageStatus result }
    ensures link { is_forwarding words.now ≡ false → outside.new.link ≡ outside.old.link }
    ensures ledger { ((collect : CollectWords) → words.now ≢ AsksCollect collect) → outside.new.ledger ≡ outside.old.ledger }
    ensures sources { vec_len outside.new.sources ≡ vec_len outside.old.sources }
    ensures query_files { (query : QueryWords) → words.now ≡ AsksQuery query → query.config ≡ None → outside.new.files ≡ outside.old.files }
    ensures explain_unread { (query : QueryWords) → words.now ≡ AsksQuery query → query.explain ≡ true
        → outside.new ≡ record outside.old { results = outside.new.results; status = outside.new.status } }
    ensures check_unread { (check : CheckWords) → words.now ≡ AsksCheck check
        → (outside.new.sources ≡ outside.old.sources) × (outside.new.clock ≡ outside.old.clock) × (outside.new.keeper ≡ outside.old.keeper) }
    ensures generate_unread { (generate : GenerateWords) → words.now ≡ AsksGenerate generate → outside.new ≡ record outside.old { results = outside.new.results; status = outside.new.status } }
    ensures self_test_unread { (load : GenerateWords) → words.now ≡ AsksSelfTest load → outside.new ≡ record outside.old { results = outside.new.results; status = outside.new.status } }
    ensures report_unread { (report : ReportWords) → words.now ≡ AsksReport report → outside.new ≡ record outside.old { results = outside.new.results; status = outside.new.status; keeper = outside.new.keeper } }
    ensures fleet_unread { (fleet : FleetWords) → words.now ≡ AsksFleet fleet → outside.new ≡ record outside.old { results = outside.new.results; status = outside.new.status; files = outside.new.files } }
    ensures does { MeetsCommand words.now (⟦<Outside<S, O, F, C, K, L> as Observes>⟧.observed outside.old outside.new) result }
    ensures told { TellsCommand words.now (⟦<Outside<S, O, F, C, K, L> as Observes>⟧.observed outside.old outside.new) result }
{
    match words {
        CommandWords::Replay(words) => run_in_turn(alloc, words, outside),
        CommandWords::Daemon(_) => unreachable!(),
        CommandWords::Query(words) => do_query(alloc, words, outside),
        CommandWords::Check(words) => run_check(alloc, words, outside),
        CommandWords::Collect(words) => run_collect(alloc, words, outside),
        CommandWords::Generate(words) => run_generate(alloc, words, outside),
        CommandWords::SelfTest(words) => run_self_test(alloc, words, outside),
        CommandWords::Report(_) => run_report(alloc, outside),
        CommandWords::Fleet(words) => run_fleet(alloc, words, outside),
    }
}
