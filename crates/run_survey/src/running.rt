// Surveys of the runs of neighbouring seeds.
ghost use Rattle.std.specs.Prelude.{◌≡◌, ◌+◌, ◌<◌, ◌≤◌, ◌^◌, ℕ, None, IfOk, OnOk};
ghost use Rattle.journals.specs.Journals.{IsTrace};
ghost use Rattle.table_use.specs.Coverage.{AreTablesOf};
ghost use Rattle.table_use.specs.Memos.{AreMemos};
ghost use Rattle.run_survey.specs.Kinds.{most_kinds};
ghost use Rattle.run_survey.specs.Runs.{IsShapedBy, IsSurveyOf};

use crate::figures::figures_with;
use crate::one::survey_of_one;
use crate::told::Survey;
use crate::watcher::Watcher;
use net_core::Trace;
use polis_base::NoMemory;
use run_shuffle::{Order, shuffle};
use std::alloc::Global;
use table_use::{Memos, Tables, memos_of, tables_of};
use transition_table::Reactor;

/// How each run is drawn.
#[derive(Clone, Copy)]
pub struct Drawing {
    /// Which moves are offered.
    pub order: Order,
    /// The most entries of a run.
    pub limit: u64,
}

/// Seeds in a row.
#[derive(Clone, Copy)]
pub struct Seeds {
    /// The first.
    pub first: u64,
    /// How many there are.
    pub count: u64,
}

// The survey of the run of one seed.
fn survey_of_seed<R: Reactor, W: Watcher>(
    alloc: Global,
    r: &R,
    w: &W,
    tables: &Tables,
    memos: &mut Memos,
    trace: &Trace,
    drawing: Drawing,
    seed: u64,
) -> Result<Survey, NoMemory>
    requires trace { IsTrace (R.meaning r.now) trace.now }
    requires watcher { W.watches w.now (R.meaning r.now) }
    requires tables { AreTablesOf (R.meaning r.now) tables.now }
    requires memos { AreMemos (R.meaning r.now) tables.now memos.old.items }
    ensures is { IfOk result (λ survey. IsSurveyOf (R.meaning r.now) (W.monitor w.now) trace.now
        drawing.order drawing.limit seed 1 survey) }
    ensures memos { OnOk result (AreMemos (R.meaning r.now) tables.now memos.new.items) }
{
    let finished = shuffle(alloc, r, trace, seed, drawing.order, drawing.limit)?;
    let watched = w.watch(alloc, r.network(), &finished.journal)?;
    let figures = figures_with(
        alloc,
        r.network(),
        tables,
        memos,
        &finished.journal,
        finished.complete,
        watched,
    )?;
    let survey = survey_of_one(alloc, seed, figures)?;
    Ok(survey)
}

// Joins the run of the next seed to what is told of those before.
fn join_next<R: Reactor, W: Watcher>(
    alloc: Global,
    r: &R,
    w: &W,
    tables: &Tables,
    memos: &mut Memos,
    trace: &Trace,
    drawing: Drawing,
    survey: &mut Survey,
) -> Result<(), NoMemory>
    requires trace { IsTrace (R.meaning r.now) trace.now }
    requires watcher { W.watches w.now (R.meaning r.now) }
    requires tables { AreTablesOf (R.meaning r.now) tables.now }
    requires memos { AreMemos (R.meaning r.now) tables.now memos.old.items }
    requires told { IsSurveyOf (R.meaning r.now) (W.monitor w.now) trace.now drawing.order
        drawing.limit survey.old.seed survey.old.runs survey.old }
    requires seed { survey.old.seed + survey.old.runs < 2 ^ 64 }
    requires room { survey.old.runs + 1 < 2 ^ 64 }
    ensures told { OnOk result (IsSurveyOf (R.meaning r.now) (W.monitor w.now) trace.now
        drawing.order drawing.limit survey.old.seed (survey.old.runs + 1) survey.new) }
    ensures memos { OnOk result (AreMemos (R.meaning r.now) tables.now memos.new.items) }
{
    let seed = survey.seed + survey.runs;
    let next = survey_of_seed(alloc, r, w, tables, memos, trace, drawing, seed)?;
    survey.join(&next)?;
    Ok(())
}

/// The survey of the runs of these seeds, by the tables of the network and by what is known of
/// snapshots, to which what the runs meet is added. At most 32 runs have no others.
pub fn survey_with<R: Reactor, W: Watcher>(
    alloc: Global,
    r: &R,
    w: &W,
    tables: &Tables,
    memos: &mut Memos,
    trace: &Trace,
    drawing: Drawing,
    seeds: Seeds,
) -> Result<Survey, NoMemory>
    requires trace { IsTrace (R.meaning r.now) trace.now }
    requires watcher { W.watches w.now (R.meaning r.now) }
    requires tables { AreTablesOf (R.meaning r.now) tables.now }
    requires memos { AreMemos (R.meaning r.now) tables.now memos.old.items }
    requires some { 0 < seeds.count }
    requires room { seeds.first + seeds.count ≤ 2 ^ 64 }
    ensures is { IfOk result (λ survey. IsSurveyOf (R.meaning r.now) (W.monitor w.now) trace.now
        drawing.order drawing.limit seeds.first seeds.count survey) }
    ensures few { seeds.count ≤ most_kinds → IfOk result (λ survey. survey.others ≡ None) }
    ensures shape { IfOk result (λ survey. IsShapedBy (R.meaning r.now) (W.monitor w.now) survey) }
    ensures memos { OnOk result (AreMemos (R.meaning r.now) tables.now memos.new.items) }
{
    let mut survey = survey_of_seed(alloc, r, w, tables, memos, trace, drawing, seeds.first)?;
    for _ in 1..seeds.count {
        join_next(alloc, r, w, tables, memos, trace, drawing, &mut survey)?;
    }
    Ok(survey)
}

/// The survey of so many runs, those of the seeds from this one on. Each run is drawn in the order
/// and has up to so many entries.
pub fn survey<R: Reactor, W: Watcher>(
    alloc: Global,
    r: &R,
    w: &W,
    trace: &Trace,
    order: Order,
    limit: u64,
    seed: u64,
    runs: u64,
) -> Result<Survey, NoMemory>
    requires trace { IsTrace (R.meaning r.now) trace.now }
    requires watcher { W.watches w.now (R.meaning r.now) }
    requires some { 0 < runs }
    requires room { seed + runs ≤ 2 ^ 64 }
    ensures is { IfOk result (λ survey. IsSurveyOf (R.meaning r.now) (W.monitor w.now) trace.now
        order limit seed runs survey) }
    ensures few { runs ≤ most_kinds → IfOk result (λ survey. survey.others ≡ None) }
    ensures shape { IfOk result (λ survey. IsShapedBy (R.meaning r.now) (W.monitor w.now) survey) }
{
    let tables = tables_of(alloc, r.network())?;
    let mut memos = memos_of(alloc, r.network(), &tables)?;
    let drawing = Drawing { order, limit };
    let seeds = Seeds {
        first: seed,
        count: runs,
    };
    let survey = survey_with(alloc, r, w, &tables, &mut memos, trace, drawing, seeds)?;
    Ok(survey)
}
