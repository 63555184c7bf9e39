// Surveys by several workers.
ghost use Rattle.std.specs.Prelude.{◌≡◌, ◌∷◌, ◌++◌, [], ◌+◌, ◌*◌, ◌<◌, ◌≤◌, ◌^◌, ℕ, List, All, length, None, IfOk, OnOk};
ghost use Rattle.journals.specs.Journals.{IsTrace};
ghost use Rattle.outcome_table.specs.declared.table.Results.{Results};
ghost use Rattle.table_use.specs.Coverage.{AreTablesOf};
ghost use Rattle.transition_table.specs.declared.network.Network.{Network};
ghost use Rattle.run_survey.specs.Kinds.{most_kinds};
ghost use Rattle.run_survey.specs.Runs.{IsShapedBy, IsSurveyOf};
ghost use Rattle.run_survey.specs.inner.Workers.{AreInRow, ArePieces, CanFollow, ComesTo, IsFollowed, IsPiece, IsReady, Knows, Task, Tells};

use crate::running::{Drawing, Seeds, survey_with};
use crate::told::Survey;
use crate::watcher::Watcher;
use net_core::Trace;
use polis_base::NoMemory;
use std::alloc::Global;
use std::thread;
use std::thread::Threads;
use table_use::{Memos, Tables, memos_of, tables_of};
use transition_table::{Network, Reactor};

// The most runs of a piece, which so has no others.
const PIECE: u64 = 32;

// What a worker is given: seeds, and what is known of snapshots.
#[derive(Drop)]
struct Job {
    seeds: Seeds,
    memos: Memos,
}

// What it hands back: the survey of these seeds, and what is then known.
#[derive(Drop)]
struct Piece {
    survey: Survey,
    memos: Memos,
}

// How seeds are shared out: so many jobs of so many seeds each.
#[derive(Clone, Copy)]
struct Share {
    jobs: u64,
    size: u64,
}

// What each of so many workers knows before any run.
fn all_memos(
    alloc: Global,
    net: &Network,
    tables: &Tables,
    workers: u64,
) -> Result<Vec<Memos>, NoMemory>
    requires { AreTablesOf net.now tables.now }
    ensures all { IfOk result (λ memos. All (Knows net.now tables.now) memos.items) }
    ensures many { IfOk result (λ memos. length memos.items ≡ workers) }
{
    let mut all = Vec::new(alloc);
    for _ in 0..workers {
        all.push(memos_of(alloc, net, tables)?)?;
    }
    Ok(all)
}

// How the seeds that are left are shared out to workers: as many to each, and few enough for a
// piece.
fn share_of(left: u64, workers: u64) -> Share
    requires some { 0 < left }
    requires workers { 0 < workers }
    ensures jobs { 0 < result.jobs }
    ensures few { result.jobs ≤ workers }
    ensures size { 0 < result.size }
    ensures small { result.size ≤ 32 }
    ensures within { result.jobs * result.size ≤ left }
{
    let size = (left / workers).min(PIECE).max(1);
    Share {
        jobs: (left / size).min(workers),
        size,
    }
}

// Does a job.
fn piece_of<R: Reactor, W: Watcher>(
    alloc: Global,
    r: &R,
    w: &W,
    tables: &Tables,
    trace: &Trace,
    drawing: Drawing,
    job: Job,
) -> Result<Piece, NoMemory>
    requires trace { IsTrace (R.meaning r.now) trace.now }
    requires watcher { W.watches w.now (R.meaning r.now) }
    requires tables { AreTablesOf (R.meaning r.now) tables.now }
    requires job { IsReady (R.meaning r.now) tables.now job }
    ensures { IfOk result (λ piece. IsPiece (R.meaning r.now) (W.monitor w.now) tables.now
        trace.now drawing job.seeds.first job.seeds.count piece) }
{
    let Job { seeds, mut memos } = job;
    let survey = survey_with(alloc, r, w, tables, &mut memos, trace, drawing, seeds)?;
    Ok(Piece { survey, memos })
}

// Jobs of so many seeds each, in a row from these on.
fn jobs_of(
    alloc: Global,
    memos: &mut Vec<Memos>,
    seeds: Seeds,
    jobs: u64,
) -> Result<Vec<Job>, NoMemory>
    requires enough { jobs ≤ length memos.old.items }
    requires room { seeds.first + jobs * seeds.count ≤ 2 ^ 64 }
    requires some { 0 < seeds.count }
    requires few { seeds.count ≤ 32 }
    ensures row { IfOk result (λ made. AreInRow seeds.first seeds.count made.items) }
    ensures many { IfOk result (λ made. length made.items ≡ jobs) }
    ensures left { OnOk result (length memos.new.items + jobs ≡ length memos.old.items) }
    ensures ready { IfOk result (λ made. (net : Network) (tables : List Results)
        → All (Knows net tables) memos.old.items → All (IsReady net tables) made.items) }
    ensures knows { OnOk result ((net : Network) (tables : List Results)
        → All (Knows net tables) memos.old.items → All (Knows net tables) memos.new.items) }
{
    let mut made = Vec::new(alloc);
    for k in 0..jobs {
        match memos.pop() {
            Some(known) => made.push(Job {
                seeds: Seeds {
                    first: seeds.first + k * seeds.count,
                    count: seeds.count,
                },
                memos: known,
            })?,
            None => unreachable!(),
        }
    }
    Ok(made)
}

// Does the jobs, each in a thread of its own where one can be made.
fn pieces_of<R: Reactor + Sync, W: Watcher + Sync, T: Threads + Sync>(
    rt: &T,
    alloc: Global,
    r: &R,
    w: &W,
    tables: &Tables,
    trace: &Trace,
    drawing: Drawing,
    jobs: Vec<Job>,
) -> Result<Vec<Result<Piece, NoMemory>>, NoMemory>
    requires trace { IsTrace (R.meaning r.now) trace.now }
    requires watcher { W.watches w.now (R.meaning r.now) }
    requires tables { AreTablesOf (R.meaning r.now) tables.now }
    requires ready { All (IsReady (R.meaning r.now) tables.now) jobs.items }
    ensures pieces { IfOk result (λ pieces. (seed size : ℕ) → AreInRow seed size jobs.items
        → ArePieces (R.meaning r.now) (W.monitor w.now) tables.now trace.now drawing size seed
        pieces.items) }
    ensures many { IfOk result (λ pieces. length pieces.items ≡ length jobs.items) }
{
    let pieces = thread::map_vec(
        rt,
        jobs,
        &|job: Job| -> Result<Piece, NoMemory>
            requires { IsTrace (R.meaning r.now) trace.now
                × W.watches w.now (R.meaning r.now)
                × AreTablesOf (R.meaning r.now) tables.now
                × IsReady (R.meaning r.now) tables.now job }
            ensures { IfOk result (λ piece. IsPiece (R.meaning r.entry.now) (W.monitor w.entry.now)
                tables.entry.now trace.entry.now drawing job.seeds.first job.seeds.count piece) }
        { piece_of(alloc, r, w, tables, trace, drawing, job) },
    )?;
    Ok(pieces)
}

// Joins a survey to what is told of the runs before.
fn add_survey(so_far: &mut Option<Survey>, next: Survey) -> Result<(), NoMemory>
    requires { CanFollow so_far.old next }
    ensures { OnOk result (IsFollowed so_far.old next so_far.new) }
{
    match so_far {
        Some(survey) => survey.join(&next)?,
        None => *so_far = Some(next),
    }
    Ok(())
}

// Joins a piece to what is told of the runs before, and takes what its worker knows.
fn add_piece(
    memos: &mut Vec<Memos>,
    so_far: &mut Option<Survey>,
    piece: Piece,
) -> Result<(), NoMemory>
    requires { CanFollow so_far.old piece.survey }
    ensures followed { OnOk result (IsFollowed so_far.old piece.survey so_far.new) }
    ensures memos { OnOk result (memos.new.items ≡ memos.old.items ++ piece.memos ∷ []) }
{
    let Piece {
        survey,
        memos: known,
    } = piece;
    memos.push(known)?;
    add_survey(so_far, survey)?;
    Ok(())
}

// Joins pieces in their order to what is told of the runs before, and takes what their workers
// know.
fn add_pieces(
    memos: &mut Vec<Memos>,
    so_far: &mut Option<Survey>,
    pieces: Vec<Result<Piece, NoMemory>>,
) -> Result<(), NoMemory>
    requires { (task : Task) × (runs : ℕ) × ComesTo task runs so_far.old pieces.items }
    ensures told { OnOk result ((task : Task) (runs : ℕ)
        → ComesTo task runs so_far.old pieces.items → Tells task runs so_far.new) }
    ensures knows { OnOk result ((task : Task) (runs : ℕ)
        → ComesTo task runs so_far.old pieces.items
        → All (Knows task.net task.tables) memos.old.items
        → All (Knows task.net task.tables) memos.new.items) }
    ensures many { OnOk result (length memos.new.items
        ≡ length memos.old.items + length pieces.items) }
{
    for piece in pieces {
        let piece = piece?;
        add_piece(memos, so_far, piece)?;
    }
    Ok(())
}

// The survey of the runs of these seeds, which are shared out in rounds among as many workers as
// know something.
fn survey_in_rounds<R: Reactor + Sync, W: Watcher + Sync, T: Threads + Sync>(
    rt: &T,
    r: &R,
    w: &W,
    tables: &Tables,
    trace: &Trace,
    drawing: Drawing,
    seeds: Seeds,
    memos: &mut Vec<Memos>,
) -> Result<Survey, NoMemory>
    requires trace { IsTrace (R.meaning r.now) trace.now }
    requires watcher { W.watches w.now (R.meaning r.now) }
    requires tables { AreTablesOf (R.meaning r.now) tables.now }
    requires some { 0 < seeds.count }
    requires room { seeds.first + seeds.count ≤ 2 ^ 64 }
    requires knows { All (Knows (R.meaning r.now) tables.now) memos.old.items }
    requires workers { 0 < length memos.old.items }
    ensures { IfOk result (λ survey. IsSurveyOf (R.meaning r.now) (W.monitor w.now) trace.now
        drawing.order drawing.limit seeds.first seeds.count survey) }
{
    let alloc = *memos.allocator();
    let mut so_far = None;
    let mut done = 0;
    while done < seeds.count {
        let share = share_of(seeds.count - done, memos.len() as u64);
        let next = Seeds {
            first: seeds.first + done,
            count: share.size,
        };
        let jobs = jobs_of(alloc, memos, next, share.jobs)?;
        let pieces = pieces_of(rt, alloc, r, w, tables, trace, drawing, jobs)?;
        add_pieces(memos, &mut so_far, pieces)?;
        done += share.jobs * share.size;
    }
    match so_far {
        Some(survey) => Ok(survey),
        None => unreachable!(),
    }
}

/// The survey of the runs of these seeds by so many workers, each in a thread of its own where one
/// can be made. It is the same for each number of workers.
pub fn survey_by<R: Reactor + Sync, W: Watcher + Sync, T: Threads + Sync>(
    rt: &T,
    alloc: Global,
    r: &R,
    w: &W,
    trace: &Trace,
    drawing: Drawing,
    seeds: Seeds,
    workers: u64,
) -> Result<Survey, NoMemory>
    requires trace { IsTrace (R.meaning r.now) trace.now }
    requires watcher { W.watches w.now (R.meaning r.now) }
    requires some { 0 < seeds.count }
    requires room { seeds.first + seeds.count ≤ 2 ^ 64 }
    requires workers { 0 < workers }
    ensures is { IfOk result (λ survey. IsSurveyOf (R.meaning r.now) (W.monitor w.now) trace.now
        drawing.order drawing.limit seeds.first seeds.count survey) }
    ensures few { seeds.count ≤ most_kinds → IfOk result (λ survey. survey.others ≡ None) }
    ensures shape { IfOk result (λ survey. IsShapedBy (R.meaning r.now) (W.monitor w.now) survey) }
{
    let tables = tables_of(alloc, r.network())?;
    let mut memos = all_memos(alloc, r.network(), &tables, workers)?;
    let survey = survey_in_rounds(rt, r, w, &tables, trace, drawing, seeds, &mut memos)?;
    Ok(survey)
}
