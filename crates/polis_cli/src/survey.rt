// The command `survey`: what many drawn runs of a network on a trace have in common.
ghost use Rattle.std.specs.Prelude.{◌≡◌, ◌<◌, IfOk};
ghost use Rattle.run_survey.specs.Runs.{IsShapedBy};
ghost use Rattle.run_survey.specs.SurveyLines.{survey_lines};
ghost use Rattle.input_files.specs.Loads.{LeftByLoads, fails_unread};
ghost use Rattle.polis_cli.specs.Survey.{end_surveyed, survey_meaning, survey_product};
ghost use Rattle.commands.specs.Made.{IsMade};
ghost use Rattle.polis_cli.specs.inner.Survey.{IsLoadedSurvey, IsSurveyProduct, IsWatchedBy};

use crate::survey_inputs::{SurveyInputs, load_survey};
use commands::order_of;
use output_files::{End, Product};
use polis_base::{Bytes, Host, NoMemory};
use polis_words::{Failure, Survey};
use run_survey::{
    Drawing, Ending, Monitoring, Seeds, Survey as Told, Unwatched, Watcher, push_survey, survey,
    survey_by,
};
use run_watch::hearing_of;
use std::alloc::Global;
use std::thread::Threads;
use transition_table::TableReactor;

// How a call ends with what a monitor says of all runs, or with no monitor.
fn end_at(ending: Ending) -> End
    ensures { result ≡ end_surveyed ending }
{
    match ending {
        Ending::Held => End::Done,
        Ending::Unfinished => End::Limit,
        Ending::Found => End::Found,
    }
}

// The lines of a survey.
fn print_survey(alloc: Global, loaded: &SurveyInputs, told: &Told) -> Result<Bytes, NoMemory>
    requires { IsShapedBy loaded.now.inputs.net loaded.now.monitor told.now }
    ensures { IfOk result (λ text. text
        ≡ survey_lines loaded.now.inputs.net loaded.now.monitor told.now) }
{
    let mut text = Bytes::new(alloc);
    push_survey(&loaded.inputs.net, loaded.monitor.as_ref(), told, &mut text)?;
    Ok(text)
}

// The product of a survey.
fn product_of(alloc: Global, loaded: &SurveyInputs, told: &Told) -> Result<Product, NoMemory>
    requires { IsShapedBy loaded.now.inputs.net loaded.now.monitor told.now }
    ensures { IfOk result (λ product. product
        ≡ survey_product loaded.now.inputs.net loaded.now.monitor told.now) }
{
    let shown = print_survey(alloc, loaded, told)?;
    Ok(Product::ending(alloc, shown, end_at(told.ending())))
}

// Draws the runs on this thread, each watched so, and tells of them. Reactions are made by reading
// the rows.
fn product_watched<W: Watcher>(
    alloc: Global,
    asked: &Survey<'_>,
    loaded: &SurveyInputs,
    watcher: &W,
) -> Result<Product, NoMemory>
    requires fits { IsLoadedSurvey asked.now loaded.now }
    requires watched { IsWatchedBy ⟦<W as Watcher>⟧ watcher.now loaded.now }
    ensures { IfOk result (IsSurveyProduct asked.now loaded.now) }
{
    let reactor = TableReactor::new(&loaded.inputs.net);
    let told = survey(
        alloc,
        &reactor,
        watcher,
        &loaded.inputs.trace,
        order_of(asked.order()),
        asked.limit(),
        asked.seed(),
        asked.runs(),
    )?;
    product_of(alloc, loaded, &told)
}

// The same by as many workers as are asked for.
fn product_watched_by<W: Watcher + Sync, T: Threads + Sync>(
    rt: &T,
    alloc: Global,
    asked: &Survey<'_>,
    loaded: &SurveyInputs,
    watcher: &W,
) -> Result<Product, NoMemory>
    requires fits { IsLoadedSurvey asked.now loaded.now }
    requires watched { IsWatchedBy ⟦<W as Watcher>⟧ watcher.now loaded.now }
    ensures { IfOk result (IsSurveyProduct asked.now loaded.now) }
{
    let reactor = TableReactor::new(&loaded.inputs.net);
    let drawing = Drawing {
        order: order_of(asked.order()),
        limit: asked.limit(),
    };
    let seeds = Seeds {
        first: asked.seed(),
        count: asked.runs(),
    };
    let told = survey_by(
        rt,
        alloc,
        &reactor,
        watcher,
        &loaded.inputs.trace,
        drawing,
        seeds,
        u64::from(asked.workers()),
    )?;
    product_of(alloc, loaded, &told)
}

// Tells of the runs that this thread draws, which the monitor watches where there is one.
fn product_alone(
    alloc: Global,
    asked: &Survey<'_>,
    loaded: &SurveyInputs,
) -> Result<Product, NoMemory>
    requires fits { IsLoadedSurvey asked.now loaded.now }
    ensures { IfOk result (IsSurveyProduct asked.now loaded.now) }
{
    match &loaded.monitor {
        None => product_watched(alloc, asked, loaded, &Unwatched),
        Some(monitor) => {
            let reactor = TableReactor::new(monitor);
            let hearing = hearing_of(alloc, &loaded.inputs.net, monitor)?;
            let watcher = Monitoring {
                reactor: &reactor,
                hearing: &hearing,
            };
            product_watched(alloc, asked, loaded, &watcher)
        }
    }
}

// The same by as many workers as are asked for.
fn product_by<T: Threads + Sync>(
    rt: &T,
    alloc: Global,
    asked: &Survey<'_>,
    loaded: &SurveyInputs,
) -> Result<Product, NoMemory>
    requires fits { IsLoadedSurvey asked.now loaded.now }
    ensures { IfOk result (IsSurveyProduct asked.now loaded.now) }
{
    match &loaded.monitor {
        None => product_watched_by(rt, alloc, asked, loaded, &Unwatched),
        Some(monitor) => {
            let reactor = TableReactor::new(monitor);
            let hearing = hearing_of(alloc, &loaded.inputs.net, monitor)?;
            let watcher = Monitoring {
                reactor: &reactor,
                hearing: &hearing,
            };
            product_watched_by(rt, alloc, asked, loaded, &watcher)
        }
    }
}

/// What a survey by the calling thread makes of the files.
pub fn make_survey<'a, H: Host>(
    alloc: Global,
    host: &mut H,
    asked: &'a Survey<'_>,
) -> Result<Product, Failure<'a>>
    ensures made { IsMade (survey_meaning asked.now) (H.files host.old) result }
    ensures left { LeftByLoads ⟦<H as Host>⟧ (fails_unread result) host.old host.new }
{
    let loaded = match load_survey(alloc, host, asked) {
        Ok(loaded) => loaded,
        Err(failure) => return Err(failure),
    };
    match product_alone(alloc, asked, &loaded) {
        Ok(product) => Ok(product),
        Err(NoMemory) => Err(Failure::NoMemory),
    }
}

/// What a survey by as many workers as are asked for makes of the files: the same.
pub fn make_survey_by<'a, T: Threads + Sync, H: Host>(
    rt: &T,
    alloc: Global,
    host: &mut H,
    asked: &'a Survey<'_>,
) -> Result<Product, Failure<'a>>
    ensures made { IsMade (survey_meaning asked.now) (H.files host.old) result }
    ensures left { LeftByLoads ⟦<H as Host>⟧ (fails_unread result) host.old host.new }
{
    let loaded = match load_survey(alloc, host, asked) {
        Ok(loaded) => loaded,
        Err(failure) => return Err(failure),
    };
    match product_by(rt, alloc, asked, &loaded) {
        Ok(product) => Ok(product),
        Err(NoMemory) => Err(Failure::NoMemory),
    }
}
