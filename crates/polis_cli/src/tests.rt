// What no clause says: that a product is made where there is memory, and the texts of whole calls.
mod counts;
mod demos;
mod gates;
mod hostile;
mod runner;
mod samples;
mod system;

use crate::tests::gates::{Inside, Meeting, Outside};
use crate::tests::runner::try_cases;
use event_buffer::OpenGate;
use sample_networks::cases::bounds::BOUNDS;
use sample_networks::cases::charts::CHARTS;
use sample_networks::cases::comparisons::COMPARISONS;
use sample_networks::cases::explanations::EXPLANATIONS;
use sample_networks::cases::failing::FAILING;
use sample_networks::cases::faults::FAULTS;
use sample_networks::cases::images::IMAGES;
use sample_networks::cases::journal_faults::JOURNAL_FAULTS;
use sample_networks::cases::limits::LIMITS;
use sample_networks::cases::long_texts::LONG_TEXTS;
use sample_networks::cases::many::MANY;
use sample_networks::cases::monitors::MONITORS;
use sample_networks::cases::orders::ORDERS;
use sample_networks::cases::replays::REPLAYS;
use sample_networks::cases::reports::REPORTS;
use sample_networks::cases::rows::ROWS;
use sample_networks::cases::shuffles::SHUFFLES;
use sample_networks::cases::side_by_side::SIDE_BY_SIDE;
use sample_networks::cases::surveys::SURVEYS;
use sample_networks::cases::traces::TRACES;
use sample_networks::cases::usage::USAGE;
use sample_networks::cases::uses::USES;
use sample_networks::cases::workers::WORKERS;
use std::test::Fail;

#[test]
fn answers_usage(rt: HostRuntime) -> Result<(), Fail> {
    try_cases(&rt, rt.alloc(), USAGE, &OpenGate)?;
    Ok(())
}

#[test]
fn tells_of_faults_and_absent_files(rt: HostRuntime) -> Result<(), Fail> {
    try_cases(&rt, rt.alloc(), FAILING, &OpenGate)?;
    Ok(())
}

#[test]
fn runs_compiles_and_checks_networks(rt: HostRuntime) -> Result<(), Fail> {
    try_cases(&rt, rt.alloc(), ROWS, &OpenGate)?;
    Ok(())
}

#[test]
fn runs_as_drawn(rt: HostRuntime) -> Result<(), Fail> {
    try_cases(&rt, rt.alloc(), SHUFFLES, &OpenGate)?;
    Ok(())
}

#[test]
fn surveys_drawn_runs(rt: HostRuntime) -> Result<(), Fail> {
    try_cases(&rt, rt.alloc(), SURVEYS, &OpenGate)?;
    Ok(())
}

#[test]
fn compares_networks(rt: HostRuntime) -> Result<(), Fail> {
    try_cases(&rt, rt.alloc(), COMPARISONS, &OpenGate)?;
    Ok(())
}

#[test]
fn reports_on_journals(rt: HostRuntime) -> Result<(), Fail> {
    try_cases(&rt, rt.alloc(), REPORTS, &OpenGate)?;
    Ok(())
}

#[test]
fn draws_charts(rt: HostRuntime) -> Result<(), Fail> {
    try_cases(&rt, rt.alloc(), CHARTS, &OpenGate)?;
    Ok(())
}

#[test]
fn says_what_tables_are_used_for(rt: HostRuntime) -> Result<(), Fail> {
    try_cases(&rt, rt.alloc(), USES, &OpenGate)?;
    Ok(())
}

#[test]
fn says_what_monitors_say(rt: HostRuntime) -> Result<(), Fail> {
    try_cases(&rt, rt.alloc(), MONITORS, &OpenGate)?;
    Ok(())
}

#[test]
fn reads_journals(rt: HostRuntime) -> Result<(), Fail> {
    try_cases(&rt, rt.alloc(), JOURNAL_FAULTS, &OpenGate)?;
    Ok(())
}

#[test]
fn reads_traces(rt: HostRuntime) -> Result<(), Fail> {
    try_cases(&rt, rt.alloc(), TRACES, &OpenGate)?;
    Ok(())
}

#[test]
fn explains_each_fault(rt: HostRuntime) -> Result<(), Fail> {
    try_cases(&rt, rt.alloc(), EXPLANATIONS, &OpenGate)?;
    Ok(())
}

#[test]
fn runs_by_several_workers(rt: HostRuntime) -> Result<(), Fail> {
    try_cases(&rt, rt.alloc(), WORKERS, &OpenGate)?;
    Ok(())
}

#[test]
fn bounds_costs(rt: HostRuntime) -> Result<(), Fail> {
    try_cases(&rt, rt.alloc(), BOUNDS, &OpenGate)?;
    Ok(())
}

#[test]
fn names_the_place_of_each_fault(rt: HostRuntime) -> Result<(), Fail> {
    try_cases(&rt, rt.alloc(), FAULTS, &OpenGate)?;
    Ok(())
}

#[test]
fn stores_and_runs_images(rt: HostRuntime) -> Result<(), Fail> {
    try_cases(&rt, rt.alloc(), IMAGES, &OpenGate)?;
    Ok(())
}

#[test]
fn orders_and_sizes_are_those_worked_out(rt: HostRuntime) -> Result<(), Fail> {
    try_cases(&rt, rt.alloc(), ORDERS, &OpenGate)?;
    Ok(())
}

#[test]
fn judges_and_migrates_journals(rt: HostRuntime) -> Result<(), Fail> {
    try_cases(&rt, rt.alloc(), REPLAYS, &OpenGate)?;
    Ok(())
}

#[test]
fn takes_no_more_than_the_limits(rt: HostRuntime) -> Result<(), Fail> {
    try_cases(&rt, rt.alloc(), LIMITS, &OpenGate)?;
    Ok(())
}

#[test]
fn takes_sixty_thousand_entries_and_ten_thousand_items(rt: HostRuntime) -> Result<(), Fail> {
    try_cases(&rt, rt.alloc(), MANY, &OpenGate)?;
    Ok(())
}

#[test]
fn explains_faults_of_long_texts(rt: HostRuntime) -> Result<(), Fail> {
    try_cases(&rt, rt.alloc(), LONG_TEXTS, &OpenGate)?;
    Ok(())
}

#[test]
fn reacts_side_by_side(rt: HostRuntime) -> Result<(), Fail> {
    let gate = Outside(Meeting::new());
    try_cases(&rt, rt.alloc(), SIDE_BY_SIDE, &gate)?;
    assert!(rt; gate.0.was_met());
    Ok(())
}

#[test]
fn holds_cells_side_by_side(rt: HostRuntime) -> Result<(), Fail> {
    let gate = Inside(Meeting::new());
    try_cases(&rt, rt.alloc(), SIDE_BY_SIDE, &gate)?;
    assert!(rt; gate.0.was_met());
    Ok(())
}
