// The rows of a machine.
ghost use Rattle.std.specs.Prelude.{◌≡◌, ◌<◌, ◌+◌, ◌++◌, [], ◌∷◌, IfOk, OnOk};
ghost use Rattle.polis_base.specs.Draws.{next, after, draw};
ghost use Rattle.net_gen.specs.Networks.{num, value, valued, is_state, set_state, emit_value, tick_row, value_row, last_row, tick_rows, value_rows, rows};

use crate::words;
use net_reader::{
    Num, RawAct, RawActList, RawCond, RawCondList, RawRow, RawRowList, RawSource, RawValue, Word,
};
use polis_base::{Draws, NoMemory};
use std::alloc::Global;

// How many values the domain has.
const VALUES: u32 = 8;

pub(crate) fn num(number: u32) -> Num
    ensures { result ≡ num number }
{
    Num { number, at: 0 }
}

pub(crate) fn value(number: u32) -> RawValue
    ensures { result ≡ value number }
{
    RawValue::Number(num(number))
}

fn set_state(number: u32) -> RawAct
    ensures { result ≡ set_state number }
{
    RawAct::Set {
        name: words::state(),
        value: RawSource::Value(value(number)),
    }
}

fn emit_value(name: Word, number: u32) -> RawAct
    ensures { result ≡ emit_value name number }
{
    RawAct::Emit {
        name,
        value: Some(RawSource::Value(value(number))),
    }
}

// For a tick alone where the state is v.
fn tick_row(alloc: Global, i: u64, j: u64, v: u32, a: u32, b: u32) -> Result<RawRow, NoMemory>
    requires i_small { i < 48 }
    requires j_small { j < 48 }
    ensures { IfOk result (λ row. row ≡ tick_row i j v a b) }
{
    let mut conds = RawCondList::new(alloc);
    conds.push(RawCond::Present(words::tick(i)))?;
    conds.push(RawCond::Absent(words::valued(i)))?;
    conds.push(RawCond::Is {
        name: words::state(),
        value: value(v),
    })?;
    let acts = RawActList::from_slice(alloc, &[set_state(a), emit_value(words::valued(j), b)])?;
    Ok(RawRow { conds, acts })
}

// The condition that the event of machine i has this value.
fn conds_of_value(alloc: Global, i: u64, w: u32) -> Result<RawCondList, NoMemory>
    requires { i < 48 }
    ensures { IfOk result (λ conds. conds ≡ RawCond.Is (valued i) (value w) ∷ []) }
{
    let mut conds = RawCondList::new(alloc);
    conds.push(RawCond::Is {
        name: words::valued(i),
        value: value(w),
    })?;
    Ok(conds)
}

// For a value above 0, which is passed on one lower.
fn value_row(alloc: Global, i: u64, j: u64, w: u32, a: u32) -> Result<RawRow, NoMemory>
    requires i_small { i < 48 }
    requires j_small { j < 48 }
    requires above { 0 < w }
    ensures { IfOk result (λ row. row ≡ value_row i j w a) }
{
    let conds = conds_of_value(alloc, i, w)?;
    let acts = RawActList::from_slice(alloc, &[set_state(a), emit_value(words::valued(j), w - 1)])?;
    Ok(RawRow { conds, acts })
}

// For the value 0.
fn last_row(alloc: Global, i: u64, a: u32) -> Result<RawRow, NoMemory>
    requires { i < 48 }
    ensures { IfOk result (λ row. row ≡ last_row i a) }
{
    let conds = conds_of_value(alloc, i, 0)?;
    let emit = RawAct::Emit {
        name: words::output(i),
        value: None,
    };
    let acts = RawActList::from_slice(alloc, &[set_state(a), emit])?;
    Ok(RawRow { conds, acts })
}

// A value of the domain.
fn draw_value(draws: &mut Draws) -> u32
    ensures answer { result ≡ draw draws.old.x 8 }
    ensures moves { draws.new.x ≡ next draws.old.x }
{
    draws.draw(VALUES as u64) as u32
}

fn push_tick_rows(
    alloc: Global,
    i: u64,
    j: u64,
    draws: &mut Draws,
    rows: &mut RawRowList,
) -> Result<(), NoMemory>
    requires i_small { i < 48 }
    requires j_small { j < 48 }
    ensures rows { OnOk result (rows.new ≡ rows.old ++ tick_rows i j draws.old.x) }
    ensures moves { OnOk result (draws.new.x ≡ after draws.old.x 16) }
{
    for v in 0..VALUES {
        let a = draw_value(draws);
        let b = draw_value(draws);
        rows.push(tick_row(alloc, i, j, v, a, b)?)?;
    }
    Ok(())
}

fn push_value_rows(
    alloc: Global,
    i: u64,
    j: u64,
    draws: &mut Draws,
    rows: &mut RawRowList,
) -> Result<(), NoMemory>
    requires i_small { i < 48 }
    requires j_small { j < 48 }
    ensures rows { OnOk result (rows.new ≡ rows.old ++ value_rows i j draws.old.x) }
    ensures moves { OnOk result (draws.new.x ≡ after draws.old.x 7) }
{
    for k in 0..VALUES - 1 {
        let a = draw_value(draws);
        rows.push(value_row(alloc, i, j, k + 1, a)?)?;
    }
    Ok(())
}

// The 16 rows of machine i, whose values go to machine j.
pub(crate) fn rows(alloc: Global, i: u64, j: u64, draws: &mut Draws) -> Result<RawRowList, NoMemory>
    requires i_small { i < 48 }
    requires j_small { j < 48 }
    ensures rows { IfOk result (λ list. list ≡ rows i j draws.old.x) }
    ensures moves { OnOk result (draws.new.x ≡ after draws.old.x 24) }
{
    let mut rows = RawRowList::new(alloc);
    push_tick_rows(alloc, i, j, draws, &mut rows)?;
    push_value_rows(alloc, i, j, draws, &mut rows)?;
    let a = draw_value(draws);
    rows.push(last_row(alloc, i, a)?)?;
    Ok(rows)
}
