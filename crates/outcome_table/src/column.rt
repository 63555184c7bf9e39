// The codes of one variable on all lists of codes.
ghost use Rattle.std.specs.Prelude.{◌≡◌, ◌-◌, ◌*◌, ◌<◌, ◌≤◌, ◌^◌, length, drop, flat_map, replicate, IfOk};
ghost use Rattle.polis_base.specs.Lists.{upto};
ghost use Rattle.domains.specs.AllCodes.{all_codes};
ghost use Rattle.domains.specs.Tables.{product};
ghost use Rattle.outcome_table.specs.Outcomes.{column, AreColumns};

use domains::{Codes, VarTable};
use polis_base::{List, NoMemory};
use std::alloc::Global;

// A column is a piece over and over, which has at most so many codes where that can be.
const PIECE: u64 = 2048;

/// How many lists of codes there are of the variables from one on. As many snapshots apart stand
/// those that differ by one in the code of the variable before it, and in nothing else.
pub fn lists_from(vars: &VarTable, from: u64) -> u64
    requires from { from ≤ length vars.now }
    requires few { product (drop from vars.now) < 2 ^ 63 }
    ensures { result ≡ product (drop from vars.now) }
{
    if from == vars.len() {
        return 1;
    }
    u64::from(*vars.get(from)) * lists_from(vars, from + 1)
}

// Each code of a variable so many times.
fn blocks(alloc: Global, size: u8, times: u64) -> Result<Vec<u8>, NoMemory>
    requires { size * times < 2 ^ 63 }
    ensures { IfOk result (λ made. made.items ≡ flat_map (replicate times) (upto size)) }
{
    let mut made = Vec::with_capacity(alloc, size as usize * times as usize)?;
    for code in 0..size {
        let count = made.len() + times as usize;
        made.resize(count, code)?;
    }
    Ok(made)
}

// A piece so many times.
fn repeated(alloc: Global, piece: &[u8], times: u64) -> Result<Vec<u8>, NoMemory>
    requires { times * length piece.now < 2 ^ 63 }
    ensures { IfOk result (λ made. made.items ≡ flat_map (λ c. piece.now) (upto times)) }
{
    let mut made = Vec::with_capacity(alloc, times as usize * piece.len())?;
    for _ in 0..times {
        made.extend_from_slice(piece)?;
    }
    Ok(made)
}

// The codes of a variable on all lists of the variables from one on.
fn column_from(alloc: Global, vars: &VarTable, from: u64, v: u64) -> Result<Vec<u8>, NoMemory>
    requires from { from ≤ v }
    requires var { v < length vars.now }
    requires few { product (drop from vars.now) < 2 ^ 63 }
    ensures { IfOk result (λ made. made.items
        ≡ column (v - from) (all_codes (drop from vars.now))) }
{
    let _ = vars.len();
    let size = *vars.get(from);
    if from == v {
        let made = blocks(alloc, size, lists_from(vars, from + 1))?;
        return Ok(made);
    }
    let later = column_from(alloc, vars, from + 1, v)?;
    let made = repeated(alloc, &later, u64::from(size))?;
    Ok(made)
}

// The first variable up to this one such that there are few lists of codes of those from it on, or
// this one.
fn piece_from(vars: &VarTable, v: u64) -> u64
    requires var { v < length vars.now }
    requires few { product vars.now < 2 ^ 63 }
    ensures { result ≤ v }
{
    let _ = vars.len();
    for from in 0..v {
        if lists_from(vars, from) <= PIECE {
            return from;
        }
    }
    v
}

// The codes of a variable on all lists of codes.
fn column_of(alloc: Global, vars: &VarTable, v: u64) -> Result<Vec<u8>, NoMemory>
    requires var { v < length vars.now }
    requires few { product vars.now < 2 ^ 63 }
    ensures { IfOk result (λ made. made.items ≡ column v (all_codes vars.now)) }
{
    let _ = vars.len();
    let from = piece_from(vars, v);
    let piece = column_from(alloc, vars, from, v)?;
    if from == 0 {
        return Ok(piece);
    }
    let times = lists_from(vars, 0) / lists_from(vars, from);
    let made = repeated(alloc, &piece, times)?;
    Ok(made)
}

/// For each variable its codes on all lists of codes, in their order.
pub fn columns_of(alloc: Global, vars: &VarTable) -> Result<List<Codes>, NoMemory>
    requires { product vars.now < 2 ^ 63 }
    ensures { IfOk result (AreColumns vars.now) }
{
    let mut columns = List::new(alloc);
    for v in 0..vars.len() {
        let column = column_of(alloc, vars, v)?;
        columns.push(Codes::of(column))?;
    }
    Ok(columns)
}
