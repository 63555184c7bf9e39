// Reading an image.
ghost use Rattle.std.specs.Prelude.{◌≡◌, ◌+◌, ◌<◌, ◌≤◌, ◌^◌, length, slice_index, IfOk, IsTrue};
ghost use Rattle.task_image.specs.Decoding.{Decodes};
ghost use Rattle.task_image.specs.inner.FieldReaders.{byte_at, each_at, within};
ghost use Rattle.task_image.specs.inner.Gives.{Gives};
ghost use Rattle.task_image.specs.inner.Reading.{sizes_at, target_at, test_at, set_at, goto_at, instr_at, code_at, machine_at, machines_at, image_at};

use crate::fault::{ImageFault, Stop};
use crate::field::{byte_below, byte_within, magic, name, number_from};
use crate::image::{Image, ImageMachine};
use crate::limits::{RESULTS_MAX, VARS_MAX};
use domains::VarTable;
use polis_base::List;
use polis_base::limits::{MACHINES_MAX, NAME_MAX};
use sgraph::Places;
use std::alloc::Global;
use task_code::{Code, Instr, InstrList};

// So many sizes.
fn each_size(alloc: Global, count: u8, bytes: &[u8]) -> Result<(VarTable, &[u8]), Stop>
    ensures { Gives (λ x. (x.0, x.1.now)) result
        (each_at (λ k. byte_at (within 1 33)) 0 count bytes.now) }
{
    let mut sizes = VarTable::new(alloc);
    let mut rest = bytes;
    for _ in 0..count {
        let (size, after) = byte_within(rest, 1, 33)?;
        sizes.push(size)?;
        rest = after;
    }
    Ok((sizes, rest))
}

// At most so many sizes.
#[tactic(auto, unfolding(crate::specs::inner::Reading::sizes_at))]
fn sizes(alloc: Global, most: u8, bytes: &[u8]) -> Result<(VarTable, &[u8]), Stop>
    ensures { Gives (λ x. (x.0, x.1.now)) result (sizes_at most bytes.now) }
{
    let (count, rest) = byte_within(bytes, 1, most)?;
    each_size(alloc, count, rest)
}

// Two targets of instruction k.
#[tactic(auto, unfolding(crate::specs::inner::FieldReaders::each_at))]
fn two_targets(count: u64, k: u64, bytes: &[u8]) -> Result<(Places, &[u8]), Stop>
    requires { k < count }
    ensures { Gives (λ x. (x.0, x.1.now)) result (each_at (λ j. target_at count k) 0 2 bytes.now) }
{
    let (first, rest) = number_from(bytes, k + 1, count)?;
    let (second, rest) = number_from(rest, k + 1, count)?;
    Ok((Places::two(u64::from(first), u64::from(second)), rest))
}

// So many targets of instruction k.
fn each_target(
    alloc: Global,
    size: u8,
    count: u64,
    k: u64,
    bytes: &[u8],
) -> Result<(List<u64>, &[u8]), Stop>
    requires { k < count }
    ensures { Gives (λ x. (x.0, x.1.now)) result
        (each_at (λ j. target_at count k) 0 size bytes.now) }
{
    let mut targets = List::with_room(alloc, u64::from(size))?;
    let mut rest = bytes;
    for _ in 0..size {
        let (target, after) = number_from(rest, k + 1, count)?;
        targets.push(u64::from(target))?;
        rest = after;
    }
    Ok((targets, rest))
}

// So many targets of instruction k. Most variables have two codes.
fn targets(
    alloc: Global,
    size: u8,
    count: u64,
    k: u64,
    bytes: &[u8],
) -> Result<(Places, &[u8]), Stop>
    requires { k < count }
    ensures { Gives (λ x. (x.0, x.1.now)) result
        (each_at (λ j. target_at count k) 0 size bytes.now) }
{
    if size == 2 {
        return two_targets(count, k, bytes);
    }
    let (targets, rest) = each_target(alloc, size, count, k, bytes)?;
    Ok((Places::of(targets), rest))
}

#[tactic(auto, unfolding(crate::specs::inner::Reading::test_at))]
fn test<'a>(
    alloc: Global,
    vars: &VarTable,
    count: u64,
    k: u64,
    bytes: &'a [u8],
) -> Result<(Instr, &'a [u8]), Stop>
    requires { k < count }
    ensures { Gives (λ x. (x.0, x.1.now)) result (test_at vars.now count k bytes.now) }
{
    let (var, rest) = byte_below(bytes, vars.len())?;
    let size = *vars.get(u64::from(var));
    let (targets, rest) = targets(alloc, size, count, k, rest)?;
    Ok((
        Instr::Test {
            var: u32::from(var),
            targets,
        },
        rest,
    ))
}

#[tactic(auto, unfolding(crate::specs::inner::Reading::set_at))]
fn set<'a>(results: &VarTable, bytes: &'a [u8]) -> Result<(Instr, &'a [u8]), Stop>
    ensures { Gives (λ x. (x.0, x.1.now)) result (set_at results.now bytes.now) }
{
    let (result, rest) = byte_below(bytes, results.len())?;
    let size = *results.get(u64::from(result));
    let (code, rest) = byte_below(rest, u64::from(size))?;
    Ok((
        Instr::Set {
            result: u32::from(result),
            code,
        },
        rest,
    ))
}

#[tactic(auto, unfolding(crate::specs::inner::Reading::goto_at))]
fn goto(count: u64, k: u64, bytes: &[u8]) -> Result<(Instr, &[u8]), Stop>
    requires { k < count }
    ensures { Gives (λ x. (x.0, x.1.now)) result (goto_at count k bytes.now) }
{
    let (target, rest) = number_from(bytes, k + 1, count)?;
    Ok((
        Instr::Goto {
            target: u64::from(target),
        },
        rest,
    ))
}

// Instruction k, of so many. The last one is a halt.
#[tactic(auto, unfolding(crate::specs::inner::Reading::instr_at))]
fn instr<'a>(
    alloc: Global,
    vars: &VarTable,
    results: &VarTable,
    count: u64,
    k: u64,
    bytes: &'a [u8],
) -> Result<(Instr, &'a [u8]), Stop>
    requires { k < count }
    ensures { Gives (λ x. (x.0, x.1.now)) result
        (instr_at vars.now results.now count k bytes.now) }
{
    let greatest = if k + 1 < count { 3 } else { 0 };
    let (tag, rest) = byte_within(bytes, 0, greatest)?;
    match tag {
        0 => Ok((Instr::Halt, rest)),
        1 => test(alloc, vars, count, k, rest),
        2 => set(results, rest),
        _ => goto(count, k, rest),
    }
}

// So many instructions. No room is taken before their bytes are there.
fn each_instr<'a>(
    alloc: Global,
    vars: &VarTable,
    results: &VarTable,
    count: u64,
    bytes: &'a [u8],
) -> Result<(InstrList, &'a [u8]), Stop>
    requires { count < 2 ^ 32 }
    ensures { Gives (λ x. (x.0, x.1.now)) result
        (each_at (instr_at vars.now results.now count) 0 count bytes.now) }
{
    let mut instrs = InstrList::new(alloc);
    let mut rest = bytes;
    for k in 0..count {
        let (instr, after) = instr(alloc, vars, results, count, k, rest)?;
        instrs.push(instr)?;
        rest = after;
    }
    Ok((instrs, rest))
}

// The instructions of code of variables and results of these sizes.
#[tactic(auto, unfolding(crate::specs::inner::Reading::code_at))]
fn instrs<'a>(
    alloc: Global,
    vars: &VarTable,
    results: &VarTable,
    bytes: &'a [u8],
) -> Result<(InstrList, &'a [u8]), Stop>
    ensures { Gives (λ x. (x.0, x.1.now)) result (code_at vars.now results.now bytes.now) }
{
    let (count, rest) = number_from(bytes, 1, 1 << 32)?;
    each_instr(alloc, vars, results, u64::from(count), rest)
}

#[tactic(auto, unfolding(crate::specs::inner::Reading::machine_at))]
fn machine(alloc: Global, bytes: &[u8]) -> Result<(ImageMachine, &[u8]), Stop>
    ensures { Gives (λ x. (x.0, x.1.now)) result (machine_at bytes.now) }
{
    let (width, rest) = byte_within(bytes, 1, NAME_MAX as u8)?;
    let name = name(rest, width)?;
    let rest = &rest[usize::from(width)..];
    let (vars, rest) = sizes(alloc, VARS_MAX, rest)?;
    let (results, rest) = sizes(alloc, RESULTS_MAX, rest)?;
    let (instrs, rest) = instrs(alloc, &vars, &results, rest)?;
    Ok((
        ImageMachine {
            name,
            vars,
            results,
            code: Code::of(instrs),
        },
        rest,
    ))
}

// So many machines.
fn each_machine(alloc: Global, count: u8, bytes: &[u8]) -> Result<(Image, &[u8]), Stop>
    ensures { Gives (λ x. (x.0, x.1.now)) result
        (each_at (λ k. machine_at) 0 count bytes.now) }
{
    let mut image = Image::new(alloc);
    let mut rest = bytes;
    for _ in 0..count {
        let (machine, after) = machine(alloc, rest)?;
        image.push(machine)?;
        rest = after;
    }
    Ok((image, rest))
}

#[tactic(auto, unfolding(crate::specs::inner::Reading::machines_at))]
fn machines(alloc: Global, bytes: &[u8]) -> Result<(Image, &[u8]), Stop>
    ensures { Gives (λ x. (x.0, x.1.now)) result (machines_at bytes.now) }
{
    let rest = magic(bytes)?;
    let (_, rest) = byte_within(rest, 1, 1)?;
    let (count, rest) = byte_within(rest, 1, MACHINES_MAX as u8)?;
    each_machine(alloc, count, rest)
}

#[tactic(auto, unfolding(crate::specs::inner::Reading::image_at))]
fn image(alloc: Global, bytes: &[u8]) -> Result<Image, Stop>
    ensures { Gives (λ i. i) result (image_at bytes.now) }
{
    let (image, rest) = machines(alloc, bytes)?;
    if !rest.is_empty() {
        return Err(Stop::Bad {
            left: rest.len() as u64,
        });
    }
    Ok(image)
}

/// The image of which these are the bytes. Where they are those of none, the place is that of the
/// first field that isn't whole or isn't allowed after the fields before it, or the end of an image
/// that bytes follow. Of a name that is a keyword or cut off it is the name's, and not its
/// length's.
pub fn decode(alloc: Global, bytes: &[u8]) -> Result<Image, ImageFault>
    ensures { Decodes bytes.now result }
{
    match image(alloc, bytes) {
        Ok(image) => Ok(image),
        Err(Stop::Bad { left }) => Err(ImageFault::Bad {
            place: bytes.len() as u64 - left,
        }),
        Err(Stop::NoMemory) => Err(ImageFault::NoMemory),
    }
}
