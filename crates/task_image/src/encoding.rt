// Writing an image.
ghost use Rattle.std.specs.Prelude.{◌≡◌, ◌<◌, ◌≤◌, ◌^◌, ℕ, ◌++◌, length, slice_get, Some, flat_map};
ghost use Rattle.polis_base.specs.declared.limits.TheConstants.{LONG_FILE_MAX};
ghost use Rattle.task_code.specs.declared.instr.Instr.{Instr as InstrOf};
ghost use Rattle.task_image.specs.declared.limits.TheConstants.{RESULTS_MAX};
ghost use Rattle.task_image.specs.Encoding.{Encodes};
ghost use Rattle.task_image.specs.Fields.{four_bytes};
ghost use Rattle.task_image.specs.inner.Pieces.{instr_bytes, counted, code_bytes, machine_bytes};
ghost use Rattle.task_image.specs.inner.Heads.{machine_of};
ghost use Rattle.task_image.specs.Images.{IsImage, IsImageMachine};
ghost use Rattle.task_image.specs.inner.Puts.{Writes, Written, HasBytes};

use crate::fault::EncodeError;
use crate::image::{Head, Image};
use domains::VarTable;
use polis_base::Bytes;
use polis_base::limits::LONG_FILE_MAX;
use sgraph::Places;
use std::alloc::Global;
use task_code::{Code, Instr};

// Puts bytes at the end, unless they would be too many.
fn put(more: &[u8], out: &mut Bytes) -> Result<(), EncodeError>
    ensures { Writes result out.old out.new more.now }
{
    let len = out.as_slice().len() as u64 + more.len() as u64;
    if len > LONG_FILE_MAX {
        return Err(EncodeError::TooLong);
    }
    out.push(more)?;
    Ok(())
}

// A number in four bytes.
fn put_number(n: u64, out: &mut Bytes) -> Result<(), EncodeError>
    requires { n < 2 ^ 32 }
    ensures { Writes result out.old out.new (four_bytes n) }
{
    put(&(n as u32).to_be_bytes(), out)
}

fn put_targets(targets: &Places, out: &mut Bytes) -> Result<(), EncodeError>
    requires few { (j t : ℕ) → slice_get targets.now j ≡ Some t → t < 2 ^ 32 }
    requires within { length out.old ≤ LONG_FILE_MAX }
    ensures { Writes result out.old out.new (flat_map four_bytes targets.now) }
{
    for j in 0..targets.len() {
        put_number(*targets.get(j), out)?;
    }
    Ok(())
}

// An instruction: its tag, and what it names.
fn put_instr(instr: &Instr, out: &mut Bytes) -> Result<(), EncodeError>
    requires { HasBytes instr.now }
    ensures { Writes result out.old out.new (instr_bytes instr.now) }
{
    match instr {
        Instr::Halt => put(&[0], out),
        Instr::Test { var, targets } => {
            put(&[1, *var as u8], out)?;
            put_targets(targets, out)
        }
        Instr::Set { result, code } => put(&[2, *result as u8, *code], out),
        Instr::Goto { target } => {
            put(&[3], out)?;
            put_number(*target, out)
        }
    }
}

// Each instruction has a byte at least, so that too many are known before one is written.
fn put_code(code: &Code, out: &mut Bytes) -> Result<(), EncodeError>
    requires { length code.now < 2 ^ 32 → (k : ℕ) (i : InstrOf) → slice_get code.now k ≡ Some i
        → HasBytes i }
    ensures { Writes result out.old out.new (code_bytes code.now) }
{
    if code.len() > LONG_FILE_MAX {
        return Err(EncodeError::TooLong);
    }
    put_number(code.len(), out)?;
    for k in 0..code.len() {
        put_instr(code.get(k), out)?;
    }
    Ok(())
}

// How many sizes, and each size.
fn put_sizes(sizes: &VarTable, out: &mut Bytes) -> Result<(), EncodeError>
    requires { length sizes.now ≤ RESULTS_MAX }
    ensures { Writes result out.old out.new (counted sizes.now) }
{
    put(&[sizes.len() as u8], out)?;
    for v in 0..sizes.len() {
        put(&[*sizes.get(v)], out)?;
    }
    Ok(())
}

fn put_machine(head: &Head, code: &Code, out: &mut Bytes) -> Result<(), EncodeError>
    requires { IsImageMachine (machine_of head.now code.now) }
    ensures { Writes result out.old out.new (machine_bytes (machine_of head.now code.now)) }
{
    let name = head.name.bytes();
    put(&[name.len() as u8], out)?;
    put(name, out)?;
    put_sizes(&head.vars, out)?;
    put_sizes(&head.results, out)?;
    put_code(code, out)
}

// Each machine.
fn put_machines(image: &Image, out: &mut Bytes) -> Result<(), EncodeError>
    requires image { IsImage image.now }
    requires within { length out.old ≤ LONG_FILE_MAX }
    ensures { Writes result out.old out.new (flat_map machine_bytes image.now) }
{
    for k in 0..image.len() {
        put_machine(image.head(k), image.code(k), out)?;
    }
    Ok(())
}

// All bytes of an image.
fn image_bytes(alloc: Global, image: &Image) -> Result<Bytes, EncodeError>
    requires { IsImage image.now }
    ensures { Written image.now result }
{
    let mut out = Bytes::new(alloc);
    put(b"PIMG".as_slice(), &mut out)?;
    put(&[1, image.len() as u8], &mut out)?;
    put_machines(image, &mut out)?;
    Ok(out)
}

/// The bytes of an image. TooLong exactly where they are more than a file may have.
pub fn encode(alloc: Global, image: &Image) -> Result<Bytes, EncodeError>
    requires { IsImage image.now }
    ensures { Encodes image.now result }
{
    image_bytes(alloc, image)
}
