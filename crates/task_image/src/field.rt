// Fields of an image: each reader answers what the field says and the bytes after it.
ghost use Rattle.std.specs.Prelude.{◌≡◌, ◌≤◌, nat_lt, length, drop, codes, IfOk};
ghost use Rattle.polis_base.specs.Names.{is_name};
ghost use Rattle.domains.specs.Names.{is_same};
ghost use Rattle.task_image.specs.inner.FieldReaders.{byte_at, bytes_at, number_at, within, from_to};
ghost use Rattle.task_image.specs.inner.Gives.{Gives, StopsAt};

use crate::fault::Stop;
use polis_base::Name;

// Reading stops at the first of these bytes.
fn stop_at(bytes: &[u8]) -> Stop
    ensures { StopsAt result (length bytes.now) }
{
    Stop::Bad {
        left: bytes.len() as u64,
    }
}

/// A byte from `least` to `most`.
pub(crate) fn byte_within(bytes: &[u8], least: u8, most: u8) -> Result<(u8, &[u8]), Stop>
    ensures { Gives (λ x. (x.0, x.1.now)) result (byte_at (within least most) bytes.now) }
{
    match bytes {
        [] => Err(stop_at(bytes)),
        [byte, rest @ ..] => {
            if *byte < least || most < *byte {
                return Err(stop_at(bytes));
            }
            Ok((*byte, rest))
        }
    }
}

/// A byte below `end`.
pub(crate) fn byte_below(bytes: &[u8], end: u64) -> Result<(u8, &[u8]), Stop>
    ensures { Gives (λ x. (x.0, x.1.now)) result (byte_at (λ n. nat_lt n end) bytes.now) }
{
    match bytes {
        [] => Err(stop_at(bytes)),
        [byte, rest @ ..] => {
            if u64::from(*byte) < end {
                return Ok((*byte, rest));
            }
            Err(stop_at(bytes))
        }
    }
}

/// A number of four bytes, from the highest byte, from `least` on and below `end`.
pub(crate) fn number_from(bytes: &[u8], least: u64, end: u64) -> Result<(u32, &[u8]), Stop>
    ensures { Gives (λ x. (x.0, x.1.now)) result
        (number_at (from_to least end) bytes.now) }
{
    if bytes.len() < 4 {
        return Err(stop_at(bytes));
    }
    let (field, rest) = bytes.split_at(4);
    let number = u32::from_be_bytes([field[0], field[1], field[2], field[3]]);
    if u64::from(number) < least || end <= u64::from(number) {
        return Err(stop_at(bytes));
    }
    Ok((number, rest))
}

/// The bytes after those that each image begins with.
pub(crate) fn magic(bytes: &[u8]) -> Result<&[u8], Stop>
    ensures { Gives (λ rest. (codes "PIMG", rest.now)) result
        (bytes_at 4 (is_same (codes "PIMG")) bytes.now) }
{
    if bytes.len() < 4 {
        return Err(stop_at(bytes));
    }
    let (field, rest) = bytes.split_at(4);
    if field == b"PIMG".as_slice() {
        return Ok(rest);
    }
    Err(stop_at(bytes))
}

/// The name that the first so many bytes are.
pub(crate) fn name(bytes: &[u8], width: u8) -> Result<Name, Stop>
    ensures name { Gives (λ name. (name, drop width bytes.now)) result
        (bytes_at width is_name bytes.now) }
    ensures long { IfOk result (λ name. width ≤ length bytes.now) }
{
    let width = usize::from(width);
    if bytes.len() < width {
        return Err(stop_at(bytes));
    }
    match Name::new(&bytes[..width]) {
        Some(name) => Ok(name),
        None => Err(stop_at(bytes)),
    }
}
