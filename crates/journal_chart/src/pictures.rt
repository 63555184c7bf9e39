// What is laid over pictures.
ghost use Rattle.std.specs.Prelude.{◌≡◌, ◌<◌, ◌+◌, ◌++◌, ◌-◌, ◌/◌, codes, length, replicate, IfOk, OnOk};
ghost use Rattle.journal_chart.specs.Labels.{arrow as delivered_over, lined, spaced_out, to_itself as itself_over, to_left as left_over, to_right as right_over};
ghost use Rattle.journal_chart.specs.Pictures.{cell, centred, laid};

use crate::pieces::{first_ones, ones_after};
use crate::texts::push_repeated;
use polis_base::{Bytes, NoMemory};

// The picture with a text in the place of what stands from a place on.
fn lay(picture: &Bytes, at: u64, text: &[u8]) -> Result<Bytes, NoMemory>
    ensures { IfOk result (λ made. made ≡ laid picture.now at text.now) }
{
    let bytes = picture.as_slice();
    let mut made = picture.beside();
    made.push(first_ones(bytes, at))?;
    made.push(text)?;
    made.push(ones_after(bytes, at.saturating_add(text.len() as u64)))?;
    Ok(made)
}

/// The picture with a text whose middle stands at place x.
pub(crate) fn centre(picture: &Bytes, x: u64, text: &[u8]) -> Result<Bytes, NoMemory>
    ensures { IfOk result (λ made. made ≡ centred picture.now x text.now) }
{
    let made = lay(picture, x.saturating_sub(text.len() as u64 / 2), text)?;
    Ok(made)
}

/// Appends a column with a text on its axis.
pub(crate) fn push_cell(width: u64, text: &[u8], into: &mut Bytes) -> Result<(), NoMemory>
    ensures { OnOk result (into.new ≡ into.old ++ cell width text.now) }
{
    let count = text.len() as u64;
    let at = (width / 2).saturating_sub(count / 2);
    push_repeated(b' ', at, into)?;
    into.push(text)?;
    push_repeated(b' ', width.saturating_sub(at + count), into)
}

// The picture with `-` at each place between two axes, of which b is the right one.
fn draw_line(picture: &Bytes, a: u64, b: u64) -> Result<Bytes, NoMemory>
    requires { a < b }
    ensures { IfOk result (λ made. made ≡ lined a b picture.now) }
{
    let mut dashes = picture.beside();
    push_repeated(b'-', b - (a + 1), &mut dashes)?;
    let made = lay(picture, a + 1, dashes.as_slice())?;
    Ok(made)
}

// The item with a space at either side.
fn spaced(item: &Bytes) -> Result<Bytes, NoMemory>
    ensures { IfOk result (λ made. made ≡ spaced_out item.now) }
{
    let mut made = item.beside();
    made.push(b" ")?;
    made.push(item.as_slice())?;
    made.push(b" ")?;
    Ok(made)
}

// The item in `(` and `)`.
fn enclosed(item: &Bytes) -> Result<Bytes, NoMemory>
    ensures { IfOk result (λ made. made ≡ codes "(" ++ item.now ++ codes ")") }
{
    let mut made = item.beside();
    made.push(b"(")?;
    made.push(item.as_slice())?;
    made.push(b")")?;
    Ok(made)
}

// The picture with an arrow from the axis a to the axis b on its right.
fn to_right(picture: &Bytes, a: u64, b: u64, item: &Bytes) -> Result<Bytes, NoMemory>
    requires { a < b }
    ensures { IfOk result (λ made. made ≡ right_over a b item.now picture.now) }
{
    let dashes = draw_line(picture, a, b)?;
    let head = lay(&dashes, b - 1, b">")?;
    let text = spaced(item)?;
    let made = centre(&head, a + (b - a) / 2, text.as_slice())?;
    Ok(made)
}

// The picture with an arrow from the axis a to the axis b on its left.
fn to_left(picture: &Bytes, a: u64, b: u64, item: &Bytes) -> Result<Bytes, NoMemory>
    requires { b < a }
    ensures { IfOk result (λ made. made ≡ left_over a b item.now picture.now) }
{
    let dashes = draw_line(picture, b, a)?;
    let head = lay(&dashes, b + 1, b"<")?;
    let text = spaced(item)?;
    let made = centre(&head, b + (a - b) / 2 + 1, text.as_slice())?;
    Ok(made)
}

// The picture with what a machine delivers to itself, on its axis.
fn to_itself(picture: &Bytes, a: u64, item: &Bytes) -> Result<Bytes, NoMemory>
    ensures { IfOk result (λ made. made ≡ itself_over a item.now picture.now) }
{
    let text = enclosed(item)?;
    let made = centre(picture, a, text.as_slice())?;
    Ok(made)
}

/// The picture with a delivery from the axis a to the axis b.
pub(crate) fn arrow(picture: &Bytes, a: u64, b: u64, item: &Bytes) -> Result<Bytes, NoMemory>
    ensures { IfOk result (λ made. made ≡ delivered_over a b item.now picture.now) }
{
    if a < b {
        to_right(picture, a, b, item)
    } else if b < a {
        to_left(picture, a, b, item)
    } else {
        to_itself(picture, a, item)
    }
}
