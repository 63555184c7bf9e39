// What is shown of legal journals and of traces, of images and of networks that are the same.
ghost use Rattle.std.specs.Prelude.{◌≡◌, ◌++◌, decimal, IfOk};
ghost use Rattle.polis_words.specs.Texts.{legal_text, migrated_text, image_text, same_text, waved_text, items_text};

use polis_base::{Bytes, NoMemory};
use std::alloc::Global;

// A number with what stands before it and after it.
fn print_number(alloc: Global, before: &[u8], number: u64, after: &[u8]) -> Result<Bytes, NoMemory>
    ensures { IfOk result (λ text. text ≡ before.now ++ decimal number ++ after.now) }
{
    let mut text = Bytes::new(alloc);
    text.push(before)?;
    text.push_decimal(number)?;
    text.push(after)?;
    Ok(text)
}

/// What `replay` shows of a legal journal of so many entries.
pub fn print_legal(alloc: Global, entries: u64, complete: bool) -> Result<Bytes, NoMemory>
    ensures { IfOk result (λ text. text ≡ legal_text entries complete) }
{
    let after: &[u8] = if complete { b" complete\n" } else { b" open\n" };
    print_number(alloc, b"legal ", entries, after)
}

/// What `migrate` shows of a legal journal of so many entries.
pub fn print_migrated(alloc: Global, entries: u64) -> Result<Bytes, NoMemory>
    ensures { IfOk result (λ text. text ≡ migrated_text entries) }
{
    print_number(alloc, b"migrated ", entries, b"\n")
}

/// What `image` shows of an image of so many bytes.
pub fn print_image(alloc: Global, bytes: u64) -> Result<Bytes, NoMemory>
    ensures { IfOk result (λ text. text ≡ image_text bytes) }
{
    print_number(alloc, b"image ", bytes, b" bytes\n")
}

/// What `equiv` shows of networks of so many machines each.
pub fn print_same(alloc: Global, machines: u64) -> Result<Bytes, NoMemory>
    ensures { IfOk result (λ text. text ≡ same_text machines) }
{
    print_number(alloc, b"same ", machines, b"\n")
}

/// What `wave` shows of a legal journal of so many entries.
pub fn print_waved(alloc: Global, entries: u64) -> Result<Bytes, NoMemory>
    ensures { IfOk result (λ text. text ≡ waved_text entries) }
{
    print_number(alloc, b"wave ", entries, b"\n")
}

/// What `explain` shows of a trace of so many items.
pub fn print_items(alloc: Global, items: u64) -> Result<Bytes, NoMemory>
    ensures { IfOk result (λ text. text ≡ items_text items) }
{
    print_number(alloc, b"accepted items ", items, b"\n")
}
