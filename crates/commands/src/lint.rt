// The command `lint`: what the tables of a network leave open.
ghost use Rattle.std.specs.Prelude.{◌≡◌, ◌++◌, flat_map, IfOk, OnOk};
ghost use Rattle.polis_base.specs.Lists.{numbered};
ghost use Rattle.transition_table.specs.NetworkFacts.{has};
ghost use Rattle.commands.specs.Lint.{domain_text, table_text, tables_text};
ghost use Rattle.commands.specs.NetProducts.{on_net_meaning};
ghost use Rattle.polis_words.specs.declared.requests.command.OnNet.TheVariants.{Lint as Lints};
ghost use Rattle.input_files.specs.Loads.{LeftByLoads, fails_unread};
ghost use Rattle.commands.specs.Made.{IsMade};

use input_files::{DeclaredNet, Detail, load_declared};
use net_reader::{RawDomain, RawNet};
use output_files::Product;
use polis_base::{Bytes, Host, NoMemory, Numbers};
use polis_words::{Check, Failure};
use std::alloc::Global;
use table_use::{lint, push_lint, push_unused_domain, unused_domains};
use transition_table::Network;

// Appends what the table of each machine leaves open.
fn push_tables(alloc: Global, net: &Network, into: &mut Bytes) -> Result<(), NoMemory>
    ensures { OnOk result (into.new
        ≡ into.old ++ flat_map (table_text net.now) net.now.machines) }
{
    for m in 0..net.machines.len() {
        let found = lint(alloc, net, m as u32)?;
        push_lint(net, m as u32, &found, into)?;
    }
    Ok(())
}

// Whether a number is among others.
fn is_among(numbers: &Numbers, n: u64) -> bool
    ensures { result ≡ has numbers.now n }
{
    numbers.as_slice().iter().any(|k| *k as u64 == n)
}

// Appends the line of the declared domain of number d, where it is among those that are unused.
fn push_domain(
    unused: &Numbers,
    d: u64,
    domain: &RawDomain,
    into: &mut Bytes,
) -> Result<(), NoMemory>
    ensures { OnOk result (into.new ≡ into.old ++ domain_text unused.now d domain.now) }
{
    if is_among(unused, d) {
        push_unused_domain(domain.name.name.bytes(), into)?;
    }
    Ok(())
}

// Appends the lines of the declared domains that are unused.
fn push_domains(unused: &Numbers, raw: &RawNet, into: &mut Bytes) -> Result<(), NoMemory>
    ensures { OnOk result (into.new
        ≡ into.old ++ numbered (domain_text unused.now) 0 raw.now.domains) }
{
    for d in 0..raw.domains.len() {
        push_domain(unused, d, raw.domains.get(d), into)?;
    }
    Ok(())
}

// What the tables leave open, and which domains are unused.
fn print_open(alloc: Global, declared: &DeclaredNet) -> Result<Bytes, NoMemory>
    ensures { IfOk result (λ text. text ≡ tables_text declared.now.raw declared.now.net) }
{
    let unused = unused_domains(alloc, &declared.net)?;
    let mut text = Bytes::new(alloc);
    push_tables(alloc, &declared.net, &mut text)?;
    push_domains(&unused, &declared.raw, &mut text)?;
    Ok(text)
}

/// What saying what tables leave open makes of the file, with so much said of one that is refused.
pub fn make_lint<'a, H: Host>(
    alloc: Global,
    host: &mut H,
    asked: &'a Check<'_>,
    detail: Detail,
) -> Result<Product, Failure<'a>>
    ensures made { IsMade (on_net_meaning detail Lints asked.now) (H.files host.old) result }
    ensures left { LeftByLoads ⟦<H as Host>⟧ (fails_unread result) host.old host.new }
{
    let declared = match load_declared(alloc, host, asked.net(), detail) {
        Ok(declared) => declared,
        Err(failure) => return Err(failure),
    };
    match print_open(alloc, &declared) {
        Ok(shown) => Ok(Product::showing(alloc, shown)),
        Err(NoMemory) => Err(Failure::NoMemory),
    }
}
