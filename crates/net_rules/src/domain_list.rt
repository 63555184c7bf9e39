// The domains of a network.
ghost use Rattle.std.specs.Prelude.{◌≡◌, ◌≤◌, [], IfOk};
ghost use Rattle.polis_base.specs.declared.limits.TheConstants.{DOMAIN_SIZE_MAX};
ghost use Rattle.std.specs.List.{AllZip};
ghost use Rattle.net_reader.specs.declared.raw.RawDomain.{RawDomain as Declared};
ghost use Rattle.net_names.specs.Numbers.{names_of};
ghost use Rattle.net_names.specs.Values.{count_of};
ghost use Rattle.rule_judge.specs.Rules.{disorder};
ghost use Rattle.net_rules.specs.inner.Sound.{Each};
ghost use Rattle.net_rules.specs.Networks.{IsDomainOf};

use domains::{Domain, NameList, Names, Span};
use net_reader::{RawDomain, RawShape, Word};
use polis_base::{List, NoMemory};
use std::alloc::Global;

fn names_of(alloc: Global, words: &[Word]) -> Result<Names, NoMemory>
    ensures { IfOk result (λ names. names ≡ names_of words.now) }
{
    let mut names = Names::new(alloc);
    for word in words {
        names.push(word.name)?;
    }
    Ok(names)
}

fn names_domain(alloc: Global, words: &List<Word>) -> Result<Names, NoMemory>
    ensures { IfOk result (λ names. names ≡ names_of words.now) }
{
    names_of(alloc, words.as_slice())
}

// The domain of a shape that keeps the rules.
fn domain_of(alloc: Global, shape: &RawShape) -> Result<Domain, NoMemory>
    requires order { disorder shape.now ≡ [] }
    requires some { 1 ≤ count_of shape.now }
    requires few { count_of shape.now ≤ DOMAIN_SIZE_MAX }
    ensures { IfOk result (λ made. IsDomainOf shape.now made) }
{
    match shape {
        RawShape::Names(words) => {
            let names = names_domain(alloc, words)?;
            Ok(Domain::Names(NameList::of(names)))
        }
        RawShape::Range { first, last } => Ok(Domain::Range(Span {
            first: first.number,
            last: last.number,
        })),
    }
}

// The domains of declarations that keep the rules.
pub(crate) fn domains_of(alloc: Global, domains: &[RawDomain]) -> Result<List<Domain>, NoMemory>
    requires order { Each (λ (d : Declared). disorder d.shape ≡ []) domains.now }
    requires some { Each (λ (d : Declared). 1 ≤ count_of d.shape) domains.now }
    requires few { Each (λ (d : Declared). count_of d.shape ≤ DOMAIN_SIZE_MAX) domains.now }
    ensures { IfOk result (λ made. AllZip (λ (d : Declared). IsDomainOf d.shape) domains.now made) }
{
    let mut made = List::new(alloc);
    for domain in domains {
        let next = domain_of(alloc, &domain.shape)?;
        made.push(next)?;
    }
    Ok(made)
}
