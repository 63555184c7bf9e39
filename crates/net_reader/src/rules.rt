// Reading by the rules of the grammar, with one token of look-ahead.
ghost use Rattle.std.specs.Prelude.{◌≡◌, ◌==◌, List};
ghost use Rattle.polis_base.specs.declared.token.Kind.{Kind};
ghost use Rattle.polis_base.specs.declared.token.Keyword.{Keyword};
ghost use Rattle.polis_base.specs.declared.token.Sign.{Sign};
ghost use Rattle.net_reader.specs.Reading.{Gives, Adds, with_one, either, pure, is, names_at, range_at, shape_at, domain_at, env_at, from_env_at, to_env_at, typed_at, typed_part_at, event_at, state_at, absent_at, is_at, one_of_at, after_name_at, named_at, cond_at, plain_at, input_at, add_at, add_or_plain_at, after_value_at, sum_at, input_or_plain_at, input_or_sum_at, given_source_at, source_at, given_at, emit_at, set_at, act_at, nothing_at, acts_at, row_at, output_at, outputs_at, body_at, machine_at, net_at, whole_at};

use crate::lists::{FEW, Part, listed, many, some};
use crate::raw::{
    Num, RawAct, RawActList, RawCond, RawDomain, RawEnv, RawEvent, RawMachine, RawNet, RawRow,
    RawShape, RawSource, RawState, RawValue, Word, WordList,
};
use crate::reader::{NameToken, Reader, Stop};
use polis_base::Keyword::{
    KwAbsent, KwDo, KwDomain, KwEmit, KwEnv, KwEvent, KwFrom, KwIn, KwInput, KwMachine, KwNetwork,
    KwNothing, KwOutput, KwPriority, KwState, KwTo, KwValue, KwVersion, KwWhen,
};
use polis_base::Sign::{Assign, Colon, DotDot, Equal, LeftBrace, Plus, RightBrace};
use polis_base::{Kind, List};

#[tactic(auto, unfolding(crate::specs::Reading::names_at))]
fn names(reader: &mut Reader, version: u32) -> Result<RawShape, Stop>
    ensures { Gives result reader.new (names_at reader.old) }
{
    reader.sign(LeftBrace)?;
    let names = listed(reader, version, FEW)?;
    reader.sign(RightBrace)?;
    Ok(RawShape::Names(names))
}

#[tactic(auto, unfolding(crate::specs::Reading::range_at))]
fn range(reader: &mut Reader) -> Result<RawShape, Stop>
    ensures { Gives result reader.new (range_at reader.old) }
{
    let first = reader.num()?;
    reader.sign(DotDot)?;
    let last = reader.num()?;
    Ok(RawShape::Range { first, last })
}

#[tactic(auto, unfolding(crate::specs::Reading::shape_at))]
fn shape(reader: &mut Reader, version: u32) -> Result<RawShape, Stop>
    ensures { Gives result reader.new (shape_at reader.old) }
{
    if reader.sees(Kind::Sign(LeftBrace)) {
        names(reader, version)
    } else {
        range(reader)
    }
}

impl Part for RawDomain {
    ghost use Rattle.net_reader.specs.Reading.{domain_at};

    ghost rule = { λ _. domain_at };

    #[tactic(auto, unfolding(crate::specs::Reading::domain_at))]
    fn read(reader: &mut Reader, version: u32, made: &mut List<RawDomain>) -> Result<(), Stop> {
        reader.keyword(KwDomain)?;
        let name = reader.word()?;
        reader.sign(Equal)?;
        let shape = shape(reader, version)?;
        made.push(RawDomain { name, shape })?;
        Ok(())
    }
}

#[tactic(auto, unfolding(crate::specs::Reading::from_env_at))]
fn from_env(reader: &mut Reader) -> Result<RawEnv, Stop>
    ensures { Gives result reader.new (from_env_at reader.old) }
{
    reader.keyword(KwFrom)?;
    reader.keyword(KwEnv)?;
    Ok(RawEnv::FromEnv)
}

#[tactic(auto, unfolding(crate::specs::Reading::to_env_at))]
fn to_env(reader: &mut Reader) -> Result<RawEnv, Stop>
    ensures { Gives result reader.new (to_env_at reader.old) }
{
    reader.keyword(KwTo)?;
    reader.keyword(KwEnv)?;
    Ok(RawEnv::ToEnv)
}

#[tactic(auto, unfolding(crate::specs::Reading::env_at))]
fn env(reader: &mut Reader) -> Result<RawEnv, Stop>
    ensures { Gives result reader.new (env_at reader.old) }
{
    if reader.sees(Kind::Keyword(KwFrom)) {
        from_env(reader)
    } else if reader.sees(Kind::Keyword(KwTo)) {
        to_env(reader)
    } else {
        Ok(RawEnv::Between)
    }
}

#[tactic(auto, unfolding(crate::specs::Reading::typed_at))]
fn typed(reader: &mut Reader) -> Result<Option<Word>, Stop>
    ensures { Gives result reader.new (typed_at reader.old) }
{
    reader.sign(Colon)?;
    let name = reader.word()?;
    Ok(Some(name))
}

// The domain of an event, if it has one.
#[tactic(auto, unfolding(crate::specs::Reading::typed_part_at))]
fn typed_part(reader: &mut Reader) -> Result<Option<Word>, Stop>
    ensures { Gives result reader.new (typed_part_at reader.old) }
{
    if reader.sees(Kind::Sign(Colon)) {
        typed(reader)
    } else {
        Ok(None)
    }
}

impl Part for RawEvent {
    ghost use Rattle.net_reader.specs.Reading.{event_at};

    ghost rule = { λ _. event_at };

    #[tactic(auto, unfolding(crate::specs::Reading::event_at))]
    fn read(reader: &mut Reader, _: u32, made: &mut List<RawEvent>) -> Result<(), Stop> {
        reader.keyword(KwEvent)?;
        let name = reader.word()?;
        let domain = typed_part(reader)?;
        let env = env(reader)?;
        made.push(RawEvent { name, domain, env })?;
        Ok(())
    }
}

impl Part for RawState {
    ghost use Rattle.net_reader.specs.Reading.{state_at};

    ghost rule = { λ _. state_at };

    #[tactic(auto, unfolding(crate::specs::Reading::state_at))]
    fn read(reader: &mut Reader, _: u32, made: &mut List<RawState>) -> Result<(), Stop> {
        reader.keyword(KwState)?;
        let name = reader.word()?;
        reader.sign(Colon)?;
        let domain = reader.word()?;
        reader.sign(Equal)?;
        let init = reader.value()?;
        made.push(RawState { name, domain, init })?;
        Ok(())
    }
}

#[tactic(auto, unfolding(crate::specs::Reading::absent_at))]
fn absent(reader: &mut Reader, made: &mut List<RawCond>) -> Result<(), Stop>
    ensures { Adds result reader.new made.new (with_one made.old (absent_at reader.old)) }
{
    reader.keyword(KwAbsent)?;
    let name = reader.name()?;
    made.push(RawCond::Absent(name.word()))?;
    Ok(())
}

#[tactic(auto, unfolding(crate::specs::Reading::is_at))]
fn is(reader: &mut Reader, name: &NameToken, made: &mut List<RawCond>) -> Result<(), Stop>
    ensures { Adds result reader.new made.new (with_one made.old (is_at name.now reader.old)) }
{
    reader.sign(Equal)?;
    let value = reader.value()?;
    let name = name.word();
    made.push(RawCond::Is { name, value })?;
    Ok(())
}

#[tactic(auto, unfolding(crate::specs::Reading::one_of_at))]
fn one_of(
    reader: &mut Reader,
    version: u32,
    name: &NameToken,
    made: &mut List<RawCond>,
) -> Result<(), Stop>
    ensures { Adds result reader.new made.new (with_one made.old (one_of_at name.now reader.old)) }
{
    reader.keyword(KwIn)?;
    reader.sign(LeftBrace)?;
    let values = listed(reader, version, FEW)?;
    reader.sign(RightBrace)?;
    let name = name.word();
    made.push(RawCond::OneOf { name, values })?;
    Ok(())
}

// What stands after the name of a condition.
#[tactic(auto, unfolding(crate::specs::Reading::after_name_at))]
#[inline(always)]
fn after_name(
    reader: &mut Reader,
    version: u32,
    name: &NameToken,
    made: &mut List<RawCond>,
) -> Result<(), Stop>
    ensures { Adds result reader.new made.new
        (with_one made.old (after_name_at name.now reader.old)) }
{
    if reader.sees(Kind::Sign(Equal)) {
        is(reader, name, made)
    } else if reader.sees(Kind::Keyword(KwIn)) {
        one_of(reader, version, name, made)
    } else {
        made.push(RawCond::Present(name.word()))?;
        Ok(())
    }
}

#[tactic(auto, unfolding(crate::specs::Reading::named_at))]
#[inline(always)]
fn named(reader: &mut Reader, version: u32, made: &mut List<RawCond>) -> Result<(), Stop>
    ensures { Adds result reader.new made.new (with_one made.old (named_at reader.old)) }
{
    let name = reader.name()?;
    after_name(reader, version, &name, made)
}

impl Part for RawCond {
    ghost use Rattle.net_reader.specs.Reading.{cond_at};

    ghost rule = { λ _. cond_at };

    #[tactic(auto, unfolding(crate::specs::Reading::cond_at))]
    #[inline(always)]
    fn read(reader: &mut Reader, version: u32, made: &mut List<RawCond>) -> Result<(), Stop> {
        if reader.sees(Kind::Keyword(KwAbsent)) {
            absent(reader, made)
        } else {
            named(reader, version, made)
        }
    }
}

// An action of version 2 may have a source that is no plain value.
fn has_sources(version: u32) -> bool
    ensures { result ≡ (version == 2) }
{
    version == 2
}

#[tactic(auto, unfolding(crate::specs::Reading::plain_at))]
fn plain(reader: &mut Reader) -> Result<RawSource, Stop>
    ensures { Gives result reader.new (plain_at reader.old) }
{
    let value = reader.value()?;
    Ok(RawSource::Value(value))
}

#[tactic(auto, unfolding(crate::specs::Reading::input_at))]
fn input(reader: &mut Reader) -> Result<RawSource, Stop>
    ensures { Gives result reader.new (input_at reader.old) }
{
    reader.keyword(KwValue)?;
    let name = reader.word()?;
    Ok(RawSource::Input(name))
}

#[tactic(auto, unfolding(crate::specs::Reading::add_at))]
fn add(reader: &mut Reader, name: Word) -> Result<RawSource, Stop>
    ensures { Gives result reader.new (add_at name reader.old) }
{
    reader.sign(Plus)?;
    let number = reader.num()?;
    Ok(RawSource::Add { name, number })
}

#[tactic(auto, unfolding(crate::specs::Reading::add_or_plain_at))]
fn add_or_plain(reader: &mut Reader, name: Word) -> Result<RawSource, Stop>
    ensures { Gives result reader.new (add_or_plain_at name reader.old) }
{
    if reader.sees(Kind::Sign(Plus)) {
        add(reader, name)
    } else {
        Ok(RawSource::Value(RawValue::Name(name)))
    }
}

// What a value is the beginning of, where a sum may stand.
#[tactic(auto, unfolding(crate::specs::Reading::after_value_at))]
fn after_value(reader: &mut Reader, value: RawValue) -> Result<RawSource, Stop>
    ensures { Gives result reader.new (after_value_at value reader.old) }
{
    match value {
        RawValue::Name(name) => add_or_plain(reader, name),
        RawValue::Number(_) => Ok(RawSource::Value(value)),
    }
}

#[tactic(auto, unfolding(crate::specs::Reading::sum_at))]
fn sum(reader: &mut Reader) -> Result<RawSource, Stop>
    ensures { Gives result reader.new (sum_at reader.old) }
{
    let value = reader.value()?;
    after_value(reader, value)
}

#[tactic(auto, unfolding(crate::specs::Reading::input_or_plain_at))]
fn input_or_plain(reader: &mut Reader) -> Result<RawSource, Stop>
    ensures { Gives result reader.new (input_or_plain_at reader.old) }
{
    if reader.sees(Kind::Keyword(KwValue)) {
        input(reader)
    } else {
        plain(reader)
    }
}

#[tactic(auto, unfolding(crate::specs::Reading::input_or_sum_at))]
fn input_or_sum(reader: &mut Reader) -> Result<RawSource, Stop>
    ensures { Gives result reader.new (input_or_sum_at reader.old) }
{
    if reader.sees(Kind::Keyword(KwValue)) {
        input(reader)
    } else {
        sum(reader)
    }
}

// What stands after the `=` of an emission.
#[tactic(auto, unfolding(crate::specs::Reading::given_source_at))]
fn given_source(reader: &mut Reader, version: u32) -> Result<RawSource, Stop>
    ensures { Gives result reader.new (given_source_at version reader.old) }
{
    if has_sources(version) {
        input_or_plain(reader)
    } else {
        plain(reader)
    }
}

// What stands after `:=`.
#[tactic(auto, unfolding(crate::specs::Reading::source_at))]
fn source(reader: &mut Reader, version: u32) -> Result<RawSource, Stop>
    ensures { Gives result reader.new (source_at version reader.old) }
{
    if has_sources(version) {
        input_or_sum(reader)
    } else {
        plain(reader)
    }
}

#[tactic(auto, unfolding(crate::specs::Reading::given_at))]
fn given(reader: &mut Reader, version: u32) -> Result<Option<RawSource>, Stop>
    ensures { Gives result reader.new (given_at version reader.old) }
{
    reader.sign(Equal)?;
    let source = given_source(reader, version)?;
    Ok(Some(source))
}

// An emission. It has a value where `=` stands after its name.
#[tactic(auto, unfolding(crate::specs::Reading::emit_at, crate::specs::Reading::given_part_at))]
fn emit(reader: &mut Reader, version: u32, made: &mut List<RawAct>) -> Result<(), Stop>
    ensures { Adds result reader.new made.new (with_one made.old (emit_at version reader.old)) }
{
    reader.keyword(KwEmit)?;
    let name = reader.name()?;
    if reader.sees(Kind::Sign(Equal)) {
        let value = given(reader, version)?;
        let name = name.word();
        made.push(RawAct::Emit { name, value })?;
    } else {
        let name = name.word();
        made.push(RawAct::Emit { name, value: None })?;
    }
    Ok(())
}

#[tactic(auto, unfolding(crate::specs::Reading::set_at))]
fn set(reader: &mut Reader, version: u32, made: &mut List<RawAct>) -> Result<(), Stop>
    ensures { Adds result reader.new made.new (with_one made.old (set_at version reader.old)) }
{
    let name = reader.name()?;
    reader.sign(Assign)?;
    let value = source(reader, version)?;
    let name = name.word();
    made.push(RawAct::Set { name, value })?;
    Ok(())
}

impl Part for RawAct {
    ghost use Rattle.net_reader.specs.Reading.{act_at};

    ghost rule = { act_at };

    #[tactic(auto, unfolding(crate::specs::Reading::act_at))]
    #[inline(always)]
    fn read(reader: &mut Reader, version: u32, made: &mut List<RawAct>) -> Result<(), Stop> {
        if reader.sees(Kind::Keyword(KwEmit)) {
            emit(reader, version, made)
        } else {
            set(reader, version, made)
        }
    }
}

#[tactic(auto, unfolding(crate::specs::Reading::nothing_at))]
fn nothing(reader: &mut Reader) -> Result<RawActList, Stop>
    ensures { Gives result reader.new (nothing_at reader.old) }
{
    reader.keyword(KwNothing)?;
    Ok(List::new(reader.alloc()))
}

#[tactic(auto, unfolding(crate::specs::Reading::acts_at))]
fn acts(reader: &mut Reader, version: u32) -> Result<RawActList, Stop>
    ensures { Gives result reader.new (acts_at version reader.old) }
{
    if reader.sees(Kind::Keyword(KwNothing)) {
        nothing(reader)
    } else {
        let room = reader.acts_room();
        listed(reader, version, room)
    }
}

impl Part for RawRow {
    ghost use Rattle.net_reader.specs.Reading.{row_at};

    ghost rule = { row_at };

    #[tactic(auto, unfolding(crate::specs::Reading::row_at))]
    #[inline(always)]
    fn read(reader: &mut Reader, version: u32, made: &mut List<RawRow>) -> Result<(), Stop> {
        reader.keyword(KwWhen)?;
        let room = reader.conds_room();
        let conds = listed(reader, version, room)?;
        reader.keyword(KwDo)?;
        let acts = acts(reader, version)?;
        reader.note_row(conds.len(), acts.len());
        made.push(RawRow { conds, acts })?;
        Ok(())
    }
}

#[tactic(auto, unfolding(crate::specs::Reading::output_at))]
fn output(reader: &mut Reader, version: u32) -> Result<WordList, Stop>
    ensures { Gives result reader.new (output_at reader.old) }
{
    reader.keyword(KwOutput)?;
    listed(reader, version, FEW)
}

#[tactic(auto, unfolding(crate::specs::Reading::outputs_at))]
fn outputs(reader: &mut Reader, version: u32) -> Result<WordList, Stop>
    ensures { Gives result reader.new (outputs_at reader.old) }
{
    if reader.sees(Kind::Keyword(KwOutput)) {
        output(reader, version)
    } else {
        Ok(List::new(reader.alloc()))
    }
}

// What stands after the left brace of a machine.
#[tactic(auto, unfolding(crate::specs::Reading::body_at))]
fn body(reader: &mut Reader, version: u32, name: Word, priority: Num) -> Result<RawMachine, Stop>
    ensures { Gives result reader.new (body_at version name priority reader.old) }
{
    reader.keyword(KwInput)?;
    let inputs = listed(reader, version, FEW)?;
    let outputs = outputs(reader, version)?;
    let states = many(reader, version, Kind::Keyword(KwState))?;
    let rows = many(reader, version, Kind::Keyword(KwWhen))?;
    reader.sign(RightBrace)?;
    Ok(RawMachine {
        name,
        priority,
        inputs,
        outputs,
        states,
        rows,
    })
}

impl Part for RawMachine {
    ghost use Rattle.net_reader.specs.Reading.{machine_at};

    ghost rule = { machine_at };

    #[tactic(auto, unfolding(crate::specs::Reading::machine_at))]
    fn read(reader: &mut Reader, version: u32, made: &mut List<RawMachine>) -> Result<(), Stop> {
        reader.keyword(KwMachine)?;
        let name = reader.word()?;
        reader.keyword(KwPriority)?;
        let priority = reader.num()?;
        reader.sign(LeftBrace)?;
        let machine = body(reader, version, name, priority)?;
        made.push(machine)?;
        Ok(())
    }
}

#[tactic(auto, unfolding(crate::specs::Reading::net_at))]
fn net(reader: &mut Reader) -> Result<RawNet, Stop>
    ensures { Gives result reader.new (net_at reader.old) }
{
    reader.keyword(KwNetwork)?;
    let name = reader.word()?;
    reader.keyword(KwVersion)?;
    let version = reader.num()?;
    let domains = many(reader, version.number, Kind::Keyword(KwDomain))?;
    let events = many(reader, version.number, Kind::Keyword(KwEvent))?;
    let machines = some(reader, version.number, Kind::Keyword(KwMachine))?;
    Ok(RawNet {
        name,
        version,
        domains,
        events,
        machines,
    })
}

// A network and nothing after it.
#[tactic(auto, unfolding(crate::specs::Reading::whole_at))]
pub(crate) fn whole(reader: &mut Reader) -> Result<RawNet, Stop>
    ensures { Gives result reader.new (whole_at reader.old) }
{
    let net = net(reader)?;
    reader.end()?;
    Ok(net)
}
