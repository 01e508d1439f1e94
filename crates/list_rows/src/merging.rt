// What merging two sets of changes meets: a line for each key in conflict, or the change of theirs that is refused.
ghost use Rattle.std.specs.Prelude.{◌≡◌, ◌++◌, [], Ok, IfOk};
ghost use Rattle.s80_apply.specs.List.{IsBuilt, state_of};
ghost use Rattle.s80_merge.specs.Merging.{IsPlan};

use crate::lists::{changes_of, shortest};
use anyhow::{Context, Result, bail, ensure};
use s80_base::{Side, Text};
use s80_change::Changes;
use s80_merge::{Key, MergePlan, PlanFault, plan};
use s80_print::refusal_text;
use std::alloc::Global;

/// The keys in conflict: the blocks of the base, of our changes and of theirs, with `||` between them.
pub(crate) fn conflicts(alloc: Global, rest: &str) -> Result<Text> {
    let (base, ours, theirs) = parts(rest)?;
    conflicts_of_blocks(alloc, base, ours, theirs)
}

/// The same of two sets that the base accepts, whichever is ours; and where no key is in conflict, the shortest list of the state that both
/// orders make.
pub(crate) fn merged(alloc: Global, rest: &str) -> Result<Text> {
    let (base, ours, theirs) = parts(rest)?;
    let keys = conflicts_of_blocks(alloc, base, ours, theirs)?;
    let turned = conflicts_of_blocks(alloc, base, theirs, ours)?;
    ensure!(
        keys.bytes() == turned.bytes(),
        "the other way round there are other conflicts"
    );
    if keys.bytes().is_empty() {
        return one_state(alloc, base, ours, theirs);
    }
    Ok(keys)
}

fn one_state(alloc: Global, base: &str, ours: &str, theirs: &str) -> Result<Text> {
    let list = shortest(alloc, &format!(in alloc; "{base}{ours}{theirs}")?)?;
    let turned = shortest(alloc, &format!(in alloc; "{base}{theirs}{ours}")?)?;
    ensure!(
        list.bytes() == turned.bytes(),
        "the other way round it is another state"
    );
    Ok(list)
}

fn parts(rest: &str) -> Result<(&str, &str, &str)> {
    let (base, rest) = rest.split_once("||").context("no base")?;
    let (ours, theirs) = rest.split_once("||").context("no changes of ours")?;
    Ok((base, ours, theirs))
}

fn conflicts_of_blocks(alloc: Global, base: &str, ours: &str, theirs: &str) -> Result<Text> {
    let base = changes_of(alloc, base)?;
    let ours = changes_of(alloc, ours)?;
    let theirs = changes_of(alloc, theirs)?;
    conflicts_of(alloc, &base, &ours, &theirs)
}

/// The base has to be accepted, and behind it our changes: each is planned by itself.
fn conflicts_of(alloc: Global, base: &Changes, ours: &Changes, theirs: &Changes) -> Result<Text> {
    let none = Changes::empty(alloc);
    accepted(alloc, &none, &none, base)?;
    accepted(alloc, base, &none, ours)?;
    match plan(alloc, base, ours, theirs) {
        Ok(plan) => lines(alloc, &plan),
        Err(fault) => refused(alloc, &fault),
    }
}

/// Says whether changes are accepted behind the base.
fn accepted(alloc: Global, base: &Changes, ours: &Changes, theirs: &Changes) -> Result<MergePlan>
    requires { IsBuilt (base.now ++ ours.now) }
    ensures { IfOk result (λ plan. IsPlan (state_of base.now) ours.now theirs.now (Ok plan)) }
{
    match plan(alloc, base, ours, theirs) {
        Ok(plan) => Ok(plan),
        Err(_) => bail!("the base or a change of ours is refused"),
    }
}

fn refused(alloc: Global, fault: &PlanFault) -> Result<Text> {
    let PlanFault::Theirs(index, refusal) = fault else {
        bail!("out of memory");
    };
    let mut line = Text::from_bytes(alloc, format!(in alloc; "{index} ")?.as_bytes())?;
    line.append(refusal_text(alloc, refusal)?.bytes())?;
    line.append(b"\n")?;
    Ok(line)
}

fn lines(alloc: Global, plan: &MergePlan) -> Result<Text> {
    let mut lines = Text::empty(alloc);
    for i in 0..plan.conflicts.count() {
        add_key(&mut lines, plan.conflicts.at(i))?;
    }
    Ok(lines)
}

fn add_key(lines: &mut Text, key: &Key) -> Result<()> {
    match key {
        Key::ClassKey(name) => add_line(lines, b"class ", name),
        Key::DefinitionKey(name) => add_line(lines, b"definition ", name),
        Key::ClassVarsKey(name) => add_line(lines, b"class-variables ", name),
        Key::CommentKey(name) => add_line(lines, b"comment ", name),
        Key::MethodKey(name, side, selector) => add_method(lines, name, *side, selector),
    }
}

fn add_method(lines: &mut Text, name: &Text, side: Side, selector: &Text) -> Result<()> {
    lines.append(b"method ")?;
    lines.append(name.bytes())?;
    add_line(
        lines,
        match side {
            Side::Instance => b" ",
            Side::Class => b" class ",
        },
        selector,
    )
}

fn add_line(lines: &mut Text, before: &[u8], word: &Text) -> Result<()> {
    lines.append(before)?;
    lines.append(word.bytes())?;
    lines.append(b"\n")?;
    Ok(())
}
