// One walk over a tree, which counts all that is measured.
ghost use Rattle.std.specs.Prelude.{◌≡◌, ◌++◌, [], IfOk, OnOk, cond, true, false};
ghost use Rattle.s80_tree.specs.Tree.{block as block_tree, block_of, body_of, expr_of, exprs_of, message_of, messages_of, method_of, primary_of, stmt_of};
ghost use Rattle.s80_scope.specs.FitLiterals.{body_entries, declares, expr_entries, exprs_entries, messages_entries, primary_entries, selector_entries, target_entries};
ghost use Rattle.s80_scope.specs.Inlined.{are_arms, expr_ending, is_arm, is_inlined};
ghost use Rattle.s80_tree.specs.declared.expr.Expr.{out-Expr};
ghost use Rattle.s80_scope.specs.Scope.{declared_in};
ghost use Rattle.s80_scope.specs.Walk.{IsMethodCount, arguments_counts, arm_counts, arms_counts, body_counts, cut_off, expr_counts, last_counts, last_has_arms, messages_counts, receiver_counts, sent_counts, statement_counts, with_entries};

use crate::fit::counts::Counts;
use crate::fit::ending::{Ending, cascade_to_super, ending_of};
use crate::fit::entries::Entries;
use crate::fit::position::{
    Leaves, Position, arm_leaves, arm_position, dropped, empty_weight, leaves_before,
    method_leaves, own_weight, position_within, statement_position, statement_weight,
};
use crate::fit::scope::Scope;
use s80_base::OutOfMemory;
use s80_syntax::NameSet;
use s80_tree::{Block, Body, Expr, Exprs, Message, Messages, MethodTree, NameAt, Primary, Stmt};
use std::alloc::Global;

/// Messages to one receiver: how the last of them ends the chain and how those before it go on, and whether the first and
/// whether the others are sent to super.
#[derive(Clone, Copy)]
struct Chain {
    before: Ending,
    last: Ending,
    first_to_super: bool,
    others_to_super: bool,
}

/// How many entries a method has, and its counts, whose parameters are all its temporaries.
pub(crate) fn method(alloc: Global, tree: &MethodTree) -> Result<(usize, Counts), OutOfMemory>
    ensures { IfOk result (IsMethodCount (method_of tree.now)) }
{
    let parameters = &tree.parameters.items;
    let temporaries = &tree.temporaries.items;
    let mut entries = Entries::new(alloc);
    let leaves = method_leaves(tree.selector.bytes());
    let counts = home(
        alloc,
        &mut entries,
        parameters,
        temporaries,
        leaves,
        &tree.body,
    )?;
    let declared = counts.declaring(tree.parameters.count());
    Ok((
        entries.count(),
        declared.declaring(tree.temporaries.count()),
    ))
}

/// The body of a home with these names.
fn home(
    alloc: Global,
    entries: &mut Entries,
    parameters: &[NameAt],
    temporaries: &[NameAt],
    leaves: Leaves,
    statements: &Body,
) -> Result<Counts, OutOfMemory>
    ensures counts { IfOk result (λ counts. counts ≡ cut_off (body_counts leaves (body_of statements.now))) }
    ensures entries { OnOk result (entries.new ≡ with_entries entries.old (body_entries (declares temporaries.now (declares parameters.now (λ word. false))) (body_of statements.now))) }
{
    let parameters = NameSet::of(alloc, parameters)?;
    let temporaries = NameSet::of(alloc, temporaries)?;
    let outside = Scope::outside();
    let scope = Scope::within(&parameters, &outside);
    body(
        alloc,
        entries,
        &Scope::within(&temporaries, &scope),
        leaves,
        statements,
    )
}

#[cycle(walk)]
fn expr(
    alloc: Global,
    entries: &mut Entries,
    scope: &Scope,
    position: Position,
    expr: &Expr,
) -> Result<Counts, OutOfMemory>
    ensures counts { IfOk result (λ counts. counts ≡ cut_off (expr_counts position (expr_of expr.now))) }
    ensures entries { OnOk result (entries.new ≡ with_entries entries.old (expr_entries (declared_in scope.now) (expr_of expr.now))) }
{
    let ending = ending_with_arms(expr);
    let within = position_within(&expr.targets, position);
    let to_super = expr.receiver.is_super();
    let chain = Chain {
        before: Ending::Sent,
        last: ending,
        first_to_super: to_super,
        others_to_super: false,
    };
    let still_super = cascade_to_super(expr);
    let cascade = Chain {
        before: Ending::Cascaded,
        last: Ending::Sent,
        first_to_super: still_super,
        others_to_super: still_super,
    };
    let receiver = receiver(alloc, entries, scope, ending.is_loop(), &expr.receiver)?;
    let chain = messages(alloc, entries, scope, within, chain, &expr.messages)?;
    let cascade = messages(
        alloc,
        entries,
        scope,
        Position::Value,
        cascade,
        &expr.cascades,
    )?;
    targets(alloc, entries, scope, &expr.targets.items)?;
    Ok(
        receiver
            .then(chain)
            .then(cascade)
            .assigned(expr.targets.items.len())
            .heavier(dropped(within, ending)),
    )
}

/// How an expression ends. Where it is inlined, the arguments of its last message are arms.
fn ending_with_arms(expr: &Expr) -> Ending
    ensures is { result ≡ expr_ending (expr_of expr.now) }
    ensures arms { is_inlined result ≡ true → last_has_arms (messages_of (out-Expr expr.now).messages) ≡ true }
{
    ending_of(expr)
}

/// What an expression begins with, which may be the condition of a loop.
#[cycle(walk)]
fn receiver(
    alloc: Global,
    entries: &mut Entries,
    scope: &Scope,
    looped: bool,
    primary: &Primary,
) -> Result<Counts, OutOfMemory>
    ensures counts { IfOk result (λ counts. counts ≡ cut_off (receiver_counts looped (primary_of primary.now))) }
    ensures entries { OnOk result (entries.new ≡ with_entries entries.old (primary_entries (declared_in scope.now) (primary_of primary.now))) }
{
    match primary {
        Primary::Name(name) => {
            entries.add_name(alloc, scope, name.name.bytes())?;
            Ok(Counts::push())
        }
        Primary::Literal(literal) => {
            entries.add_constant(alloc, literal)?;
            Ok(Counts::push())
        }
        Primary::Paren(inner) => expr(alloc, entries, scope, Position::Value, inner),
        Primary::Block(inner) => {
            let counts = block(alloc, entries, scope, Leaves::Value, inner)?;
            let parameters = inner.parameters.count();
            if looped {
                return Ok(counts.declaring(parameters));
            }
            Ok(counts.in_block(parameters))
        }
    }
}

/// The body of a block, in a frame that has the number of its parameters as a constant.
#[cycle(walk)]
fn block(
    alloc: Global,
    entries: &mut Entries,
    scope: &Scope,
    leaves: Leaves,
    block: &Block,
) -> Result<Counts, OutOfMemory>
    ensures counts { IfOk result (λ counts. counts ≡ cut_off (body_counts leaves (block_of block.now).1)) }
    ensures entries { OnOk result (entries.new ≡ with_entries entries.old (primary_entries (declared_in scope.now) (block_tree (block_of block.now).0 (block_of block.now).1))) }
{
    let parameters = &block.parameters.items;
    entries.add_count(alloc, block.parameters.count())?;
    let names = NameSet::of(alloc, parameters)?;
    let inner = Scope::within(&names, &*scope);
    body(alloc, entries, &inner, leaves, &block.body)
}

/// Messages to one receiver. The arguments of the last are arms where it is inlined.
#[cycle(walk)]
fn messages(
    alloc: Global,
    entries: &mut Entries,
    scope: &Scope,
    position: Position,
    chain: Chain,
    messages: &Messages,
) -> Result<Counts, OutOfMemory>
    requires { is_inlined chain.last ≡ true → last_has_arms (messages_of messages.now) ≡ true }
    ensures counts { IfOk result (λ counts. counts ≡ cut_off (messages_counts position chain.before chain.last (messages_of messages.now))) }
    ensures entries { OnOk result (entries.new ≡ with_entries entries.old (messages_entries (declared_in scope.now) chain.first_to_super chain.others_to_super (is_inlined chain.last) (messages_of messages.now))) }
{
    let mut after = messages.items.len();
    let mut counts = Counts::none();
    let mut to_super = chain.first_to_super;
    for message in &messages.items {
        after -= 1;
        let next = if after == 0 {
            last(
                alloc, entries, scope, position, chain.last, to_super, message,
            )?
        } else {
            sent(
                alloc,
                entries,
                scope,
                Position::Value,
                chain.before,
                to_super,
                message,
            )?
        };
        counts = counts.then(next);
        to_super = chain.others_to_super;
    }
    Ok(counts)
}

/// A message that is sent.
#[cycle(walk)]
fn sent(
    alloc: Global,
    entries: &mut Entries,
    scope: &Scope,
    position: Position,
    ending: Ending,
    to_super: bool,
    message: &Message,
) -> Result<Counts, OutOfMemory>
    ensures counts { IfOk result (λ counts. counts ≡ cut_off (sent_counts position ending (message_of message.now).1)) }
    ensures entries { OnOk result (entries.new ≡ with_entries entries.old (exprs_entries (declared_in scope.now) (message_of message.now).1 ++ selector_entries to_super (message_of message.now).0)) }
{
    let values = ending.values_below();
    let counts = arguments(alloc, entries, scope, values, &message.arguments)?;
    entries.add_selector(alloc, to_super, message.selector.bytes())?;
    Ok(
        counts
            .at_least(values)
            .heavier(own_weight(position, ending)),
    )
}

/// The last message of a chain, whose arguments are arms where it is inlined.
#[cycle(walk)]
fn last(
    alloc: Global,
    entries: &mut Entries,
    scope: &Scope,
    position: Position,
    ending: Ending,
    to_super: bool,
    message: &Message,
) -> Result<Counts, OutOfMemory>
    requires { is_inlined ending ≡ true → are_arms (message_of message.now).1 ≡ true }
    ensures counts { IfOk result (λ counts. counts ≡ cut_off (last_counts position ending (message_of message.now).1)) }
    ensures entries { OnOk result (entries.new ≡ with_entries entries.old (exprs_entries (declared_in scope.now) (message_of message.now).1 ++ cond (is_inlined ending) [] (selector_entries to_super (message_of message.now).0))) }
{
    if !ending.is_inlined() {
        return sent(alloc, entries, scope, position, ending, to_super, message);
    }
    let inner = arm_position(position, ending);
    let counts = arms(alloc, entries, scope, inner, &message.arguments)?;
    Ok(
        counts
            .at_least(ending.values_below())
            .heavier(own_weight(position, ending)),
    )
}

/// Arguments, with so many values below the first.
#[cycle(walk)]
fn arguments(
    alloc: Global,
    entries: &mut Entries,
    scope: &Scope,
    values: u32,
    arguments: &Exprs,
) -> Result<Counts, OutOfMemory>
    ensures counts { IfOk result (λ counts. counts ≡ cut_off (arguments_counts values (exprs_of arguments.now))) }
    ensures entries { OnOk result (entries.new ≡ with_entries entries.old (exprs_entries (declared_in scope.now) (exprs_of arguments.now))) }
{
    let mut counts = Counts::none();
    let mut below = values;
    for argument in &arguments.items {
        let next = expr(alloc, entries, scope, Position::Value, argument)?;
        counts = counts.then(next.above(below));
        below = below.saturating_add(1);
    }
    Ok(counts)
}

/// Arguments that are arms.
#[cycle(walk)]
fn arms(
    alloc: Global,
    entries: &mut Entries,
    scope: &Scope,
    position: Position,
    arguments: &Exprs,
) -> Result<Counts, OutOfMemory>
    requires { are_arms (exprs_of arguments.now) ≡ true }
    ensures counts { IfOk result (λ counts. counts ≡ cut_off (arms_counts position (exprs_of arguments.now))) }
    ensures entries { OnOk result (entries.new ≡ with_entries entries.old (exprs_entries (declared_in scope.now) (exprs_of arguments.now))) }
{
    let mut counts = Counts::none();
    for argument in &arguments.items {
        let next = arm(alloc, entries, scope, position, argument)?;
        counts = counts.then(next);
    }
    Ok(counts)
}

/// The body of an arm.
#[cycle(walk)]
fn arm(
    alloc: Global,
    entries: &mut Entries,
    scope: &Scope,
    position: Position,
    argument: &Expr,
) -> Result<Counts, OutOfMemory>
    requires { is_arm (expr_of argument.now) ≡ true }
    ensures counts { IfOk result (λ counts. counts ≡ cut_off (arm_counts position (expr_of argument.now))) }
    ensures entries { OnOk result (entries.new ≡ with_entries entries.old (expr_entries (declared_in scope.now) (expr_of argument.now))) }
{
    match &argument.receiver {
        Primary::Block(inner) => block(alloc, entries, scope, arm_leaves(position), inner),
        Primary::Name(_) | Primary::Literal(_) | Primary::Paren(_) => unreachable!(),
    }
}

/// Statements, of which the last leaves its value or not.
#[cycle(walk)]
fn body(
    alloc: Global,
    entries: &mut Entries,
    scope: &Scope,
    leaves: Leaves,
    statements: &Body,
) -> Result<Counts, OutOfMemory>
    ensures counts { IfOk result (λ counts. counts ≡ cut_off (body_counts leaves (body_of statements.now))) }
    ensures entries { OnOk result (entries.new ≡ with_entries entries.old (body_entries (declared_in scope.now) (body_of statements.now))) }
{
    let mut after = statements.items.len();
    if after == 0 {
        return Ok(Counts {
            weight: empty_weight(leaves),
            ..Counts::none()
        });
    }
    let mut counts = Counts::none();
    for one in &statements.items {
        after -= 1;
        let here = leaves_before(after, leaves);
        let next = statement(alloc, entries, scope, here, one)?;
        counts = counts.then(next);
    }
    Ok(counts)
}

#[cycle(walk)]
fn statement(
    alloc: Global,
    entries: &mut Entries,
    scope: &Scope,
    leaves: Leaves,
    statement: &Stmt,
) -> Result<Counts, OutOfMemory>
    ensures counts { IfOk result (λ counts. counts ≡ cut_off (statement_counts leaves (stmt_of statement.now).0 (stmt_of statement.now).1)) }
    ensures entries { OnOk result (entries.new ≡ with_entries entries.old (expr_entries (declared_in scope.now) (stmt_of statement.now).1)) }
{
    let returns = statement.returns;
    let position = statement_position(leaves, returns);
    let counts = expr(alloc, entries, scope, position, &statement.expr)?;
    Ok(Counts {
        weight: statement_weight(leaves, returns, &statement.expr, counts.weight),
        ..counts
    })
}

/// The names to which a value is assigned, from the right.
fn targets(
    alloc: Global,
    entries: &mut Entries,
    scope: &Scope,
    targets: &[NameAt],
) -> Result<(), OutOfMemory>
    ensures { OnOk result (entries.new ≡ with_entries entries.old (target_entries (declared_in scope.now) targets.now)) }
{
    let count = targets.len();
    for passed in 0..count {
        let target = &targets[count - 1 - passed];
        entries.add_name(alloc, scope, target.name.bytes())?;
    }
    Ok(())
}
