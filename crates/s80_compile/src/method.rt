// Methods and doIts to code.
ghost use Rattle.std.specs.Prelude.{◌≡◌, ◌≤◌, ◌+◌, ◌*◌, ◌++◌, [], length, codes, IfOk, OnOk};
ghost use Rattle.s80_base.specs.declared.names.Side.TheVariants as side;
ghost use Rattle.s80_code.specs.Entries.{entries_of};
ghost use Rattle.s80_tree.specs.Tree.{method_of};
ghost use Rattle.s80_scope.specs.Fit.{fit, measures};
ghost use Rattle.s80_scope.specs.FitStack.{stack, temporaries};
ghost use Rattle.s80_scope.specs.declared.fit.Fit.TheVariants.{Fits};
ghost use Rattle.s80_scope.specs.Names.{AreInOrder, uses_of};
ghost use Rattle.s80_core.specs.Core.{core_of};
ghost use Rattle.s80_core.specs.Measures.{CoreFits};
ghost use Rattle.s80_compile.specs.Compiles.{Compiles, IsCodeOf, flag_of, is_extended, last_entries};
ghost use Rattle.s80_compile.specs.Sent.{AreWellSent};
ghost use Rattle.s80_verify.specs.Fault.{IsVerified};
ghost use Rattle.s80_compile.specs.Header.{AreSizes, FewParameters};

use crate::emit::emit;
use crate::owner::goes_to_super;
use s80_base::{Names, OutOfMemory, Side, Text};
use s80_code::{Code, Entry, Frame};
use s80_core::{Core, elaborate};
use s80_scope::{Bindings, Position, Shape, measured};
use s80_tree::MethodTree;
use s80_verify::Verified;
use std::alloc::Global;

/// The code of a method in a class of this shape, which is the owner's on that side. A text's tree has its names in order and
/// as many arguments as its selectors want.
pub fn compile(
    alloc: Global,
    tree: &MethodTree,
    shape: &Shape,
    owner: &Text,
    side: Side,
) -> Result<Verified, OutOfMemory>
    requires fits { fit (measures (method_of tree.now)) ≡ Fits }
    requires in_order { AreInOrder (uses_of (method_of tree.now)) }
    requires sent { AreWellSent (method_of tree.now) }
    requires inst_vars { length shape.now.inst_vars ≤ 64 }
    ensures related { IfOk result (λ code. Compiles (method_of tree.now) shape.now owner.now side code) }
    ensures verified { IfOk result IsVerified }
{
    let core = elaborate(alloc, tree, shape)?;
    let code = code_of(alloc, tree, &core, owner, side)?;
    Ok(Verified::known(code))
}

/// The code of a doIt, given as a method: one of no class's variables, owned by UndefinedObject's instance side.
pub fn compile_doit(alloc: Global, tree: &MethodTree) -> Result<Verified, OutOfMemory>
    requires fits { fit (measures (method_of tree.now)) ≡ Fits }
    requires in_order { AreInOrder (uses_of (method_of tree.now)) }
    requires sent { AreWellSent (method_of tree.now) }
    ensures related { IfOk result (λ code. Compiles (method_of tree.now) (record { inst_vars = []; class_vars = [] }) (codes "UndefinedObject") side.Instance code) }
    ensures verified { IfOk result IsVerified }
{
    let shape = Shape {
        inst_vars: Names::empty(alloc),
        class_vars: Bindings::empty(alloc),
    };
    let owner = Text::from_bytes(alloc, b"UndefinedObject")?;
    compile(alloc, tree, &shape, &owner, Side::Instance)
}

/// The code of a method with this core tree.
fn code_of(
    alloc: Global,
    tree: &MethodTree,
    core: &Core,
    owner: &Text,
    side: Side,
) -> Result<Code, OutOfMemory>
    requires fits { fit (measures (method_of tree.now)) ≡ Fits }
    requires core { CoreFits (temporaries (method_of tree.now)) (stack (method_of tree.now)) (core_of core.now) }
    ensures { IfOk result (λ code. IsCodeOf (method_of tree.now) (core_of core.now) owner.now side code) }
{
    let mut literals = Frame::empty(alloc);
    let mut bytes = Text::empty(alloc);
    emit(alloc, &mut literals, &mut bytes, core, Position::Effect)?;
    add_last_entries(alloc, &mut literals, tree, core, owner, side)?;
    let (temporaries, large) = sizes(alloc, tree)?;
    Ok(Code {
        flag: flag_of(tree),
        arguments: tree.parameters.count() as u8,
        primitive: tree.primitive,
        temporaries,
        large,
        literals,
        bytes,
    })
}

/// How many temporaries a method has, and whether a context of it has the larger room.
fn sizes(alloc: Global, tree: &MethodTree) -> Result<(u8, bool), OutOfMemory>
    requires { fit (measures (method_of tree.now)) ≡ Fits }
    ensures { IfOk result (AreSizes (method_of tree.now)) }
{
    let measures = measured(alloc, tree)?;
    Ok((measures.temporaries as u8, measures.stack > 12))
}

/// Adds the entries that the header asks for.
fn add_last_entries(
    alloc: Global,
    literals: &mut Frame,
    tree: &MethodTree,
    core: &Core,
    owner: &Text,
    side: Side,
) -> Result<(), OutOfMemory>
    requires { FewParameters (method_of tree.now) }
    ensures { OnOk result (entries_of literals.new ≡ entries_of literals.old ++ last_entries (method_of tree.now) (core_of core.now) owner.now side) }
{
    if is_extended(tree) {
        let number = extension(tree.parameters.count() as u8, tree.primitive);
        literals.push(Entry::Extension(number))?;
        return literals.push(Entry::Owner(owner.copy(alloc)?, side));
    }
    if goes_to_super(core) {
        return literals.push(Entry::Owner(owner.copy(alloc)?, side));
    }
    Ok(())
}

/// The arguments times 256, and the primitive.
fn extension(arguments: u8, primitive: u8) -> u32
    ensures { result ≡ arguments * 256 + primitive }
{
    u32::from(arguments) * 256 + u32::from(primitive)
}

/// Whether a method is told by an extension.
fn is_extended(tree: &MethodTree) -> bool
    ensures { result ≡ is_extended (method_of tree.now) }
{
    tree.parameters.count() > 4 || tree.primitive != 0
}

fn flag_of(tree: &MethodTree) -> u8
    requires { FewParameters (method_of tree.now) }
    ensures { result ≡ flag_of (method_of tree.now) }
{
    if is_extended(tree) {
        7
    } else {
        tree.parameters.count() as u8
    }
}
