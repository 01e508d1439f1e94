// What names push, and what is stored into them.
ghost use Rattle.std.specs.Prelude.{◌≡◌, ◌∷◌, [], IfOk};
ghost use Rattle.s80_scope.specs.Shape.{where_of};
ghost use Rattle.s80_core.specs.Core.{core_of, leaf_of, variable_of};
ghost use Rattle.s80_core.specs.Elaborate.{assigned, leaf_meant, target_meant};
ghost use Rattle.s80_core.specs.Walk.{AreUsed, IsHome, meaning_in};

use super::Home;
use crate::core_tree::{Core, Leaf, Variable};
use s80_base::OutOfMemory;
use s80_scope::{Where, bind};
use s80_tree::NameAt;

/// What a name pushes.
pub(super) fn leaf(home: &Home, used: &NameAt) -> Result<Leaf, OutOfMemory>
    requires home { IsHome home.now }
    requires used { AreUsed home.now (used.now ∷ []) }
    ensures { IfOk result (λ leaf. leaf_of leaf ≡ leaf_meant (meaning_in home.now used.now)) }
{
    let found = meaning(home, used)?;
    Ok(match found {
        Where::Temp(number) => Leaf::Variable(Variable::Temporary(number)),
        Where::Inst(place) => Leaf::Variable(Variable::Instance(place)),
        Where::ClassVar(owner, word) => Leaf::Variable(Variable::Class(owner, word)),
        Where::Outer(word) => Leaf::Variable(Variable::Outer(word)),
        Where::SelfRef | Where::SuperRef => Leaf::Receiver,
        Where::Context => Leaf::Context,
        Where::Constant(literal) => Leaf::Constant(literal),
    })
}

/// What a target stores into. A reserved word is never a target; it counts as the first instance variable.
fn target(home: &Home, used: &NameAt) -> Result<Variable, OutOfMemory>
    requires home { IsHome home.now }
    requires used { AreUsed home.now (used.now ∷ []) }
    ensures { IfOk result (λ variable. variable_of variable ≡ target_meant (meaning_in home.now used.now)) }
{
    let found = meaning(home, used)?;
    Ok(match found {
        Where::Temp(number) => Variable::Temporary(number),
        Where::Inst(place) => Variable::Instance(place),
        Where::ClassVar(owner, word) => Variable::Class(owner, word),
        Where::Outer(word) => Variable::Outer(word),
        Where::SelfRef | Where::SuperRef | Where::Context => Variable::Instance(0),
        Where::Constant(literal) => {
            drop(literal);
            Variable::Instance(0)
        }
    })
}

fn meaning(home: &Home, used: &NameAt) -> Result<Where, OutOfMemory>
    requires home { IsHome home.now }
    requires used { AreUsed home.now (used.now ∷ []) }
    ensures { IfOk result (λ found. where_of found ≡ meaning_in home.now used.now) }
{
    bind(home.alloc, home.tree, used.at, home.shape)
}

/// A value assigned to targets, from the right.
pub(super) fn assigned(home: &Home, targets: &[NameAt], value: Core) -> Result<Core, OutOfMemory>
    requires home { IsHome home.now }
    requires used { AreUsed home.now targets.now }
    ensures { IfOk result (λ core. core_of core ≡ assigned (meaning_in home.now) targets.now (core_of value)) }
{
    let mut made = value;
    let count = targets.len();
    for passed in 0..count {
        let variable = target(home, &targets[count - 1 - passed])?;
        made = Core::assign(variable, Box::new(home.alloc, made)?);
    }
    Ok(made)
}
