// Whether a method sends to super, so that its code must tell the class it is in.
ghost use Rattle.std.specs.Prelude.{◌≡◌};
ghost use Rattle.s80_core.specs.Core.{core_of, cores_of, sends_of};
ghost use Rattle.s80_compile.specs.Compiles.{any_to_super, goes_to_super, sends_to_super};

use s80_core::{Core, CoreMessages, Cores};

/// Whether a message in a core tree goes to super.
#[cycle(owner)]
pub(crate) fn goes_to_super(core: &Core) -> bool
    ensures { result ≡ goes_to_super (core_of core.now) }
{
    match core {
        Core::Leaf(_) | Core::Nothing | Core::ReturnFixed(_) => false,
        Core::Assign(_, made) => goes_to_super(made),
        Core::Value(made) => goes_to_super(made),
        Core::Send {
            receiver,
            to_super,
            message,
        } => *to_super || goes_to_super(receiver) || any_to_super(&message.arguments),
        Core::Cascade {
            receiver,
            to_super,
            messages,
        } => *to_super || goes_to_super(receiver) || sends_to_super(messages),
        Core::RealBlock { body, .. } => goes_to_super(body),
        Core::TwoArms {
            condition,
            first,
            second,
            ..
        } => goes_to_super(condition) || goes_to_super(first) || goes_to_super(second),
        Core::OneArm { condition, arm, .. } => goes_to_super(condition) || goes_to_super(arm),
        Core::Shortcut { condition, arm, .. } => goes_to_super(condition) || goes_to_super(arm),
        Core::Loop {
            condition,
            body,
            ..
        } => goes_to_super(condition) || goes_to_super(body),
        Core::Then(first, second) => goes_to_super(first) || goes_to_super(second),
        Core::Return(made) => goes_to_super(made),
        Core::Leave(made) => goes_to_super(made),
    }
}

/// Whether a message in one of these trees goes to super.
#[cycle(owner)]
fn any_to_super(trees: &Cores) -> bool
    ensures { result ≡ any_to_super (cores_of trees.now) }
{
    for tree in &trees.items {
        if goes_to_super(tree) {
            return true;
        }
    }
    false
}

/// Whether a message in the arguments of these goes to super.
#[cycle(owner)]
fn sends_to_super(messages: &CoreMessages) -> bool
    ensures { result ≡ sends_to_super (sends_of messages.now) }
{
    for message in &messages.items {
        if any_to_super(&message.arguments) {
            return true;
        }
    }
    false
}
