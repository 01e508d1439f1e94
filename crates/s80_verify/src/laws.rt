// Laws of verified code, for those who make code and those who run it.
ghost use Rattle.std.specs.Prelude.{◌≡◌, ℕ};
ghost use Rattle.s80_code.specs.declared.code.Code.{Code};
ghost use Rattle.s80_verify.specs.declared.stack.Stack.{Stack};
ghost use Rattle.s80_verify.specs.Reach.{Leads, Reached};
ghost use Rattle.s80_verify.specs.Fault.{IsVerified};
ghost use Rattle.s80_verify.specs.Record.{HasDepths, Fits};

/// Code with a depth for some of its places, closed under its steps, at which each instruction fits, is verified.
pub fn depths_verify()
    ensures { (code : Code) → HasDepths code → IsVerified code }
{}

/// At each place that such code comes to, an instruction stands that fits it.
pub fn what_is_reached_fits()
    ensures { (code : Code) → HasDepths code → (at : ℕ) (stack : Stack) (depth : ℕ)
        → Reached code at stack depth → Fits code at stack depth }
{}

/// Each step leads to a place that is reached.
pub fn steps_are_reached()
    ensures { (code : Code) (at to : ℕ) (stack other : Stack) (depth after : ℕ)
        → Reached code at stack depth → Leads code at stack depth to other after → Reached code to other after }
{}

/// Such code comes to a place with one depth.
pub fn one_depth()
    ensures { (code : Code) → HasDepths code → (at : ℕ) (stack other : Stack) (depth another : ℕ)
        → Reached code at stack depth → Reached code at other another → depth ≡ another }
{}
