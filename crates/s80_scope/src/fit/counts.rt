// What is counted of the parts of a tree. Each count stands still at the end of its type.
ghost use Rattle.std.specs.Prelude.{◌≡◌, ◌+◌, ◌*◌, max};
ghost use Rattle.s80_scope.specs.Walk.{above, at_least, block_counts, both, cut, cut_off, declaring, heavier, none};

/// The counts of a part of a tree.
#[derive(Clone, Copy)]
pub(crate) struct Counts {
    /// What it needs of the stack on which it stands.
    pub here: u32,
    /// The most that a real block in it needs of its own stack.
    pub inside: u32,
    /// The parameters of blocks in it.
    pub parameters: u32,
    pub weight: u32,
}

impl Counts {
    pub fn none() -> Self
        ensures { result ≡ none }
    {
        Counts {
            here: 0,
            inside: 0,
            parameters: 0,
            weight: 0,
        }
    }

    /// A push of one value.
    pub fn push() -> Self
        ensures { result ≡ record { here = 1; inside = 0; parameters = 0; weight = 2 } }
    {
        Counts {
            here: 1,
            inside: 0,
            parameters: 0,
            weight: 2,
        }
    }

    /// This part and then another one, on one stack.
    pub fn then(self, next: Counts) -> Self
        ensures { result ≡ cut_off (both self next) }
    {
        Counts {
            here: self.here.max(next.here),
            inside: self.inside.max(next.inside),
            parameters: self.parameters.saturating_add(next.parameters),
            weight: self.weight.saturating_add(next.weight),
        }
    }

    /// This part with further weight.
    pub fn heavier(self, weight: u32) -> Self
        ensures { result ≡ cut_off (heavier weight self) }
    {
        Counts {
            weight: self.weight.saturating_add(weight),
            ..self
        }
    }

    /// This part with the assignments of its value to so many targets.
    pub fn assigned(self, targets: usize) -> Self
        ensures { result ≡ cut_off (heavier (2 * targets) self) }
    {
        self.heavier(capped(targets.saturating_mul(2)))
    }

    /// This part with so many values below it.
    pub fn above(self, values: u32) -> Self
        ensures { result ≡ cut_off (above values self) }
    {
        Counts {
            here: values.saturating_add(self.here),
            ..self
        }
    }

    /// This part where so many values stand on the stack in the end.
    pub fn at_least(self, values: u32) -> Self
        ensures { result ≡ cut_off (at_least values self) }
    {
        Counts {
            here: self.here.max(values),
            ..self
        }
    }

    /// A real block with this body.
    pub fn in_block(self, parameters: usize) -> Self
        ensures { result ≡ cut_off (block_counts parameters self) }
    {
        let count = capped(parameters);
        Counts {
            here: 2,
            inside: self.here.max(count.max(1)).max(self.inside),
            parameters: self.parameters.saturating_add(count),
            weight: self.weight.saturating_add(6),
        }
        .assigned(parameters)
    }

    /// This part with so many parameters or temporaries more.
    pub fn declaring(self, names: usize) -> Self
        ensures { result ≡ cut_off (declaring names self) }
    {
        Counts {
            parameters: self.parameters.saturating_add(capped(names)),
            ..self
        }
    }

    /// The stack of a method with this body, whose home has all the parameters as temporaries.
    pub fn stack(self) -> u32
        ensures { result ≡ cut (max (self.here + self.parameters) self.inside) }
    {
        self.here.saturating_add(self.parameters).max(self.inside)
    }
}

/// A count as far as it can be told.
pub(crate) fn capped(count: usize) -> u32
    ensures { result ≡ cut count }
{
    count.min(u32::MAX as usize) as u32
}
