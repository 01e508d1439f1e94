// What a class has with all that it inherits.
ghost use Rattle.std.specs.Prelude.{◌≡◌};
ghost use Rattle.s80_class.specs.Counted.{nothing, over, own, raised};
ghost use Rattle.s80_class.specs.Family.{least};

use crate::entry::ClassEntry;
use s80_form::Kind;

/// How many variables a class has with all that it inherits, and its effective kind: its own, or that of the nearest superclass
/// that isn't plain.
#[derive(Clone, Copy, Debug, PartialEq, Eq)]
pub struct Totals {
    pub inst_vars: usize,
    pub class_side_vars: usize,
    pub kind: Kind,
}

impl Totals {
    // Of no class.
    pub(crate) fn none() -> Self
        ensures { result ≡ nothing }
    {
        Totals {
            inst_vars: 0,
            class_side_vars: 0,
            kind: Kind::Plain,
        }
    }

    // Of a class alone.
    pub(crate) fn own(entry: &ClassEntry) -> Self
        ensures { result ≡ own entry.now.kind entry.now.inst_vars entry.now.class_side_vars }
    {
        Totals {
            inst_vars: entry.inst_vars.count(),
            class_side_vars: entry.class_side_vars.count(),
            kind: entry.kind,
        }
    }

    // With those of the classes above.
    pub(crate) fn over(self, above: Totals) -> Self
        ensures { result ≡ over self above }
    {
        Totals {
            inst_vars: self.inst_vars.saturating_add(above.inst_vars),
            class_side_vars: self.class_side_vars.saturating_add(above.class_side_vars),
            kind: match self.kind {
                Kind::Plain => above.kind,
                kind => kind,
            },
        }
    }
}

/// The greatest numbers of variables among a class and its descendants.
#[derive(Clone, Copy, Debug, PartialEq, Eq)]
pub struct Greatest {
    pub inst_vars: usize,
    pub class_side_vars: usize,
    /// Of instance variables, among those of bytes or words.
    pub bits_variables: usize,
}

impl Greatest {
    // Of no class.
    pub(crate) fn none() -> Self
        ensures { result ≡ least }
    {
        Greatest {
            inst_vars: 0,
            class_side_vars: 0,
            bits_variables: 0,
        }
    }

    // With one more class.
    pub(crate) fn raised(self, totals: Totals) -> Self
        ensures { result ≡ raised self totals }
    {
        let bits_variables = match totals.kind {
            Kind::Plain | Kind::Pointers => 0,
            Kind::Bytes | Kind::Words => totals.inst_vars,
        };
        Greatest {
            inst_vars: self.inst_vars.max(totals.inst_vars),
            class_side_vars: self.class_side_vars.max(totals.class_side_vars),
            bits_variables: self.bits_variables.max(bits_variables),
        }
    }
}
