// Whole texts: methods and doIts.
ghost use Rattle.std.specs.Prelude.{◌≡◌};
ghost use Rattle.s80_tree.specs.Name.{names_of};
ghost use Rattle.s80_tree.specs.Tree.{body_of, method_of, doit_of};

use crate::expr::Body;
use crate::name::NamesAt;
use s80_base::Text;

/// A method. Its primitive is 0 where it has none.
#[derive(Debug, Drop)]
pub struct MethodTree {
    pub selector: Text,
    pub parameters: NamesAt,
    pub temporaries: NamesAt,
    pub primitive: u8,
    pub body: Body,
}

/// An expression text: temporaries and a body.
#[derive(Debug, Drop)]
pub struct DoItTree {
    pub temporaries: NamesAt,
    pub body: Body,
}

impl MethodTree {
    pub fn new(
        selector: Text,
        parameters: NamesAt,
        temporaries: NamesAt,
        primitive: u8,
        body: Body,
    ) -> Self
        ensures { method_of result ≡ record { selector = selector; parameters = names_of parameters; temporaries = names_of temporaries; primitive = primitive; body = body_of body } }
    {
        MethodTree {
            selector,
            parameters,
            temporaries,
            primitive,
            body,
        }
    }
}

impl DoItTree {
    pub fn new(temporaries: NamesAt, body: Body) -> Self
        ensures { doit_of result ≡ record { temporaries = names_of temporaries; body = body_of body } }
    {
        DoItTree { temporaries, body }
    }
}
