// What a text is parsed as.
ghost use Rattle.std.specs.Prelude.{◌≡◌, ◌≢◌, ◌≤◌, IfErr, IfNone, IfSome, OnOk, length};

use s80_base::Text;
use s80_syntax::{ParseFault, parse_doit, parse_method};
use std::alloc::Global;

/// What a text is parsed as.
#[derive(Clone, Copy, Debug, PartialEq, Eq)]
pub enum TextKind {
    DoIt,
    Method,
}

impl TextKind {
    ghost use Rattle.parse_bench.specs.declared.kind.TextKind.{TextKind};
    ghost use Rattle.parse_bench.specs.Kind.{HasFault, HasTree, word_of};

    /// The kind of this name.
    pub fn named(word: &str) -> Option<Self>
        ensures found { IfSome result (λ kind. word.now ≡ word_of kind) }
        ensures none { IfNone result ((kind : TextKind) → word.now ≢ word_of kind) }
    {
        match word {
            "doit" => Some(TextKind::DoIt),
            "method" => Some(TextKind::Method),
            _ => None,
        }
    }

    /// Whether a text has a tree, or its first fault.
    pub fn parse(self, alloc: Global, text: &Text) -> Result<(), ParseFault>
        requires { length text.now ≤ 65535 }
        ensures tree { OnOk result (HasTree self text.now) }
        ensures fault { IfErr result (HasFault self text.now) }
    {
        match self {
            TextKind::DoIt => {
                parse_doit(alloc, text)?;
            }
            TextKind::Method => {
                parse_method(alloc, text)?;
            }
        }
        Ok(())
    }

    /// The same, after the text was parsed so many times and the trees were let go.
    pub fn parse_again(self, alloc: Global, text: &Text, times: u64) -> Result<(), ParseFault>
        requires { length text.now ≤ 65535 }
        ensures tree { OnOk result (HasTree self text.now) }
        ensures fault { IfErr result (HasFault self text.now) }
    {
        for _ in 0..times {
            let _ = self.parse(alloc, text);
        }
        self.parse(alloc, text)
    }
}
