// Sources of methods, which are parsed once.
ghost use Rattle.std.specs.Prelude.{◌≡◌, ◌≤◌, length, Err, IfOk, IfErr};
ghost use Rattle.s80_change.specs.Check.{IsCheckOf};
ghost use Rattle.s80_change.specs.Source.{IsParsedText, IsTreeOf};

use crate::check::{fitting, syntax_refusal};
use s80_base::{OutOfMemory, Text};
use s80_form::Refusal;
use s80_syntax::{MethodTree, parse_method};
use std::alloc::Global;
use std::marker::Model;

/// The source of a method: its text, of at most 65,535 bytes, and what that is by itself, whatever its class.
#[derive(Debug, Drop)]
pub struct Source {
    text: Text,
    /// The method that it is, which fits a machine; or why each class refuses it.
    parsed: Result<MethodTree, Refusal>,
}

impl Model for Source {
    ghost use Rattle.std.specs.Prelude.{◌≤◌, length};
    ghost use Rattle.s80_change.specs.Source.{SourceParts, selector_of, IsParsedText};

    ghost Value = { SourceParts };

    ghost view = { λ s. record { text = s.text; selector = selector_of s.parsed } };

    ghost invariant = { λ s. IsParsedText s.text s.parsed × (length s.text ≤ 65535) };
}

impl Source {
    /// The source that a text is.
    pub fn parse(alloc: Global, text: Text) -> Result<Source, OutOfMemory>
        requires { length text ≤ 65535 }
        ensures text { IfOk result (λ source. source.text ≡ text) }
        ensures check { IfOk result (λ source. IsCheckOf text source.selector) }
    {
        let parsed = parsed(alloc, &text)?;
        Ok(Source { text, parsed })
    }

    pub fn text(&self) -> &Text
        ensures { result.now ≡ self.now.text }
    {
        &self.text
    }

    pub fn into_text(self) -> Text
        ensures { result ≡ self.text }
    {
        self.text
    }

    /// The method that it is, which fits a machine; or why each class refuses it.
    pub fn tree(&self) -> Result<&MethodTree, &Refusal>
        ensures tree { IfOk result (λ tree. IsTreeOf self.now tree.now) }
        ensures short { length self.now.text ≤ 65535 }
        ensures refusal { IfErr result (λ refusal. self.now.selector ≡ Err refusal.now) }
    {
        match &self.parsed {
            Ok(tree) => Ok(tree),
            Err(refusal) => Err(refusal),
        }
    }
}

/// The method that a text is, where it fits a machine; or why each class refuses it.
fn parsed(alloc: Global, text: &Text) -> Result<Result<MethodTree, Refusal>, OutOfMemory>
    requires { length text.now ≤ 65535 }
    ensures { IfOk result (IsParsedText text.now) }
{
    match parse_method(alloc, text) {
        Ok(tree) => fitting(alloc, tree),
        Err(fault) => Ok(Err(syntax_refusal(fault)?)),
    }
}
