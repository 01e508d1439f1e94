// A system as an image and the sources of its methods make it.
ghost use Rattle.std.specs.Prelude.{IfOk, MatchBool};
ghost use Rattle.s80_image.specs.Classes.{classes_of};
ghost use Rattle.s80_image.specs.Image.{view_of};
ghost use Rattle.s80_image.specs.Together.{IsLawfulImage};
ghost use Rattle.s80_snapshot.specs.Resuming.{AreOrdered, IsBegun};
ghost use Rattle.s80_snapshot.specs.Sources.{AreSourcesOf, IsResumed, Resumes};

use crate::begun::begun_system;
use crate::resumed_methods::{listed_methods, resume_method};
use s80_apply::System;
use s80_base::{OutOfMemory, Text};
use s80_compile::one_code;
use s80_image::{Image, ImageClass, lawful_classes_are_in_order};
use s80_syntax::one_tree;
use std::alloc::Global;

/// The system of an image, whose methods have these sources, in the image's order. None where one of the sources isn't that of its method: it isn't the text
/// of a chunk of at most 65,535 bytes, is no method of this selector, doesn't fit, or has another code in its class; or where there are more of them or
/// fewer. Each source is compiled, and its code compared with the image's.
pub fn resume(
    alloc: Global,
    image: &Image,
    sources: Vec<Text>,
) -> Result<Option<System>, OutOfMemory>
    requires { IsLawfulImage (view_of image.now) }
    ensures { IfOk result (Resumes (classes_of image.now.classes.items) sources.items) }
{
    lawful_classes_are_in_order();
    let mut system = begun_system(alloc, &image.classes)?;
    if resume_methods(alloc, &mut system, &image.classes, sources)? {
        Ok(Some(system))
    } else {
        Ok(None)
    }
}

/// Puts the methods of these classes, if the sources are theirs.
fn resume_methods(
    alloc: Global,
    system: &mut System,
    classes: &[ImageClass],
    sources: Vec<Text>,
) -> Result<bool, OutOfMemory>
    requires ordered { AreOrdered (classes_of classes.now) }
    requires begun { IsBegun (classes_of classes.now) system.old }
    ensures { IfOk result (λ all. MatchBool all
        (AreSourcesOf (classes_of classes.now) sources.items × IsResumed (classes_of classes.now) sources.items system.new)
        (AreSourcesOf (classes_of classes.now) sources.items → ⊥)) }
{
    one_tree();
    one_code();
    let methods = listed_methods(alloc, classes)?;
    if methods.len() != sources.len() {
        return Ok(false);
    }
    let mut rest = sources.into_iter();
    for method in &methods {
        let Some(source) = rest.next() else {
            return Ok(false);
        };
        if !resume_method(alloc, system, method, source)? {
            return Ok(false);
        }
    }
    Ok(true)
}
