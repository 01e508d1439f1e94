// The bytes of an image.
ghost use Rattle.std.specs.Prelude.{◌≡◌, ◌<◌, ◌^◌, ◌++◌, ◌∷◌, [], length, None, IfOk, OnOk};
ghost use Rattle.std.specs.Int.{w32, to_be_bytes};
ghost use Rattle.s80_base.specs.Literal.{kind_number, literal_of, literals_of};
ghost use Rattle.s80_code.specs.Entries.{entries_of, entry_of};
ghost use Rattle.s80_image.specs.Format.{text as text_format, word32, word64};
ghost use Rattle.s80_image.specs.Parts.{flag as flag_format, places as places_format, side as side_format, source};
ghost use Rattle.s80_image.specs.Literals.{count_of, entry_bytes, kept_number, literal_bytes, literals_bytes};
ghost use Rattle.s80_image.specs.Methods.{code as code_format, code_of, frame as frame_format, method as method_format, method_heading as method_heading_format, methods as methods_format, methods_of};
ghost use Rattle.s80_image.specs.Classes.{class as class_format, class_of, classes as classes_format, classes_of, heading as heading_format, kind_number as class_kind_number, names as names_format, variables as variables_format};
ghost use Rattle.s80_image.specs.History.{all_versions, all_versions_of, change_set, noted as noted_format, noted_kind_number, versions as versions_format, versions_of};
ghost use Rattle.s80_image.specs.Image.{image_bytes, view_of};
ghost use Rattle.s80_image.specs.Spelling.{head_bytes};

use crate::image::{
    ClassHeading, ClassVariables, Image, ImageClass, ImageMethod, MethodHeading, MethodVersions,
};
use s80_base::{Literal, Literals, Names, NumberKind, OutOfMemory, Side, Text};
use s80_code::{Code, Entry, Frame};
use s80_form::Kind;
use s80_history::{Noted, NotedKind};
use std::alloc::Global;

// ---- fields

fn put_word32(out: &mut Vec<u8>, number: u32) -> Result<(), OutOfMemory>
    ensures { OnOk result (out.new.items ≡ out.old.items ++ word32.spell number) }
{
    out.extend_from_slice(&number.to_be_bytes())?;
    Ok(())
}

fn put_word64(out: &mut Vec<u8>, number: u64) -> Result<(), OutOfMemory>
    ensures { OnOk result (out.new.items ≡ out.old.items ++ word64.spell number) }
{
    out.extend_from_slice(&number.to_be_bytes())?;
    Ok(())
}

/// Adds the length of a text or a list. One of 2^32 members, which the format couldn't spell, counts as want of memory.
pub fn put_count(out: &mut Vec<u8>, count: usize) -> Result<(), OutOfMemory>
    ensures bytes { OnOk result (out.new.items ≡ out.old.items ++ to_be_bytes w32 count) }
    ensures short { OnOk result (count < 2 ^ 32) }
{
    if count > u32::MAX as usize {
        return Err(OutOfMemory);
    }
    put_word32(out, count as u32)
}

pub(crate) fn put_text(out: &mut Vec<u8>, text: &[u8]) -> Result<(), OutOfMemory>
    ensures { OnOk result (out.new.items ≡ out.old.items ++ text_format.spell text.now) }
{
    put_count(out, text.len())?;
    out.extend_from_slice(text)?;
    Ok(())
}

fn put_side(out: &mut Vec<u8>, side: Side) -> Result<(), OutOfMemory>
    ensures { OnOk result (out.new.items ≡ out.old.items ++ side_format.spell side) }
{
    match side {
        Side::Instance => out.push(0)?,
        Side::Class => out.push(1)?,
    }
    Ok(())
}

// ---- literals and entries

fn number_kind(kind: NumberKind) -> u8
    ensures { result ≡ kind_number kind }
{
    match kind {
        NumberKind::LargePositive => 0,
        NumberKind::LargeNegative => 1,
        NumberKind::Float => 2,
    }
}

fn put_number(out: &mut Vec<u8>, kind: NumberKind, text: &[u8]) -> Result<(), OutOfMemory>
    ensures { OnOk result (out.new.items ≡ out.old.items ++ 8 ∷ kept_number.spell (kind, text.now)) }
{
    out.push(8)?;
    out.push(number_kind(kind))?;
    put_text(out, text)
}

/// What stands before the elements of an array.
fn put_array(out: &mut Vec<u8>, elements: &Literals) -> Result<(), OutOfMemory>
    ensures { OnOk result (out.new.items ≡ out.old.items ++ 4 ∷ to_be_bytes w32 (count_of (literals_of elements.now))) }
{
    out.push(4)?;
    put_count(out, elements.count())?;
    Ok(())
}

fn put_tagged(out: &mut Vec<u8>, tag: u8, text: &[u8]) -> Result<(), OutOfMemory>
    ensures { OnOk result (out.new.items ≡ out.old.items ++ tag ∷ text_format.spell text.now) }
{
    out.push(tag)?;
    put_text(out, text)
}

#[cycle(put)]
fn put_literal(out: &mut Vec<u8>, literal: &Literal) -> Result<(), OutOfMemory>
    ensures { OnOk result (out.new.items ≡ out.old.items ++ literal_bytes (literal_of literal.now)) }
{
    match literal {
        Literal::Small(number) => {
            out.push(0)?;
            out.extend_from_slice(&number.to_be_bytes())?;
            Ok(())
        }
        Literal::Character(byte) => {
            out.push(1)?;
            out.push(*byte)?;
            Ok(())
        }
        Literal::Str(text) => put_tagged(out, 2, text.bytes()),
        Literal::Symbol(text) => put_tagged(out, 3, text.bytes()),
        Literal::Array(elements) => {
            put_array(out, elements)?;
            put_literals(out, elements)
        }
        Literal::True => Ok(out.push(5)?),
        Literal::False => Ok(out.push(6)?),
        Literal::Nil => Ok(out.push(7)?),
        Literal::Number(kind, text) => put_number(out, *kind, text.bytes()),
    }
}

#[cycle(put)]
fn put_literals(out: &mut Vec<u8>, literals: &Literals) -> Result<(), OutOfMemory>
    ensures { OnOk result (out.new.items ≡ out.old.items ++ literals_bytes (literals_of literals.now)) }
{
    for literal in &literals.items {
        put_literal(out, literal)?;
    }
    Ok(())
}

fn put_entry(out: &mut Vec<u8>, entry: &Entry) -> Result<(), OutOfMemory>
    ensures { OnOk result (out.new.items ≡ out.old.items ++ entry_bytes (entry_of entry.now)) }
{
    match entry {
        Entry::Const(literal) => put_literal(out, literal),
        Entry::ClassVar(class, name) => {
            put_tagged(out, 16, class.bytes())?;
            put_text(out, name.bytes())
        }
        Entry::Outer(name) => put_tagged(out, 17, name.bytes()),
        Entry::Owner(class, side) => {
            put_tagged(out, 18, class.bytes())?;
            put_side(out, *side)
        }
        Entry::Extension(number) => {
            out.push(19)?;
            put_word32(out, *number)
        }
    }
}

// ---- methods

fn put_frame(out: &mut Vec<u8>, frame: &Frame) -> Result<(), OutOfMemory>
    ensures { OnOk result (out.new.items ≡ out.old.items ++ frame_format.spell (entries_of frame.now)) }
{
    put_count(out, frame.items.len())?;
    for entry in &frame.items {
        put_entry(out, entry)?;
    }
    Ok(())
}

fn put_numbers(out: &mut Vec<u8>, code: &Code) -> Result<(), OutOfMemory>
    ensures { OnOk result (out.new.items ≡ out.old.items ++ code.now.flag ∷ code.now.arguments ∷ code.now.primitive ∷ code.now.temporaries ∷ []) }
{
    out.push(code.flag)?;
    out.push(code.arguments)?;
    out.push(code.primitive)?;
    out.push(code.temporaries)?;
    Ok(())
}

fn put_flag(out: &mut Vec<u8>, flag: bool) -> Result<(), OutOfMemory>
    ensures { OnOk result (out.new.items ≡ out.old.items ++ flag_format.spell flag) }
{
    out.push(u8::from(flag))?;
    Ok(())
}

fn put_source(out: &mut Vec<u8>, from_kernel: bool) -> Result<(), OutOfMemory>
    ensures { OnOk result (out.new.items ≡ out.old.items ++ source.spell from_kernel) }
{
    if from_kernel {
        out.push(0)?;
    } else {
        out.push(1)?;
    }
    Ok(())
}

#[tactic(auto, unfolding(crate::specs::Methods::code))]
fn put_code(out: &mut Vec<u8>, code: &Code) -> Result<(), OutOfMemory>
    ensures { OnOk result (out.new.items ≡ out.old.items ++ code_format.spell (code_of code.now)) }
{
    put_numbers(out, code)?;
    put_flag(out, code.large)?;
    put_frame(out, &code.literals)?;
    put_text(out, code.bytes.bytes())
}

pub(crate) fn put_texts(out: &mut Vec<u8>, one: &Text, other: &Text) -> Result<(), OutOfMemory>
    ensures { OnOk result (out.new.items ≡ out.old.items ++ (text_format.spell one.now ++ text_format.spell other.now)) }
{
    put_text(out, one.bytes())?;
    put_text(out, other.bytes())
}

fn put_range(out: &mut Vec<u8>, position: u64, length: u64) -> Result<(), OutOfMemory>
    ensures { OnOk result (out.new.items ≡ out.old.items ++ (word64.spell position ++ word64.spell length)) }
{
    put_word64(out, position)?;
    put_word64(out, length)
}

fn put_method_heading(out: &mut Vec<u8>, heading: &MethodHeading) -> Result<(), OutOfMemory>
    ensures { OnOk result (out.new.items ≡ out.old.items ++ (method_heading_format None).spell heading.now) }
{
    put_texts(out, &heading.selector, &heading.category)?;
    put_source(out, heading.from_kernel)?;
    put_range(out, heading.position, heading.length)?;
    Ok(())
}

/// Adds a method: what an image has of it, and its code.
#[tactic(auto, unfolding(crate::specs::Methods::method))]
pub fn put_method(
    out: &mut Vec<u8>,
    heading: &MethodHeading,
    code: &Code,
) -> Result<(), OutOfMemory>
    ensures { OnOk result (out.new.items ≡ out.old.items ++ (method_format None).spell (record { heading = heading.now; code = code_of code.now })) }
{
    put_method_heading(out, heading)?;
    put_code(out, code)
}

fn put_methods(out: &mut Vec<u8>, methods: &[ImageMethod]) -> Result<(), OutOfMemory>
    ensures { OnOk result (out.new.items ≡ out.old.items ++ methods_format.spell (methods_of methods.now)) }
{
    put_count(out, methods.len())?;
    for method in methods {
        put_method(out, &method.heading, method.code.code())?;
    }
    Ok(())
}

// ---- classes

pub(crate) fn kind_number(kind: Kind) -> u8
    ensures { result ≡ class_kind_number kind }
{
    match kind {
        Kind::Plain => 0,
        Kind::Pointers => 1,
        Kind::Bytes => 2,
        Kind::Words => 3,
    }
}

pub(crate) fn put_names(out: &mut Vec<u8>, names: &Names) -> Result<(), OutOfMemory>
    ensures { OnOk result (out.new.items ≡ out.old.items ++ (names_format 0 None).spell names.now) }
{
    put_count(out, names.count())?;
    for i in 0..names.count() {
        put_text(out, names.at(i).bytes())?;
    }
    Ok(())
}

pub(crate) fn put_both_names(
    out: &mut Vec<u8>,
    one: &Names,
    other: &Names,
) -> Result<(), OutOfMemory>
    ensures { OnOk result (out.new.items ≡ out.old.items ++ ((names_format 0 None).spell one.now ++ (names_format 0 None).spell other.now)) }
{
    put_names(out, one)?;
    put_names(out, other)
}

fn put_variables(out: &mut Vec<u8>, variables: &ClassVariables) -> Result<(), OutOfMemory>
    ensures { OnOk result (out.new.items ≡ out.old.items ++ (variables_format None).spell variables.now) }
{
    put_both_names(out, &variables.instance, &variables.class)?;
    put_both_names(out, &variables.pools, &variables.class_side)?;
    Ok(())
}

/// Adds what an image has of a class beside its methods, which stand behind it: those of instances, then those of the class.
pub fn put_class_heading(out: &mut Vec<u8>, heading: &ClassHeading) -> Result<(), OutOfMemory>
    ensures { OnOk result (out.new.items ≡ out.old.items ++ (heading_format None).spell heading.now) }
{
    put_texts(out, &heading.name, &heading.superclass)?;
    out.push(kind_number(heading.kind))?;
    put_variables(out, &heading.variables)?;
    put_texts(out, &heading.category, &heading.comment)?;
    Ok(())
}

#[tactic(auto, unfolding(crate::specs::Classes::class))]
fn put_class(out: &mut Vec<u8>, class: &ImageClass) -> Result<(), OutOfMemory>
    ensures { OnOk result (out.new.items ≡ out.old.items ++ (class_format None).spell (class_of class.now)) }
{
    put_class_heading(out, &class.heading)?;
    put_methods(out, &class.instance_methods)?;
    put_methods(out, &class.class_methods)
}

pub(crate) fn put_classes(out: &mut Vec<u8>, classes: &[ImageClass]) -> Result<(), OutOfMemory>
    ensures { OnOk result (out.new.items ≡ out.old.items ++ classes_format.spell (classes_of classes.now)) }
{
    put_count(out, classes.len())?;
    for class in classes {
        put_class(out, class)?;
    }
    Ok(())
}

// ---- the change set and the versions

fn noted_kind_number(kind: NotedKind) -> u8
    ensures { result ≡ noted_kind_number kind }
{
    match kind {
        NotedKind::Define => 0,
        NotedKind::ClassVars => 1,
        NotedKind::Comment => 2,
        NotedKind::Method => 3,
        NotedKind::RemoveMethod => 4,
        NotedKind::Classify => 5,
        NotedKind::RemoveClass => 6,
    }
}

/// A class, a side and a selector.
fn put_name(out: &mut Vec<u8>, class: &Text, side: Side, selector: &Text) -> Result<(), OutOfMemory>
    ensures { OnOk result (out.new.items ≡ out.old.items ++ (text_format.spell class.now ++ (side_format.spell side ++ text_format.spell selector.now))) }
{
    put_text(out, class.bytes())?;
    put_side(out, side)?;
    put_text(out, selector.bytes())
}

/// Adds a member of the change set.
pub fn put_noted(out: &mut Vec<u8>, noted: &Noted) -> Result<(), OutOfMemory>
    ensures { OnOk result (out.new.items ≡ out.old.items ++ (noted_format None).spell noted.now) }
{
    put_word64(out, noted.at)?;
    out.push(noted_kind_number(noted.kind))?;
    put_name(out, &noted.class_name, noted.side, &noted.selector)?;
    Ok(())
}

fn put_change_set(out: &mut Vec<u8>, set: &[Noted]) -> Result<(), OutOfMemory>
    ensures { OnOk result (out.new.items ≡ out.old.items ++ change_set.spell set.now) }
{
    put_count(out, set.len())?;
    for member in set {
        put_noted(out, member)?;
    }
    Ok(())
}

fn put_places(out: &mut Vec<u8>, places: &[u64]) -> Result<(), OutOfMemory>
    ensures bytes { OnOk result (out.new.items ≡ out.old.items ++ places_format.spell places.now) }
    ensures short { OnOk result (length places.now < 2 ^ 32) }
{
    put_count(out, places.len())?;
    for place in places {
        put_word64(out, *place)?;
    }
    Ok(())
}

/// Adds the versions of a method. So many as the format couldn't count are answered as want of memory.
#[tactic(auto, unfolding(crate::specs::History::versions))]
pub fn put_versions(out: &mut Vec<u8>, versions: &MethodVersions) -> Result<(), OutOfMemory>
    ensures bytes { OnOk result (out.new.items ≡ out.old.items ++ (versions_format None).spell (versions_of versions.now)) }
    ensures short { OnOk result (length versions.now.places.items < 2 ^ 32) }
{
    put_name(out, &versions.class_name, versions.side, &versions.selector)?;
    put_places(out, &versions.places)
}

fn put_all_versions(out: &mut Vec<u8>, all: &[MethodVersions]) -> Result<(), OutOfMemory>
    ensures { OnOk result (out.new.items ≡ out.old.items ++ all_versions.spell (all_versions_of all.now)) }
{
    put_count(out, all.len())?;
    for versions in all {
        put_versions(out, versions)?;
    }
    Ok(())
}

fn put_lists(out: &mut Vec<u8>, image: &Image) -> Result<(), OutOfMemory>
    ensures { OnOk result (out.new.items ≡ out.old.items
        ++ (classes_format.spell (view_of image.now).classes ++ (change_set.spell (view_of image.now).change_set ++ all_versions.spell (view_of image.now).versions))) }
{
    put_classes(out, &image.classes)?;
    put_change_set(out, &image.change_set)?;
    put_all_versions(out, &image.versions)
}

// ---- images

/// Adds what stands before the lists of an image: the bytes `S80I`, the number of the format, and how many changes there are.
pub fn put_head(out: &mut Vec<u8>, count: u64) -> Result<(), OutOfMemory>
    ensures { OnOk result (out.new.items ≡ out.old.items ++ head_bytes count) }
{
    out.extend_from_slice(b"S80I\x01")?;
    put_word64(out, count)
}

/// The one spelling of an image, whose bytes `decode_image` reads again.
#[tactic(auto, unfolding(crate::specs::Image::contents, crate::specs::Image::image_format))]
pub fn encode_image(alloc: Global, image: &Image) -> Result<Text, OutOfMemory>
    ensures { IfOk result (λ text. text ≡ image_bytes (view_of image.now)) }
{
    let mut out = Vec::new(alloc);
    put_head(&mut out, image.count)?;
    put_lists(&mut out, image)?;
    Ok(Text::from_vec(out))
}
