// Methods, classes and whole images, whose codes are verified as they are read.
ghost use Rattle.std.specs.Prelude.{◌≡◌, ◌⊎◌, [], nat_le, option_copied, IfOk};
ghost use Rattle.s80_image.specs.Answers.{Answers, AreVerified, IsRead, class_met, class_met_behind, classes_met, contents_met, image_met, members_met, method_met, method_met_behind, methods_met, placed_fault};
ghost use Rattle.s80_image.specs.Format.{Gives, members, number_where, word32};
ghost use Rattle.s80_image.specs.Methods.{method, method_behind, method_of, methods, methods_of};
ghost use Rattle.s80_image.specs.Classes.{class, class_behind, class_of, classes, classes_of};
ghost use Rattle.s80_image.specs.Image.{HasLawfulFields, ImageView, contents, decoded, exactly, image_bytes, image_format, signature, view_of, whole};

use crate::class_parts::{heading, last_name};
use crate::fault::{ImageFault, ReadError};
use crate::fields::{byte, unlawful, word32, word64};
use crate::history_parts::{all_versions, change_set};
use crate::image::{Image, ImageClass, ImageMethod};
use crate::method_parts::{ReadMethod, last_selector, method};
use s80_base::Text;
use s80_verify::verify;
use std::alloc::Global;

/// A method's code isn't verified.
fn unverified(alloc: Global, class: &Text, selector: Text) -> ImageFault
    ensures { (result ≡ ImageFault.Memory) ⊎ (result ≡ ImageFault.Unverified class.now selector) }
{
    match class.copy(alloc) {
        Ok(class) => ImageFault::Unverified(class, selector),
        Err(_) => ImageFault::Memory,
    }
}

/// A method of this class behind another one in the order of selectors, with its code verified.
fn verified_method<'b>(
    alloc: Global,
    class: &Text,
    last: Option<&Text>,
    bytes: &'b [u8],
) -> Result<(ImageMethod, &'b [u8]), ImageFault>
    ensures { Answers (λ x. (method_of x.0, x.1.now)) result ((method (option_copied last.entry)).read bytes.now) (method_met class.now (option_copied last.entry) bytes.now) }
{
    let (method, rest) = method(alloc, last, bytes)?;
    let ReadMethod { heading, code } = method;
    match verify(code) {
        Ok(code) => Ok((ImageMethod { heading, code }, rest)),
        Err(_) => Err(unverified(alloc, class, heading.selector)),
    }
}

fn methods_from<'b>(
    alloc: Global,
    class: &Text,
    count: u32,
    bytes: &'b [u8],
) -> Result<(Vec<ImageMethod>, &'b [u8]), ImageFault>
    ensures { Answers (λ x. (methods_of x.0.items, x.1.now)) result (members method_behind [] count bytes.now) (members_met method_behind (method_met_behind class.now) [] count bytes.now) }
{
    let mut methods = Vec::new(alloc);
    let mut rest = bytes;
    for _ in 0..count {
        let (method, after) = verified_method(alloc, class, last_selector(&methods), rest)?;
        methods.push(method)?;
        rest = after;
    }
    Ok((methods, rest))
}

/// How many members a list has: at most so many.
fn count_to(most: u32, bytes: &[u8]) -> Result<(u32, &[u8]), ReadError>
    ensures { Gives (λ x. (x.0, x.1.now)) result ((number_where (λ n. nat_le n most) word32).read bytes.now) }
{
    let (count, rest) = word32(bytes)?;
    if count > most {
        return Err(unlawful(bytes, u64::from(count)));
    }
    Ok((count, rest))
}

/// The methods of one side of a class.
fn methods<'b>(
    alloc: Global,
    class: &Text,
    bytes: &'b [u8],
) -> Result<(Vec<ImageMethod>, &'b [u8]), ImageFault>
    ensures { Answers (λ x. (methods_of x.0.items, x.1.now)) result (methods.read bytes.now) (methods_met class.now bytes.now) }
{
    let (count, rest) = count_to(16_384, bytes)?;
    methods_from(alloc, class, count, rest)
}

/// A class behind another one in the order of names.
fn class<'b>(
    alloc: Global,
    last: Option<&Text>,
    bytes: &'b [u8],
) -> Result<(ImageClass, &'b [u8]), ImageFault>
    ensures { Answers (λ x. (class_of x.0, x.1.now)) result ((class (option_copied last.entry)).read bytes.now) (class_met (option_copied last.entry) bytes.now) }
{
    let (heading, rest) = heading(alloc, last, bytes)?;
    let (instance_methods, rest) = methods(alloc, &heading.name, rest)?;
    let (class_methods, rest) = methods(alloc, &heading.name, rest)?;
    let class = ImageClass {
        heading,
        instance_methods,
        class_methods,
    };
    Ok((class, rest))
}

fn classes_from(
    alloc: Global,
    count: u32,
    bytes: &[u8],
) -> Result<(Vec<ImageClass>, &[u8]), ImageFault>
    ensures { Answers (λ x. (classes_of x.0.items, x.1.now)) result (members class_behind [] count bytes.now) (members_met class_behind class_met_behind [] count bytes.now) }
{
    let mut classes = Vec::new(alloc);
    let mut rest = bytes;
    for _ in 0..count {
        let (class, after) = class(alloc, last_name(&classes), rest)?;
        classes.push(class)?;
        rest = after;
    }
    Ok((classes, rest))
}

fn classes(alloc: Global, bytes: &[u8]) -> Result<(Vec<ImageClass>, &[u8]), ImageFault>
    ensures { Answers (λ x. (classes_of x.0.items, x.1.now)) result (classes.read bytes.now) (classes_met bytes.now) }
{
    let (count, rest) = count_to(65_536, bytes)?;
    classes_from(alloc, count, rest)
}

/// What stands behind the first bytes and the number of the format.
fn contents(alloc: Global, bytes: &[u8]) -> Result<(Image, &[u8]), ImageFault>
    ensures { Answers (λ x. (view_of x.0, x.1.now)) result (contents.read bytes.now) (contents_met bytes.now) }
{
    let (count, rest) = word64(bytes)?;
    let (classes, rest) = classes(alloc, rest)?;
    let (change_set, rest) = change_set(alloc, rest)?;
    let (versions, rest) = all_versions(alloc, rest)?;
    let image = Image {
        count,
        classes,
        change_set,
        versions,
    };
    Ok((image, rest))
}

/// What stands behind a byte that is given.
fn exactly(given: u8, bytes: &[u8]) -> Result<&[u8], ReadError>
    ensures { Gives (λ x. x.now) result (exactly given bytes.now) }
{
    let (value, rest) = byte(bytes)?;
    if value != given {
        return Err(unlawful(bytes, u64::from(value)));
    }
    Ok(rest)
}

/// What stands behind `S80I` and the number of the format.
fn signature(bytes: &[u8]) -> Result<&[u8], ReadError>
    ensures { Gives (λ x. x.now) result (signature bytes.now) }
{
    let rest = exactly(b'S', bytes)?;
    let rest = exactly(b'8', rest)?;
    let rest = exactly(b'0', rest)?;
    let rest = exactly(b'I', rest)?;
    exactly(1, rest)
}

/// An image from the front of bytes, and what stands behind it.
fn front(alloc: Global, bytes: &[u8]) -> Result<(Image, &[u8]), ImageFault>
    ensures { Answers (λ x. (view_of x.0, x.1.now)) result (image_format.read bytes.now) (image_met bytes.now) }
{
    let rest = signature(bytes)?;
    contents(alloc, rest)
}

/// An image that takes all of the bytes.
fn whole(alloc: Global, bytes: &[u8]) -> Result<Image, ImageFault>
    ensures { Answers view_of result (whole bytes.now) (image_met bytes.now) }
{
    let (image, rest) = front(alloc, bytes)?;
    if !rest.is_empty() {
        return Err(ImageFault::Field(rest.len() as u64, rest.len() as u64));
    }
    Ok(image)
}

/// A fault by the place of its field, and not by how many bytes are left there.
fn placed(size: u64, fault: ImageFault) -> ImageFault
    ensures { result ≡ placed_fault size fault }
{
    match fault {
        ImageFault::Memory => ImageFault::Memory,
        ImageFault::Short => ImageFault::Short,
        ImageFault::Field(left, value) => ImageFault::Field(size.saturating_sub(left), value),
        ImageFault::Unverified(class, selector) => ImageFault::Unverified(class, selector),
    }
}

/// The image that bytes spell, each of whose fields is lawful by itself and each of whose codes is verified.
pub(crate) fn decode_fields(alloc: Global, bytes: &[u8]) -> Result<Image, ImageFault>
    // What is answered, in the order of the bytes: the image, the first unlawful field, or the first code that isn't verified.
    ensures exact { Answers view_of result (decoded bytes.now) (image_met bytes.now) }
    // What is read is lawful, and spelled so.
    ensures found { IfOk result (λ image. HasLawfulFields (view_of image) × (bytes.now ≡ image_bytes (view_of image))) }
    // What is spelled so is read.
    ensures only { (image : ImageView) → HasLawfulFields image → AreVerified image → bytes.now ≡ image_bytes image → IsRead image result }
{
    match whole(alloc, bytes) {
        Ok(image) => Ok(image),
        Err(fault) => Err(placed(bytes.len() as u64, fault)),
    }
}
