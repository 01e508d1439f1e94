// What becomes of the bytes of an image, with the log to which it belongs.
ghost use Rattle.s80_image.specs.Image.{view_of};
ghost use Rattle.s80_image.specs.Together.{IsLawfulImage};

use anyhow::Result;
use s80_apply::System;
use s80_base::Text;
use s80_image::{Image, ImageFault, ImageMethod, decode_image};
use s80_kernel::kernel_text;
use s80_snapshot::{encode_system, resume, resume_history};
use std::alloc::Global;

/// What bytes are as an image.
#[derive(Clone, Copy, Debug, PartialEq, Eq)]
pub(crate) enum Found {
    Memory,
    Short,
    Field(u64, u64),
    Unverified,
    /// A method's place holds no source.
    NoSource,
    /// A source isn't that of its method.
    OtherSource,
    /// A system and a history, whose image these bytes are.
    Same,
    /// Whose image is another.
    Other,
}

pub(crate) fn examined(alloc: Global, bytes: &[u8], log: &[u8]) -> Result<Found> {
    match decode_image(alloc, bytes) {
        Ok(image) => resumed(alloc, &image, bytes, log),
        Err(ImageFault::Memory) => Ok(Found::Memory),
        Err(ImageFault::Short) => Ok(Found::Short),
        Err(ImageFault::Field(place, value)) => Ok(Found::Field(place, value)),
        Err(ImageFault::Unverified(..)) => Ok(Found::Unverified),
    }
}

fn resumed(alloc: Global, image: &Image, bytes: &[u8], log: &[u8]) -> Result<Found>
    requires { IsLawfulImage (view_of image.now) }
{
    let Some(sources) = sources(alloc, image, log)? else {
        return Ok(Found::NoSource);
    };
    match resume(alloc, image, sources)? {
        Some(system) => compared(alloc, &system, image, bytes),
        None => Ok(Found::OtherSource),
    }
}

/// Whether the image of what was resumed is this one again.
fn compared(alloc: Global, system: &System, image: &Image, bytes: &[u8]) -> Result<Found>
    requires { IsLawfulImage (view_of image.now) }
{
    let history = resume_history(alloc, image)?;
    let again = encode_system(alloc, system, &history, image.count)?;
    if again.bytes() == bytes {
        Ok(Found::Same)
    } else {
        Ok(Found::Other)
    }
}

/// The sources of all methods, in the image's order. None where a method's place holds none.
fn sources(alloc: Global, image: &Image, log: &[u8]) -> Result<Option<Vec<Text>>> {
    let mut sources = Vec::new(alloc);
    for class in &image.classes {
        if !add_sources(alloc, &class.instance_methods, log, &mut sources)? {
            return Ok(None);
        }
        if !add_sources(alloc, &class.class_methods, log, &mut sources)? {
            return Ok(None);
        }
    }
    Ok(Some(sources))
}

fn add_sources(
    alloc: Global,
    methods: &[ImageMethod],
    log: &[u8],
    sources: &mut Vec<Text>,
) -> Result<bool> {
    for method in methods {
        let Some(source) = source_of(alloc, method, log)? else {
            return Ok(false);
        };
        sources.push(source)?;
    }
    Ok(true)
}

fn source_of(alloc: Global, method: &ImageMethod, log: &[u8]) -> Result<Option<Text>> {
    let heading = &method.heading;
    let text = if heading.from_kernel {
        kernel_text()
    } else {
        log
    };
    let Some(end) = heading.position.checked_add(heading.length) else {
        return Ok(None);
    };
    match text.get(heading.position as usize..end as usize) {
        Some(spelled) => unspelled(alloc, spelled),
        None => Ok(None),
    }
}

/// The text that these bytes spell with each mark doubled.
fn unspelled(alloc: Global, spelled: &[u8]) -> Result<Option<Text>> {
    let mut text = Text::empty(alloc);
    let mut rest = spelled;
    for _ in 0..spelled.len() {
        match rest {
            [] => break,
            [b'!', b'!', behind @ ..] => {
                text.append(b"!")?;
                rest = behind;
            }
            [b'!', ..] => return Ok(None),
            [byte, behind @ ..] => {
                text.append(&[*byte])?;
                rest = behind;
            }
        }
    }
    Ok(Some(text))
}
