// Codes and the headings of methods.
ghost use Rattle.std.specs.Prelude.{◌≡◌, ◌&&◌, [], option_map, option_copied};
ghost use Rattle.s80_code.specs.Entries.{entries_of};
ghost use Rattle.s80_image.specs.Format.{Gives, members, text_where};
ghost use Rattle.s80_image.specs.Parts.{is_above, is_selector, last_of};
ghost use Rattle.s80_image.specs.Literals.{entry};
ghost use Rattle.s80_image.specs.Methods.{code, code_of, frame, method, method_heading, methods_of};

use crate::fault::ReadError;
use crate::fields::{byte, text, unlawful, word32, word64};
use crate::image::{ImageMethod, MethodHeading};
use crate::literals::entry;
use crate::parts::{flag, is_above, is_selector, source};
use s80_base::Text;
use s80_code::{Code, Frame};
use std::alloc::Global;

/// A method whose code isn't verified yet.
#[derive(Drop)]
pub(crate) struct ReadMethod {
    pub heading: MethodHeading,
    pub code: Code,
}

fn entries(alloc: Global, count: u32, bytes: &[u8]) -> Result<(Frame, &[u8]), ReadError>
    ensures { Gives (λ x. (entries_of x.0, x.1.now)) result (members (λ _. entry) [] count bytes.now) }
{
    let mut frame = Frame::empty(alloc);
    let mut rest = bytes;
    for _ in 0..count {
        let (item, after) = entry(alloc, rest)?;
        frame.push(item)?;
        rest = after;
    }
    Ok((frame, rest))
}

#[tactic(auto, unfolding(crate::specs::Methods::frame))]
fn frame(alloc: Global, bytes: &[u8]) -> Result<(Frame, &[u8]), ReadError>
    ensures { Gives (λ x. (entries_of x.0, x.1.now)) result (frame.read bytes.now) }
{
    let (count, rest) = word32(bytes)?;
    entries(alloc, count, rest)
}

#[tactic(auto, unfolding(crate::specs::Methods::code))]
fn code(alloc: Global, bytes: &[u8]) -> Result<(Code, &[u8]), ReadError>
    ensures { Gives (λ x. (code_of x.0, x.1.now)) result (code.read bytes.now) }
{
    let (kind, rest) = byte(bytes)?;
    let (arguments, rest) = byte(rest)?;
    let (primitive, rest) = byte(rest)?;
    let (temporaries, rest) = byte(rest)?;
    let (large, rest) = flag(rest)?;
    let (literals, rest) = frame(alloc, rest)?;
    let (bytes, rest) = text(alloc, rest)?;
    let code = Code {
        flag: kind,
        arguments,
        primitive,
        temporaries,
        large,
        literals,
        bytes,
    };
    Ok((code, rest))
}

/// A selector above the last one.
fn selector_above<'b>(
    alloc: Global,
    last: Option<&Text>,
    bytes: &'b [u8],
) -> Result<(Text, &'b [u8]), ReadError>
    ensures { Gives (λ x. (x.0, x.1.now)) result ((text_where (λ word. is_selector word && is_above (option_copied last.entry) word)).read bytes.now) }
{
    let (word, rest) = text(alloc, bytes)?;
    let lawful = is_selector(word.bytes()) && is_above(last, word.bytes());
    if !lawful {
        return Err(unlawful(bytes, word.bytes().len() as u64));
    }
    Ok((word, rest))
}

#[tactic(auto, unfolding(crate::specs::Methods::method_heading))]
fn method_heading<'b>(
    alloc: Global,
    last: Option<&Text>,
    bytes: &'b [u8],
) -> Result<(MethodHeading, &'b [u8]), ReadError>
    ensures { Gives (λ x. (x.0, x.1.now)) result ((method_heading (option_copied last.entry)).read bytes.now) }
{
    let (selector, rest) = selector_above(alloc, last, bytes)?;
    let (category, rest) = text(alloc, rest)?;
    let (from_kernel, rest) = source(rest)?;
    let (position, rest) = word64(rest)?;
    let (length, rest) = word64(rest)?;
    let heading = MethodHeading {
        selector,
        category,
        from_kernel,
        position,
        length,
    };
    Ok((heading, rest))
}

/// A method behind another one in the order of selectors.
#[tactic(auto, unfolding(crate::specs::Methods::method))]
pub(crate) fn method<'b>(
    alloc: Global,
    last: Option<&Text>,
    bytes: &'b [u8],
) -> Result<(ReadMethod, &'b [u8]), ReadError>
    ensures { Gives (λ x. (record { heading = x.0.heading; code = code_of x.0.code }, x.1.now)) result ((method (option_copied last.entry)).read bytes.now) }
{
    let (heading, rest) = method_heading(alloc, last, bytes)?;
    let (code, rest) = code(alloc, rest)?;
    Ok((ReadMethod { heading, code }, rest))
}

/// The selector of the last method.
pub(crate) fn last_selector(methods: &[ImageMethod]) -> Option<&Text>
    ensures { option_copied result ≡ option_map (λ m. m.heading.selector) (last_of (methods_of methods.now)) }
{
    match methods.last() {
        Some(method) => Some(&method.heading.selector),
        None => None,
    }
}
