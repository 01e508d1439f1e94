// Words that name a side of a class.
ghost use Rattle.std.specs.Prelude.{◌≡◌, IfOk};
ghost use Rattle.s80_model.specs.Told.{side_named};

use s80_base::{OutOfMemory, Side, Text};
use s80_form::is_name;
use std::alloc::Global;

/// The class and the side that a word names: a name, with ` class` behind it for the class side.
pub fn side_named(alloc: Global, spec: &Text) -> Result<Option<(Text, Side)>, OutOfMemory>
    ensures { IfOk result (λ named. named ≡ side_named spec.now) }
{
    let bytes = spec.bytes();
    if is_name(bytes) {
        return Ok(Some((spec.copy(alloc)?, Side::Instance)));
    }
    match bytes.strip_suffix(b" class".as_slice()) {
        Some(name) if is_name(name) => Ok(Some((Text::from_bytes(alloc, name)?, Side::Class))),
        _ => Ok(None),
    }
}
