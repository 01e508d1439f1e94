// The words that the program was started with.
ghost use Rattle.std.specs.Prelude.{◌≡◌, IfOk, IfErr, MatchResult, map, string_bytes};
ghost use Rattle.std.specs.IoError.{error_kind};
ghost use Rattle.std.specs.Vec.Iter.{into_iter_items};
ghost use Rattle.st80.specs.Words.{without_words};

use s80_base::{OutOfMemory, Text};
use s80_program::Status;
use std::alloc::Global;
use std::env::Args;
use std::io;
use std::io::ErrorKind;

/// The words as texts of the same bytes. Takes memory for their list alone.
fn texts_of(alloc: Global, given: Args) -> Result<Vec<Text>, OutOfMemory>
    ensures { IfOk result (λ texts. texts.items ≡ map string_bytes (into_iter_items given)) }
{
    let mut texts = Vec::new(alloc);
    for word in given {
        texts.push(Text::from_vec(word.into_bytes()))?;
    }
    Ok(texts)
}

/// How the program ends where the system gives no words: one that isn't UTF-8 is bad usage.
fn without_words(kind: ErrorKind) -> Status
    ensures { result ≡ without_words kind }
{
    match kind {
        ErrorKind::OutOfMemory => Status::OutOfMemory,
        _ => Status::Usage,
    }
}

/// The words that the system gives as texts, or how the program ends where there are none.
pub(crate) fn words_of(alloc: Global, given: io::Result<Args>) -> Result<Vec<Text>, Status>
    ensures given { IfOk given (λ args. MatchResult result
        (λ words. words.items ≡ map string_bytes (into_iter_items args))
        (λ ended. ended ≡ Status.OutOfMemory)) }
    ensures not_given { IfErr given (λ error. MatchResult result
        (λ words. ⊥)
        (λ ended. ended ≡ without_words (error_kind error))) }
{
    match given {
        Ok(args) => match texts_of(alloc, args) {
            Ok(words) => Ok(words),
            Err(_) => Err(Status::OutOfMemory),
        },
        Err(error) => Err(without_words(error.kind())),
    }
}
