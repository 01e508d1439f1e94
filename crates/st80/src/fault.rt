// What failed of the folder, in words.
use s80_base::Call;
use s80_disk::{Failure, FileId};
use std::io::ErrorKind;

/// What failed.
pub(crate) fn subject(failure: &Failure) -> &'static str {
    match failure.file {
        None => "the folder",
        Some(_) if is_no_folder(failure) => "the folder",
        Some(FileId::Mark) => "mark",
        Some(FileId::Log0) => "log0",
        Some(FileId::Log1) => "log1",
        Some(FileId::Image0) => "image0",
        Some(FileId::Image1) => "image1",
    }
}

/// How it failed, in front of why.
pub(crate) fn predicate(failure: &Failure) -> &'static str {
    match failure.call {
        Call::Attach => unopened(failure),
        Call::Length | Call::Read | Call::Take => "can't be read",
        Call::Write | Call::Put => "can't be written",
        Call::Cut => "can't be cut",
        Call::Sync => "can't be put on the disk",
    }
}

/// A file stands in the folder's place: it was opened as the folder, but has no files in it.
fn is_no_folder(failure: &Failure) -> bool {
    failure.call == Call::Attach && failure.error.kind() == ErrorKind::NotADirectory
}

fn unopened(failure: &Failure) -> &'static str {
    match (failure.error.kind(), failure.file) {
        (ErrorKind::NotFound, None) => "isn't there, mkdir makes it",
        (ErrorKind::NotFound, Some(_)) => "isn't there and can't be made",
        (ErrorKind::NotADirectory, None) => "isn't there, a file stands on the way to it",
        (ErrorKind::NotADirectory, Some(_)) => "isn't one, a file stands there",
        _ => "can't be opened",
    }
}
