// Whether two codes are equal.
ghost use Rattle.std.specs.Prelude.{◌≡◌};
ghost use Rattle.s80_code.specs.Entries.{entries_of, entry_of};
ghost use Rattle.s80_image.specs.Methods.{code_of};
ghost use Rattle.s80_snapshot.specs.SameCode.{same_code, same_entries, same_entry, same_header};

use s80_code::{Code, Entry, Frame};

/// Whether two codes are equal, wherever their literals lie in memory.
pub(crate) fn same_code(one: &Code, other: &Code) -> bool
    ensures { result ≡ same_code (code_of one.now) (code_of other.now) }
{
    same_header(one, other)
        && one.bytes.bytes() == other.bytes.bytes()
        && same_entries(&one.literals, &other.literals)
}

fn same_header(one: &Code, other: &Code) -> bool
    ensures { result ≡ same_header (code_of one.now) (code_of other.now) }
{
    one.flag == other.flag
        && one.arguments == other.arguments
        && one.primitive == other.primitive
        && one.temporaries == other.temporaries
        && one.large == other.large
}

fn same_entries(one: &Frame, other: &Frame) -> bool
    ensures { result ≡ same_entries (entries_of one.now) (entries_of other.now) }
{
    let count = one.count();
    if count != other.count() {
        return false;
    }
    for i in 0..count {
        if !same_entry(one.at(i), other.at(i)) {
            return false;
        }
    }
    true
}

fn same_entry(one: &Entry, other: &Entry) -> bool
    ensures { result ≡ same_entry (entry_of one.now) (entry_of other.now) }
{
    match one {
        Entry::Const(a) => matches!(other, Entry::Const(b) if a.equals(b)),
        Entry::ClassVar(class, a) => {
            matches!(other, Entry::ClassVar(other, b) if class.bytes() == other.bytes() && a.bytes() == b.bytes())
        }
        Entry::Outer(a) => matches!(other, Entry::Outer(b) if a.bytes() == b.bytes()),
        Entry::Owner(class, a) => {
            matches!(other, Entry::Owner(other, b) if class.bytes() == other.bytes() && *a == *b)
        }
        Entry::Extension(a) => matches!(other, Entry::Extension(b) if *a == *b),
    }
}
