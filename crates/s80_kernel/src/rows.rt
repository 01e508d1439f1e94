// The classes of the kernel.
ghost use Rattle.std.specs.Prelude.{◌≡◌, map};
ghost use Rattle.std.specs.List.{list_any};
ghost use Rattle.std.specs.Str.{bytes_eq};
ghost use Rattle.s80_kernel.specs.Rows.{is_kernel_class, kernel_rows, row_of};

/// A class of the kernel. The kinds are 0 plain, 1 with numbered objects, 2 of bytes, 3 of words of 16 bits.
#[derive(Clone, Copy, Debug)]
pub struct KernelClass {
    pub name: &'static str,
    /// Empty for Object, which has none.
    pub superclass: &'static str,
    pub kind: u8,
    /// The names of its own instance variables, parted by spaces.
    pub inst_vars: &'static str,
}

const PLAIN: u8 = 0;

const POINTERS: u8 = 1;

const BYTES: u8 = 2;

// A plain class without variables.
macro_rules! plain {
    ($name:literal, $superclass:literal) => {
        KernelClass {
            name: $name,
            superclass: $superclass,
            kind: PLAIN,
            inst_vars: "",
        }
    };
}

const ROWS: [KernelClass; 28] = [
    plain!("Object", ""),
    plain!("Behavior", "Object"),
    plain!("UndefinedObject", "Object"),
    plain!("Boolean", "Object"),
    plain!("Magnitude", "Object"),
    plain!("Collection", "Object"),
    plain!("ContextPart", "Object"),
    plain!("TextCollector", "Object"),
    plain!("SystemDictionary", "Object"),
    KernelClass {
        name: "Message",
        superclass: "Object",
        kind: PLAIN,
        inst_vars: "selector args",
    },
    plain!("Class", "Behavior"),
    plain!("Metaclass", "Behavior"),
    plain!("True", "Boolean"),
    plain!("False", "Boolean"),
    plain!("Character", "Magnitude"),
    plain!("Number", "Magnitude"),
    plain!("Integer", "Number"),
    plain!("Float", "Number"),
    plain!("SmallInteger", "Integer"),
    plain!("LargePositiveInteger", "Integer"),
    plain!("LargeNegativeInteger", "Integer"),
    plain!("SequenceableCollection", "Collection"),
    plain!("ArrayedCollection", "SequenceableCollection"),
    KernelClass {
        name: "Array",
        superclass: "ArrayedCollection",
        kind: POINTERS,
        inst_vars: "",
    },
    KernelClass {
        name: "String",
        superclass: "ArrayedCollection",
        kind: BYTES,
        inst_vars: "",
    },
    plain!("Symbol", "String"),
    plain!("MethodContext", "ContextPart"),
    plain!("BlockContext", "ContextPart"),
];

/// The classes of the kernel, each behind its superclass.
pub fn class_rows() -> &'static [KernelClass]
    ensures { map row_of result.now ≡ kernel_rows }
{
    &ROWS
}

/// Whether a class of this name is one of the kernel's.
pub fn is_kernel_class(name: &[u8]) -> bool
    ensures { result ≡ is_kernel_class name.now }
{
    has_name(class_rows(), name)
}

/// Whether a class of this name stands in some rows.
fn has_name(rows: &[KernelClass], name: &[u8]) -> bool
    ensures { result ≡ list_any (λ row. bytes_eq row.name.now name.now) rows.now }
{
    rows.iter().any(|row| row.name.as_bytes() == name)
}
