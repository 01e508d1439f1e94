// The methods of the kernel: where each source stands in the text.
ghost use Rattle.std.specs.Prelude.{◌≡◌, ◌+◌, ◌≤◌, find, length, map};
ghost use Rattle.std.specs.List.{All};
ghost use Rattle.std.specs.Option.{IfSome, option_map};
ghost use Rattle.s80_kernel.specs.Text.{kernel_text};
ghost use Rattle.s80_kernel.specs.Methods.{found_method, held_place, holds_method, kernel_methods, place_of};

/// A method of a kernel's class. Its source is `length` bytes of the kernel's text from `position` on.
#[derive(Clone, Copy, Debug)]
pub struct KernelMethod {
    pub class_name: &'static str,
    pub on_class_side: bool,
    pub selector: &'static str,
    pub position: u64,
    pub length: u64,
}

// A method of a class's instances.
macro_rules! method {
    ($class_name:literal, $selector:literal, $position:literal, $length:literal) => {
        KernelMethod {
            class_name: $class_name,
            on_class_side: false,
            selector: $selector,
            position: $position,
            length: $length,
        }
    };
}

// A method of a class itself.
macro_rules! on_class {
    ($class_name:literal, $selector:literal, $position:literal, $length:literal) => {
        KernelMethod {
            class_name: $class_name,
            on_class_side: true,
            selector: $selector,
            position: $position,
            length: $length,
        }
    };
}

const METHODS: [KernelMethod; 104] = [
    method!("Object", "==", 30, 28),
    method!("Object", "=", 60, 28),
    method!("Object", "~=", 90, 34),
    method!("Object", "~~", 126, 35),
    method!("Object", "class", 163, 22),
    method!("Object", "yourself", 187, 14),
    method!("Object", "isNil", 203, 12),
    method!("Object", "notNil", 217, 12),
    method!("Object", "at:", 231, 47),
    method!("Object", "at:put:", 280, 61),
    method!("Object", "size", 343, 23),
    method!("Object", "perform:", 368, 54),
    method!("Object", "printString", 424, 28),
    method!("Object", "error:", 454, 52),
    method!("Object", "primitiveFailed", 508, 47),
    method!("Object", "subclassResponsibility", 557, 61),
    method!("Object", "halt", 620, 24),
    method!("Behavior", "new", 680, 32),
    method!("Behavior", "new:", 714, 47),
    method!("UndefinedObject", "isNil", 804, 11),
    method!("UndefinedObject", "notNil", 817, 13),
    method!("True", "&", 862, 20),
    method!("True", "|", 884, 16),
    method!("True", "not", 902, 10),
    method!("True", "and:", 914, 25),
    method!("True", "or:", 941, 16),
    method!("True", "ifTrue:", 959, 28),
    method!("True", "ifFalse:", 989, 20),
    method!("True", "ifTrue:ifFalse:", 1011, 29),
    method!("True", "ifFalse:ifTrue:", 1042, 29),
    method!("False", "&", 1104, 16),
    method!("False", "|", 1122, 20),
    method!("False", "not", 1144, 9),
    method!("False", "and:", 1155, 17),
    method!("False", "or:", 1174, 24),
    method!("False", "ifTrue:", 1200, 19),
    method!("False", "ifFalse:", 1221, 29),
    method!("False", "ifTrue:ifFalse:", 1252, 29),
    method!("False", "ifFalse:ifTrue:", 1283, 29),
    method!("Magnitude", "max:", 1349, 56),
    method!("Magnitude", "min:", 1407, 56),
    method!("Magnitude", "between:and:", 1465, 55),
    method!("Character", "value", 1557, 22),
    method!("Character", "<", 1581, 33),
    method!("Character", ">", 1616, 33),
    method!("Character", "<=", 1651, 35),
    method!("Character", ">=", 1688, 35),
    on_class!("Character", "value:", 1766, 55),
    method!("Number", "abs", 1855, 48),
    method!("Number", "negated", 1905, 17),
    method!("Number", "to:do:", 1924, 87),
    method!("Integer", "timesRepeat:", 2046, 81),
    method!("Integer", "even", 2129, 19),
    method!("Integer", "odd", 2150, 18),
    method!("SmallInteger", "+", 2208, 40),
    method!("SmallInteger", "-", 2250, 40),
    method!("SmallInteger", "<", 2292, 40),
    method!("SmallInteger", ">", 2334, 40),
    method!("SmallInteger", "<=", 2376, 41),
    method!("SmallInteger", ">=", 2419, 41),
    method!("SmallInteger", "=", 2462, 25),
    method!("SmallInteger", "~=", 2489, 25),
    method!("SmallInteger", "*", 2516, 40),
    method!("SmallInteger", "/", 2558, 41),
    method!("SmallInteger", r"\\", 2601, 42),
    method!("SmallInteger", "//", 2645, 42),
    method!("SmallInteger", "bitAnd:", 2689, 47),
    method!("SmallInteger", "bitOr:", 2738, 46),
    method!("SmallInteger", "bitXor:", 2786, 47),
    method!("SmallInteger", "bitShift:", 2835, 49),
    method!("Collection", "isEmpty", 2922, 22),
    method!("Collection", "do:", 2946, 39),
    method!("Collection", "inject:into:", 2987, 113),
    method!("Collection", "includes:", 3102, 77),
    method!("Collection", "detect:ifNone:", 3181, 98),
    method!("SequenceableCollection", "species", 3329, 19),
    method!("SequenceableCollection", "first", 3350, 17),
    method!("SequenceableCollection", "last", 3369, 24),
    method!("SequenceableCollection", "do:", 3395, 64),
    method!("SequenceableCollection", "=", 3461, 175),
    method!("SequenceableCollection", ",", 3638, 202),
    method!("SequenceableCollection", "collect:", 3842, 140),
    on_class!("ArrayedCollection", "with:", 4033, 45),
    on_class!("ArrayedCollection", "with:with:", 4080, 67),
    method!("String", "at:", 4181, 47),
    method!("String", "at:put:", 4230, 63),
    method!("String", "asSymbol", 4295, 25),
    method!("String", "asString", 4322, 14),
    method!("Symbol", "=", 4370, 22),
    method!("Symbol", "species", 4394, 15),
    method!("Symbol", "asString", 4411, 19),
    method!("BlockContext", "value", 4470, 43),
    method!("BlockContext", "value:", 4515, 46),
    method!("BlockContext", "value:value:", 4563, 55),
    method!("BlockContext", "value:value:value:", 4620, 64),
    method!("BlockContext", "whileTrue:", 4686, 57),
    method!("BlockContext", "whileFalse:", 4745, 59),
    method!("BlockContext", "whileTrue", 4806, 37),
    method!("TextCollector", "show:", 4884, 52),
    method!("TextCollector", "print:", 4938, 48),
    method!("TextCollector", "space", 4988, 21),
    method!("TextCollector", "cr", 5011, 75),
    method!("Message", "selector", 5121, 18),
    method!("Message", "arguments", 5141, 15),
];

/// The methods of the kernel, in the order of its text.
pub fn method_rows() -> &'static [KernelMethod]
    ensures rows { map held_place result.now ≡ map place_of kernel_methods }
    ensures inside { All (λ m. m.position + m.length ≤ length kernel_text) result.now }
{
    &METHODS
}

/// The kernel's method of this class, side and selector.
pub fn find_method(
    class_name: &[u8],
    on_class_side: bool,
    selector: &[u8],
) -> Option<&'static KernelMethod>
    ensures found { option_map (λ m. held_place m.now) result
        ≡ option_map place_of (found_method class_name.now on_class_side selector.now) }
    ensures inside { IfSome result (λ m. m.now.position + m.now.length ≤ length kernel_text) }
{
    method_among(method_rows(), class_name, on_class_side, selector)
}

/// The first of some rows with this class, side and selector.
fn method_among<'a>(
    rows: &'a [KernelMethod],
    class_name: &[u8],
    on_class_side: bool,
    selector: &[u8],
) -> Option<&'a KernelMethod>
    ensures { option_map (λ m. m.now) result ≡ find (λ m. holds_method class_name.now on_class_side selector.now m) rows.now }
{
    rows.iter().find(|row| {
        row.class_name.as_bytes() == class_name
            && row.on_class_side == on_class_side
            && row.selector.as_bytes() == selector
    })
}
