// Laws of the words that the table's contracts use, for the crates above.
ghost use Rattle.std.specs.Prelude.{◌≡◌, false, List, Option, Some};
ghost use Rattle.std.specs.Str.{bytes_eq};
ghost use Rattle.s80_class.specs.Classes.{Name, ClassRow, Classes, IsLine, lineage, is_under, descends};

/// A class has one line.
pub fn one_line()
    ensures { (classes : Classes) (name : Option Name) (es others : List (Name × ClassRow))
        → IsLine classes name es → IsLine classes name others → es ≡ others }
{}

/// A line is read whole: none has more classes than there are.
pub fn lineage_is_the_line()
    ensures { (classes : Classes) (name : Name) (es : List (Name × ClassRow)) → IsLine classes (Some name) es → lineage classes name ≡ es }
{}

/// A name that isn't another, and doesn't descend from it, isn't under it.
pub fn apart_is_not_under()
    ensures { (classes : Classes) (name other : Name) → bytes_eq name other ≡ false → descends classes name other ≡ false
        → is_under classes name other ≡ false }
{}
