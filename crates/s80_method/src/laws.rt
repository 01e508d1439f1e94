// Laws of shapes.
ghost use Rattle.std.specs.Prelude.{◌≡◌, length};
ghost use Rattle.s80_base.specs.declared.names.Side.TheVariants.{Instance, Class};
ghost use Rattle.s80_class.specs.Classes.{Name, Classes, inherited_of};
ghost use Rattle.s80_method.specs.Shape.{shape_of};

/// A shape has as many instance variables as the class has with all that it inherits.
pub fn shapes_have_as_many_variables()
    ensures instance { (classes : Classes) (name : Name) → length (shape_of classes name Instance).inst_vars ≡ (inherited_of classes name).inst_vars }
    ensures class { (classes : Classes) (name : Name) → length (shape_of classes name Class).inst_vars ≡ (inherited_of classes name).class_side_vars }
{}
