// Laws of images, as calls.
ghost use Rattle.s80_image.specs.Image.{ImageView};
ghost use Rattle.s80_image.specs.Definable.{AreInOrder};
ghost use Rattle.s80_image.specs.Together.{IsLawfulImage, classes_by_name};

/// The classes of a lawful image are such as definitions could have made them of the kernel's.
pub fn lawful_classes_are_in_order()
    ensures { (image : ImageView) → IsLawfulImage image → AreInOrder (classes_by_name image.classes) }
{}
