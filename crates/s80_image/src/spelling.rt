// How the bytes of an image are put one behind the other, as a law.
ghost use Rattle.std.specs.Prelude.{◌≡◌, ◌++◌, None};
ghost use Rattle.s80_image.specs.Classes.{ClassView, class as class_format, heading};
ghost use Rattle.s80_image.specs.History.{noted, versions};
ghost use Rattle.s80_image.specs.Image.{ImageView, image_bytes};
ghost use Rattle.s80_image.specs.Methods.{method};
ghost use Rattle.s80_image.specs.Spelling.{head_bytes, listed};

/// An image is its head and three lists, and a class its heading and two. How a member is spelled doesn't hang on those before it.
pub fn lists_are_spelled_member_by_member()
    ensures image { (image : ImageView) → image_bytes image ≡ head_bytes image.count
        ++ (listed (class_format None).spell image.classes ++ (listed (noted None).spell image.change_set ++ listed (versions None).spell image.versions)) }
    ensures class { (c : ClassView) → (class_format None).spell c
        ≡ (heading None).spell c.heading ++ (listed (method None).spell c.instance ++ listed (method None).spell c.class) }
{}
