// What follows from the definitions.
ghost use Rattle.elf_image.specs.Laws.{ImageIsOne, RefusalIsOne, RefusedHasNoImage};

/// A file has one image.
pub fn image_is_one()
    ensures { ImageIsOne }
{}

/// A file that is refused has no image.
pub fn refused_has_no_image()
    ensures { RefusedHasNoImage }
{}

/// A file is refused for one cause.
pub fn refusal_is_one()
    ensures { RefusalIsOne }
{}
