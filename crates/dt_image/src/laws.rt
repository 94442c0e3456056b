//! Laws of images, stated over their definitions: what a receiver relies on. The functions do nothing.
ghost use Rattle.dt_image.specs.Laws.{ImagesHaveTheirSize, FittingNumbersComeBack, EqualSizesComeBack, RestoredHasItsImage};

/// An image has the packed size of its kind, and what it stands for has the native size.
pub fn images_have_their_size()
    ensures { ImagesHaveTheirSize }
{}

/// Restoring the image of an element gives the element back wherever its number fits the external size.
pub fn fitting_numbers_come_back()
    ensures { FittingNumbersComeBack }
{}

/// Restoring the image of an element gives it back whatever its number, where the kind has one size in memory and in external32.
pub fn equal_sizes_come_back()
    ensures { EqualSizesComeBack }
{}

/// The image of what was restored is the image.
pub fn restored_has_its_image()
    ensures { RestoredHasItsImage }
{}
