// Laws of the constants of an image.

ghost use Rattle.herm_translated.specs.laws.ConstantsOfImages.{ImagesHaveTheirConstants};

/// The constants of an image are the literals of the statements of its modules, each once, and nothing else.
pub fn images_have_their_constants()
    ensures constants { ImagesHaveTheirConstants }
{}
