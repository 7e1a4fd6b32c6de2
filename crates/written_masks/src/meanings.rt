//! The law.
ghost use Rattle.written_masks.specs.TextMeanings.{TextsMeanTheirPictures, TextsMeanTheirPicturesToOthers};

use cif_foreign::meanings_stay;

/// A law, with nothing to run: the text of a picture whose numbers fit into it means the picture.
pub fn texts_mean_their_pictures()
    ensures { TextsMeanTheirPictures }
{}

/// A law, with nothing to run: the text of such a picture means its boxes also to the reader of the texts of other
/// tools.
pub fn texts_mean_their_pictures_to_others()
    ensures { TextsMeanTheirPicturesToOthers }
{
    texts_mean_their_pictures();
    meanings_stay()
}
