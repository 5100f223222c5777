//! The law of pictures.
ghost use Rattle.wax_rule.specs.PictureLines.{PicturesShow};

/// States which text a picture is. Its first line is the expression, character by character, with
/// `?` for a control character. Then each label has a line, in order: blanks, a `^` under each
/// character of its span, or one `^` if the span has none, a blank, and the label's text.
pub fn law_of_pictures()
    ensures { PicturesShow }
{}
