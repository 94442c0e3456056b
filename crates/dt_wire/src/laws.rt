//! Laws of bytes and forms, stated over their definitions. The functions do nothing.
ghost use Rattle.dt_wire.specs.Laws.{EachTextIsReadOrBad, EachTypeHasASpelling, NoSpellingBeginsAnother, NoTextBeginsAnother, OneAnswer, OneBadPlace, OneSpelling, TextIsReadBack};

/// The bytes of one form begin those of no other, whatever stands behind them.
pub fn no_spelling_begins_another()
    ensures { NoSpellingBeginsAnother }
{}

/// Each form has one text, and each text is that of one form.
pub fn one_spelling()
    ensures { OneSpelling }
{}

/// No text begins another.
pub fn no_text_begins_another()
    ensures { NoTextBeginsAnother }
{}

/// Any bytes are the text of a form, or there is a place at which it shows that they are none.
pub fn each_text_is_read_or_bad()
    ensures { EachTextIsReadOrBad }
{}

/// That place is one.
pub fn one_bad_place()
    ensures { OneBadPlace }
{}

/// The form of every datatype has a text.
pub fn each_type_has_a_spelling()
    ensures { EachTypeHasASpelling }
{}

/// Bytes are read as one datatype or refused for one reason, as long as memory lasts.
pub fn one_answer()
    ensures { OneAnswer }
{}

/// The text of a datatype is read as that datatype, as long as memory lasts.
pub fn text_is_read_back()
    ensures { TextIsReadBack }
{}
