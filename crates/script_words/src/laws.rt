//! A law of the definitions: the function does nothing.
ghost use Rattle.script_words.specs.Laws.{HasOneMeaning};

/// A text means one line at most.
pub fn lines_have_one_meaning()
    ensures { HasOneMeaning }
{}
