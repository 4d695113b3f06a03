//! Laws of the definitions: the functions do nothing.
ghost use Rattle.script_lines.specs.Laws.{GoesFirst, IsLast};

/// A line and its line feed are the first line of a text, whatever follows.
pub fn first_lines_go_first()
    ensures { GoesFirst }
{}

/// Bytes without a line feed are one line, unless there are none.
pub fn last_lines_end()
    ensures { IsLast }
{}
