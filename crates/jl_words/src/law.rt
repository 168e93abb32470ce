//! Laws of the first fault of a command line.

ghost use Rattle.jl_words.specs.Laws.{FirstFault, LineBegins, NoLine, NoLineBegins};

/// Says that words that have a fault are no command line. There is nothing to run.
pub fn no_line()
    ensures { NoLine }
{}

/// Says that no command line begins with the words that tell a fault: those up to the one at its place, and all where
/// it names an option alone. What is missing is not told by the words that are there. There is nothing to run.
pub fn no_line_begins()
    ensures { NoLineBegins }
{}

/// Says that a line that is refused is refused for its first fault: the words before the place where it is met begin a
/// command, and no command line begins with the word there. What is missing is met behind the last word, and an option
/// that stands twice at its second use. There is nothing to run.
pub fn first_fault()
    ensures { FirstFault }
{}

/// Says that words that begin a command begin a command line, unless there are so many that the two words that may
/// still be missing are too many. There is nothing to run.
pub fn line_begins()
    ensures { LineBegins }
{}
