//! Laws of the grammar.

ghost use Rattle.std.specs.Prelude.{◌≡◌, ◌↔◌, ℕ, List, Some};
ghost use Rattle.far_text.specs.declared.text.TheConstants.{LONGEST_TEXT};
ghost use Rattle.far_text.specs.declared.command.TheConstants.{MOST_CHOSEN, LOG_NAMES};
ghost use Rattle.far_text.specs.declared.hex_word.TheConstants.{LONGEST_LINE, LONGEST_BYTES};
ghost use Rattle.far_text.specs.Command.{Entry};
ghost use Rattle.far_text.specs.Grammar.{entry_of};
ghost use Rattle.far_text.specs.Says.{Says};
ghost use Rattle.far_text.specs.TraceText.{TextsAreRead, FirstBadLines, CutsJoin};
ghost use Rattle.far_text.specs.SplitText.{SplitsAreRead, FirstUnsplitLines, SplitsAreTraces, ThreadsAre, ThreadsRunTheirOwn, ThreadsShareNone};

/// Words are read as a heap, a device or a command exactly where they say it, and a text as nothing, or a heap, perhaps its
/// device, and commands, exactly where its lines say so: all its lines, in order, comments and empty lines passed over. The number that is refused is
/// that of the first line that says nothing, from 1; 0 where the text is too long. Lines joined by newlines are the text,
/// and words joined by spaces the line.
pub fn grammar_is_said()
    ensures words { (words : List (List ℕ)) (e : Entry) → Says words e ↔ (entry_of words ≡ Some e) }
    ensures texts { TextsAreRead }
    ensures bad { FirstBadLines }
    ensures cuts { CutsJoin }
{}

/// A text has at most 1,048,576 bytes, a line 16,384, its newline not counted, and what a word in hex spells 8,192. A step
/// chooses at most 64 logs, and those of a script are below 256.
pub fn limits_are()
    ensures text { LONGEST_TEXT ≡ 1048576 }
    ensures line { LONGEST_LINE ≡ 16384 }
    ensures bytes { LONGEST_BYTES ≡ 8192 }
    ensures chosen { MOST_CHOSEN ≡ 64 }
    ensures logs { LOG_NAMES ≡ 256 }
{}

/// A text is split among threads exactly where each line after those of the heap and of its device says a command that one of
/// them runs: a mutator's of this heap, but for its `where` and `epoch`; of the book's the
/// inquiries, and of the evacuator's the rounds. Each command stands beside the number of its line; without those they are what
/// the text says as a trace. The number that is refused is that of the first other line, from 1; 0 where the text is too long.
/// Of all commands a mutator's thread has exactly those of this mutator, in order, and the book's exactly the book's; a command is one thread's.
pub fn splitting_is_said()
    ensures texts { SplitsAreRead }
    ensures bad { FirstUnsplitLines }
    ensures traces { SplitsAreTraces }
    ensures lines { ThreadsRunTheirOwn }
    ensures threads { ThreadsShareNone }
    ensures whole { ThreadsAre }
{}
