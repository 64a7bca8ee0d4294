//! What holds of the words of any log, as contracts of functions that do nothing.

ghost use Rattle.far_log.specs.Laws.{WalksAreOne, WalksOrBad, NeverBoth, FirstBadIsOne, SpansAreListed, SpansSayVersion, ImagesAreShort, ConvertedIsOne, ConvertedIsSaid, ConvertedWalks, PointersAreRenumbered, TailEndsWalk, BadEndsWalk, BadIsFirst, BadIsRead, WordsHaveOneSpan, WordsPastHaveNone, SpansHoldBytes, SpansTakeAll, TakenIsSum};

/// The words below a tail have one list of spans, or a first bad word, never both and never two; and the list is the one
/// that the headers spell. A list of spans in either version is this list: the first word says the version, 512 words are the
/// most that the spans of a log take, and 128 the most in version 1.
pub fn walks_are_one()
    ensures one { WalksAreOne }
    ensures either { WalksOrBad }
    ensures never { NeverBoth }
    ensures first { FirstBadIsOne }
    ensures listed { SpansAreListed }
    ensures version { SpansSayVersion }
    ensures short { ImagesAreShort }
{}

/// What lies past the tail changes no list of spans, and what lies behind the first bad word mends none.
pub fn later_words_say_nothing()
    ensures tail { TailEndsWalk }
    ensures bad { BadEndsWalk }
{}

/// The word that is named is the first bad one: no words behind it could make a log of those up to it, while each earlier
/// word could still be one of a log's. And it is bad for one of three reasons, read where the spans before it end.
pub fn bad_words_are_first()
    ensures first { BadIsFirst }
    ensures read { BadIsRead }
{}

/// The converted image has the spans of the old one, with their pointers renumbered, and no two converted images of one image
/// differ below the tail. Pointer 128m + k of version 1, k below 128, is pointer 256m + k here. In numerals: the headers of an
/// image of version 1 are written anew, each with the top byte a2, and the words behind them stay; one of version 2 stays whole.
pub fn images_are_converted()
    ensures walks { ConvertedWalks }
    ensures one { ConvertedIsOne }
    ensures said { ConvertedIsSaid }
    ensures pointers { PointersAreRenumbered }
{}

/// Each word below the tail is header or data of exactly one span, and a word at or past it of none.
pub fn words_have_one_span()
    ensures below { WordsHaveOneSpan }
    ensures past { WordsPastHaveNone }
{}

/// A span stands where its header is read so, and its data words are those that its bytes pack into.
pub fn spans_hold_bytes()
    ensures { SpansHoldBytes }
{}

/// The spans that pass a test and those that don't take all bytes below the tail; what some spans take is the sum of
/// what each takes.
pub fn spans_take_all()
    ensures all { SpansTakeAll }
    ensures sum { TakenIsSum }
{}
