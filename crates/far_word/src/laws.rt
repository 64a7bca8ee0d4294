//! What holds of every word, and what the numbers are, as contracts of functions that do nothing.

ghost use Rattle.std.specs.Prelude.{◌≡◌, ℕ, ◌+◌, ◌*◌, ◌^◌};
ghost use Rattle.far_word.specs.declared.sizes.TheConstants.{LOG_WORDS, LOG_BYTES, LAST_AT, LONGEST, LEAST_LOGS, MOST_LOGS, LEAST_MUTATORS, MOST_MUTATORS, CELLS, POINTERS, JOBS, MOST_COPIERS, EPOCH_END};
ghost use Rattle.far_word.specs.declared.version.Version.TheVariants.{First, Second};
ghost use Rattle.far_word.specs.Header.{cells, len_in, ds_in, log_words, longest, pointer_in, pointers, version_in, head_word, word_by};
ghost use Rattle.far_word.specs.Mark.{field};
ghost use Rattle.far_word.specs.Laws.{MarkIsSet, MarkIsRead, MarkIsRefused, EvacIsCleared, OwnerMarksAreCleared, ViewsRest, PointersReadBack, PointersPackBack, HeadersReadBack, HeadersPackBack, VersionsReadBack, VersionsPackBack, JobsReadBack, JobsPackBack, ScopesReadBack, ScopesPackBack, WordsHoldBytes, HeaderIsAdded, ObjectsFit, BytesUnpackBack, WordsPackBack, WrittenIsRead, RefusalsAreNumbered};
ghost use Rattle.far_word.specs.Rows.{NearRowsHold, MarkedRowsHold, FarRowsHold, FreeRowHolds, PointersAreRefused, MarkBitsStand, HeaderRowsHold, HeadersAreRefused, HeaderRowsHoldV1, HeadersAreRefusedV1, VersionRowsHold, JobRowsHold, JobsAreRefused, ScopeRowsHold, ScopesAreRefused, NineBytesPack};
ghost use Rattle.far_word.specs.Sizes.{size_of};

/// The word of a pointer on the layout reads as that pointer, and what a word reads as has that word.
pub fn pointer_words()
    ensures back { PointersReadBack }
    ensures found { PointersPackBack }
{}

/// Marks are set and cleared by one mask each, which changes nothing else:
///
/// - or-ing a mark's bit into the word of a pointer that takes the mark gives the word of the pointer with that mark,
///   said of the pointer and of what the word reads as; a mark that it doesn't take would put the word off the layout;
/// - and-ing EVAC's bit out, or those of HOT, MOVE and DROP, gives the word of the pointer without them;
/// - a new view may rest on a near object that has no mark but HOT and DIRTY, and nowhere else.
pub fn pointer_marks()
    ensures set { MarkIsSet }
    ensures read { MarkIsRead }
    ensures refused { MarkIsRefused }
    ensures evac_cleared { EvacIsCleared }
    ensures owner_marks_cleared { OwnerMarksAreCleared }
    ensures views { ViewsRest }
{}

/// The word of a header on the layout reads as that header, and what a word reads as has that word: of this heap's headers,
/// and of each version's. A header's word says its version.
pub fn header_words()
    ensures back { HeadersReadBack }
    ensures found { HeadersPackBack }
    ensures versions_back { VersionsReadBack }
    ensures versions_found { VersionsPackBack }
{}

/// The word of a scope on the layout reads as that scope, and what a word reads as has that word.
pub fn scope_words()
    ensures back { ScopesReadBack }
    ensures found { ScopesPackBack }
{}

/// The word of a job on the layout reads as that job, and what a word reads as has that word.
pub fn job_words()
    ensures back { JobsReadBack }
    ensures found { JobsPackBack }
{}

/// Bytes that were packed are unpacked as they were, and words as well, where the bits after the last byte are zero;
/// bytes that were written over are read as they were written, and all others as they were.
pub fn packed_bytes()
    ensures bytes_back { BytesUnpackBack }
    ensures words_back { WordsPackBack }
    ensures written { WrittenIsRead }
{}

/// The sizes of a heap in numerals, what ties them, and what an object takes: as few words as hold its data bytes, and
/// one for its header.
pub fn sizes_are()
    // a log is 512 words, in which an object of 4,088 bytes lies at most; a heap has 2 to 64 logs, 1 to 8 mutators, each with 256 cells, 16 jobs, up to
    // 8 copiers, and epochs below 2^62
    ensures log_words { LOG_WORDS ≡ 512 }
    ensures log_bytes { LOG_BYTES ≡ 4096 }
    ensures last_at { LAST_AT ≡ 510 }
    ensures longest { LONGEST ≡ 4088 }
    ensures least_logs { LEAST_LOGS ≡ 2 }
    ensures most_logs { MOST_LOGS ≡ 64 }
    ensures least_mutators { LEAST_MUTATORS ≡ 1 }
    ensures most_mutators { MOST_MUTATORS ≡ 8 }
    ensures cells { CELLS ≡ 256 }
    ensures pointers { POINTERS ≡ 2048 }
    ensures jobs { JOBS ≡ 16 }
    ensures most_copiers { MOST_COPIERS ≡ 8 }
    ensures epoch_end { EPOCH_END ≡ 2 ^ 62 }

    // the pointers are all mutators' cells, the longest object fills a log, and a word has eight bytes
    ensures cells_of_all { POINTERS ≡ CELLS * MOST_MUTATORS }
    ensures longest_fills_log { size_of LONGEST ≡ LOG_WORDS }
    ensures words_of_eight_bytes { 8 * LOG_WORDS ≡ LOG_BYTES }

    // an object takes as few words as hold its bytes, and one for its header, and fits into a log
    ensures words_hold_bytes { WordsHoldBytes }
    ensures header_is_added { HeaderIsAdded }
    ensures objects_fit { ObjectsFit }
{}

/// The layout of a header word in numerals: the length in 24 bits, the data structure in the next 8, the pointer's number in
/// the next 24, and the version 0xa2 in the highest 8. And that of version 1, with its sizes.
pub fn header_is()
    // of this heap: 24 bits of length, 8 of data structure, 24 of pointer, and 0xa2
    ensures len { (word : ℕ) → len_in Second word ≡ field word 0 24 }
    ensures ds { (word : ℕ) → ds_in Second word ≡ field word 24 8 }
    ensures pointer { (word : ℕ) → pointer_in Second word ≡ field word 32 24 }
    ensures version { (word : ℕ) → version_in word ≡ field word 56 8 }
    ensures word { (pointer len ds : ℕ) → head_word pointer len ds ≡ len + ds * 2 ^ 24 + pointer * 2 ^ 32 + 0xa2 * 2 ^ 56 }

    // of version 1: 16 bits of length, 8 of data structure, 32 of pointer, and 0xa1; 1,016 bytes an object, 1,024 pointers, 128 words a log, 128 cells
    ensures len_v1 { (word : ℕ) → len_in First word ≡ field word 0 16 }
    ensures ds_v1 { (word : ℕ) → ds_in First word ≡ field word 16 8 }
    ensures pointer_v1 { (word : ℕ) → pointer_in First word ≡ field word 24 32 }
    ensures word_v1 { (pointer len ds : ℕ) → word_by First pointer len ds ≡ len + ds * 2 ^ 16 + pointer * 2 ^ 24 + 0xa1 * 2 ^ 56 }
    ensures longest_v1 { longest First ≡ 1016 }
    ensures pointers_v1 { pointers First ≡ 1024 }
    ensures log_words_v1 { log_words First ≡ 128 }
    ensures cells_v1 { cells First ≡ 128 }
{}

/// Worked words in hexadecimal, each packed from what it says and read as that, and words off the layout. Beside the
/// laws of words they fix where each field stands.
#[tactic(auto, unfolding(crate::specs::Pointer::read_of, crate::specs::Header::head_of, crate::specs::Header::head_of_v1, crate::specs::Scope::scope_of, crate::specs::Job::job_of, crate::specs::Bytes::words_of, crate::specs::Bytes::bytes_of))]
pub fn words_are()
    // pointers: near, with marks, far and free, and words that are none; which bit is which mark
    ensures near { NearRowsHold }
    ensures marked { MarkedRowsHold }
    ensures far { FarRowsHold }
    ensures free { FreeRowHolds }
    ensures no_pointer { PointersAreRefused }
    ensures mark_bits { MarkBitsStand }

    // headers of this heap and of version 1, and words that are none
    ensures header { HeaderRowsHold }
    ensures no_header { HeadersAreRefused }
    ensures header_v1 { HeaderRowsHoldV1 }
    ensures no_header_v1 { HeadersAreRefusedV1 }
    ensures version { VersionRowsHold }

    // scopes, and words that are none
    ensures scope { ScopeRowsHold }
    ensures no_scope { ScopesAreRefused }

    // jobs, and words that are none
    ensures job { JobRowsHold }
    ensures no_job { JobsAreRefused }

    // nine bytes in two words
    ensures bytes { NineBytesPack }
{}

/// The refusals in the order of their declaration have the numbers 1 to 18.
pub fn refusal_numbers()
    ensures { RefusalsAreNumbered }
{}
