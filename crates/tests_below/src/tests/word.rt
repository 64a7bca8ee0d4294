//! Of far_word: that the clauses say what was meant, by worked values, and that values compare as they should.

mod example;
mod values;
mod words;

use far_word::{
    Marks, header_is, header_words, job_words, packed_bytes, pointer_marks, pointer_words,
    refusal_numbers, scope_words, sizes_are, words_are,
};

const NO_MARKS: Marks = Marks {
    hot: false,
    evac: false,
    moved: false,
    dropped: false,
    dirty: false,
};

const HOT: Marks = Marks {
    hot: true,
    evac: false,
    moved: false,
    dropped: false,
    dirty: false,
};

const DIRTY: Marks = Marks {
    hot: false,
    evac: false,
    moved: false,
    dropped: false,
    dirty: true,
};

const HOT_EVAC: Marks = Marks {
    hot: true,
    evac: true,
    moved: false,
    dropped: false,
    dirty: false,
};

#[test]
fn laws() {
    pointer_words();
    pointer_marks();
    header_words();
    header_is();
    scope_words();
    job_words();
    packed_bytes();
    sizes_are();
    words_are();
    refusal_numbers();
}
