// The limits of programs, texts and words, and how the drum is divided: two areas for the texts, and the object's tracks behind
// them.
#![tactic(auto)]

mod areas;
mod limits;

pub use areas::{capacity, first_track, object_track, object_words, tracks_for};
pub use limits::{
    ADDRESSES, FIRST_NEW_LABEL, FIRST_OWN_NAME, LIMIT, LINES, MOST_DATA, ORDER_FIELDS,
    STANDARD_NAMES, SYMBOLS_ON_TRACK, WORDS_ON_TRACK,
};
