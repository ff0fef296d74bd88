//! Loading of the languages of the trials.
use sg_load::{Loaded, load};
use std::process::Abort;

/// What is loaded of a text that has no fault.
pub fn loaded(rt: &(impl Abort + AllocGlobal), text: &[u8]) -> Loaded {
    load(rt.alloc(), text).ok().expect(rt, "a language")
}
