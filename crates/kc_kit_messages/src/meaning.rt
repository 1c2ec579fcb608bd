/// What is wrong, and how it is right: lines of a source or of another file, without the end of the last.
#[derive(Clone, Copy)]
pub struct Example {
    pub wrong: &'static str,
    pub right: &'static str,
}

/// What a code says, in a sentence without its full stop, with an example where one is short.
#[derive(Clone, Copy)]
pub struct Meaning {
    pub code: &'static str,
    pub sentence: &'static str,
    pub example: Option<Example>,
}
