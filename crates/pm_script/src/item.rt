//! What the reader finds next in a script.

/// What stands next in a script.
pub enum Item<'a> {
    /// A line of at most `LINE_MAX` bytes, without its newline.
    Text(&'a [u8]),
    /// A line of more than `LINE_MAX` bytes.
    Long,
    /// The end of the script: no line is left.
    End,
    /// A line that isn't ended within the limits of a script.
    Over,
}
