//! What may keep an operation from beginning.

/// What one operation may need and isn't in hand. Nothing is lost; the worker goes on where it is.
#[derive(Clone, Copy, Debug, PartialEq, Eq)]
pub enum Halt {
    /// The outbox lacks room. So many bytes of it are left: hand what is in it to the log writer.
    NoLog(usize),
    /// A checkpoint runs, and pages for copies are lacking. So many are in hand: go on when it has ended. Not used
    /// by the program yet: it comes only after `Stripe::begun`, which nobody calls.
    NoCopy(u32),
    /// Frames are lacking. So many there are: put back what other workers have out, or bring a checkpoint to
    /// its end, so that more are Empty or Clean.
    NoFrame(u32),
}
