//! The kinds of page replacement once more, written from their rules with no regard to time.

use std::alloc::{AllocError, Global};

/// A kind as its rule says it.
pub trait Plain: Drop {
    fn touched(&mut self, frame: usize);

    fn taken(&mut self, frame: usize);

    fn pick(&mut self) -> usize;
}

/// The kind Clock.
#[derive(Drop)]
pub struct PlainClock {
    marks: Vec<bool>,
    hand: usize,
}

impl PlainClock {
    fn mark(&mut self, frame: usize) {
        if let Some(mark) = self.marks.get_mut(frame) {
            *mark = true;
        }
    }

    // Clears the mark at the hand, moves the hand on, and answers whether there was a mark.
    fn pass(&mut self) -> bool {
        let mut was = false;
        if let Some(mark) = self.marks.get_mut(self.hand) {
            was = *mark;
            *mark = false;
        }
        self.hand = self
            .hand
            .wrapping_add(1)
            .checked_rem(self.marks.len())
            .unwrap_or(0);
        was
    }
}

impl Plain for PlainClock {
    fn touched(&mut self, frame: usize) {
        self.mark(frame);
    }

    fn taken(&mut self, frame: usize) {
        self.mark(frame);
    }

    fn pick(&mut self) -> usize {
        'round: for _ in 0..self.marks.len() {
            let frame = self.hand;
            if !self.pass() {
                return frame;
            }
        }
        let frame = self.hand;
        self.pass();
        frame
    }
}

// The least stamp on one side, and the first frame that has it.
fn least(frames: &[(u64, bool)], is_protected: bool) -> usize {
    let mut best: Option<(u64, usize)> = None;
    'frames: for (i, (stamp, side)) in frames.iter().enumerate() {
        let is_less = match best {
            Some((least, _)) => *stamp < least,
            None => true,
        };
        if *side == is_protected && is_less {
            best = Some((*stamp, i));
        }
    }
    match best {
        Some((_, i)) => i,
        None => 0,
    }
}

/// The kind of segmented LRU.
#[derive(Drop)]
pub struct PlainSegmented {
    frames: Vec<(u64, bool)>,
    tick: u64,
}

impl PlainSegmented {
    fn stamp(&mut self, frame: usize, is_protected: bool) {
        self.tick = self.tick.saturating_add(1);
        if let Some(entry) = self.frames.get_mut(frame) {
            *entry = (self.tick, is_protected);
        }
    }

    fn release(&mut self, frame: usize) {
        if let Some(entry) = self.frames.get_mut(frame) {
            entry.1 = false;
        }
    }
}

impl Plain for PlainSegmented {
    fn touched(&mut self, frame: usize) {
        self.stamp(frame, true);
        if self.frames.iter().filter(|f| f.1).count() > self.frames.len() / 2 {
            let frame = least(&self.frames, true);
            self.release(frame);
        }
    }

    fn taken(&mut self, frame: usize) {
        self.stamp(frame, false);
    }

    fn pick(&mut self) -> usize {
        let frame = least(&self.frames, false);
        self.stamp(frame, false);
        frame
    }
}

/// The kind of random LRU.
#[derive(Drop)]
pub struct PlainRandom {
    stamps: Vec<u64>,
    tick: u64,
    state: u64,
}

impl PlainRandom {
    fn stamp(&mut self, frame: usize) {
        self.tick = self.tick.saturating_add(1);
        if let Some(stamp) = self.stamps.get_mut(frame) {
            *stamp = self.tick;
        }
    }

    // Draws a frame: its stamp and its number. The state stands in 64 bits, of which 32 are kept.
    fn draw(&mut self) -> (u64, usize) {
        self.state ^= (self.state << 13) & 0xFFFF_FFFF;
        self.state ^= self.state >> 17;
        self.state ^= (self.state << 5) & 0xFFFF_FFFF;
        let frame = (self.state as usize)
            .checked_rem(self.stamps.len())
            .unwrap_or(0);
        match self.stamps.get(frame) {
            Some(stamp) => (*stamp, frame),
            None => (0, 0),
        }
    }
}

impl Plain for PlainRandom {
    fn touched(&mut self, frame: usize) {
        self.stamp(frame);
    }

    fn taken(&mut self, frame: usize) {
        self.stamp(frame);
    }

    fn pick(&mut self) -> usize {
        let drawn = [
            self.draw(),
            self.draw(),
            self.draw(),
            self.draw(),
            self.draw(),
        ];
        let mut best = drawn[0];
        'drawn: for next in drawn {
            if next < best {
                best = next;
            }
        }
        best.1
    }
}

/// A clock of so many frames, none of them marked.
pub fn plain_clock(alloc: Global, frames: usize) -> Result<PlainClock, AllocError> {
    let mut marks = Vec::new(alloc);
    marks.resize(frames, false)?;
    Ok(PlainClock { marks, hand: 0 })
}

/// So many frames, none of them used.
pub fn plain_segmented(alloc: Global, count: usize) -> Result<PlainSegmented, AllocError> {
    let mut frames = Vec::new(alloc);
    frames.resize(count, (0, false))?;
    Ok(PlainSegmented { frames, tick: 0 })
}

/// So many frames, none of them used, and the state from which frames are drawn.
pub fn plain_random(alloc: Global, frames: usize, state: u64) -> Result<PlainRandom, AllocError> {
    let mut stamps = Vec::new(alloc);
    stamps.resize(frames, 0)?;
    Ok(PlainRandom {
        stamps,
        tick: 0,
        state,
    })
}
