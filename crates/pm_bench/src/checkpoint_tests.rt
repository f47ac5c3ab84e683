//! Checkpoints over a host in memory: what a crash leaves of one, which segments are kept, and the records of puts; and
//! rounds and checkpoints of one worker over any host.
mod crashes;
mod framed_stores;
mod frames;
mod kept_segments;
mod many_segments;
mod one_page;
mod one_worker;
mod put_records;
