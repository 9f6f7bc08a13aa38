// What is kept from line to line.
use vector_text::links::Link;
use vector_text::memory;

// The link, the last frame and its length, the store and its length, and the receiver's state (of another link than MDU its base alone).
#[derive(Drop)]
pub(crate) struct Kept {
    pub(crate) link: Link,
    pub(crate) frame: [u8; memory::SIZE],
    pub(crate) length: usize,
    pub(crate) store: [u8; memory::SIZE],
    pub(crate) room: usize,
    pub(crate) state: mdu::State,
}
