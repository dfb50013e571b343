// The reader's position: the place of the next frame in the buffered stream, and the number of events before it.

#[derive(Clone, Copy)]
pub struct Cursor {
    pub place: usize,
    pub number: u64,
}
