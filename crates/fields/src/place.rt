// Where a tab is live.
#[derive(Clone, Copy)]
pub struct Place {
    pub seat: usize,
    pub slot: usize,
}
