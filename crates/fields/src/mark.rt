// What a tab may wait for, and how much it adds to the tab row's waiting.
#[derive(Clone, Copy)]
pub enum Mark {
    Cookie = 1,
    Document = 2,
}
