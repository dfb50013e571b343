// An event in memory: its sender together with that sender's own kind of message. Payloads stay where they are, and a message
// says which bytes of the event they are.

#[derive(Clone, Copy)]
pub struct Part {
    pub at: usize,
    pub len: usize,
}

#[derive(Clone, Copy)]
pub enum SeatMessage {
    Key(u8),
    Mouse(Part),
    Open(Part),
}

#[derive(Clone, Copy)]
pub enum TabMessage {
    Display(Part),
    Socket { port: usize, host: Part },
    Url(Part),
    Store { domain: Part, cookie: Part },
    Retrieve(Part),
}

// A result or a document: the tab that it is for, and what is passed on.
#[derive(Clone, Copy)]
pub struct Delivery {
    pub tab: usize,
    pub body: Part,
}

#[derive(Clone, Copy)]
pub enum Event {
    Seat { id: usize, message: SeatMessage },
    Tab { id: usize, message: TabMessage },
    Process { id: usize, result: Delivery },
    Network { id: usize, document: Delivery },
}
