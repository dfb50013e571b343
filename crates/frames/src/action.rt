// What the kernel tells a host to do, as document 01's table of actions has it: each is for one party, and has a tag.
ghost use Rattle.std.specs.Prelude.{◌≡◌};
ghost use Rattle.frames.specs.Action.{party_of, tag_of};

#[derive(Clone, Copy, Debug, PartialEq, Eq)]
pub enum Action {
    // To a seat's screen.
    Bar,
    Paint,
    // To a tab.
    Go,
    Render,
    Key,
    Mouse,
    Error,
    Document,
    Cookie,
    // To a process.
    Set,
    Get,
    // To the network.
    Fetch,
    // To the host.
    StartTab,
    StopTab,
    StartProcess,
    StopProcess,
    OpenSocket,
}

impl Action {
    pub fn party(self) -> u8
        ensures { result ≡ party_of self }
    {
        use Action::*;
        match self {
            Bar | Paint => 1,
            Go | Render | Key | Mouse | Error | Document | Cookie => 2,
            Set | Get => 3,
            Fetch => 4,
            StartTab | StopTab | StartProcess | StopProcess | OpenSocket => 5,
        }
    }

    pub fn tag(self) -> u8
        ensures { result ≡ tag_of self }
    {
        use Action::*;
        match self {
            Bar | Go | Set | Fetch | StartTab => 1,
            Paint | Render | Get | StopTab => 2,
            Key | StartProcess => 3,
            Mouse | StopProcess => 4,
            Error | OpenSocket => 5,
            Document => 6,
            Cookie => 7,
        }
    }
}
