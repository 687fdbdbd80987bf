use kinds::access::Access;

// A call as a line writes it. It owns its accesses, where the engine's `Call`, alike in all else, borrows them and is `Copy`.
#[derive(Drop)]
pub enum Written<E> {
    Create {
        parent: u16,
        waits: bool,
        accesses: Vec<Access>,
    },
    Start {
        task: u16,
    },
    Finish {
        task: u16,
    },
    Wait {
        task: u16,
    },
    Resume {
        task: u16,
    },
    Release {
        task: u16,
        lo: u16,
        hi: u16,
    },
    Read {
        task: u16,
        cell: u16,
    },
    Write {
        task: u16,
        cell: u16,
        value: E,
    },
    Update {
        task: u16,
        cell: u16,
        amount: E,
    },
    Look {
        cell: u16,
    },
    Ready,
}
