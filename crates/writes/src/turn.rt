use stores::fault::Fault;

// A write that is asked for, and the place for its answer. The place always has an answer, so that those of a list are read without asking
// whether they are there.
#[derive(Clone, Copy)]
pub struct Turn<E> {
    pub cell: u16,
    pub value: E,
    pub answer: Result<(), Fault>,
}
