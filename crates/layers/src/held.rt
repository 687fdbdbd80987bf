// One cell and the value that is to be written there.
#[derive(Clone, Copy)]
pub struct Held<E> {
    pub cell: u16,
    pub value: E,
}
