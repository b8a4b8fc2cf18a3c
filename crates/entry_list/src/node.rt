// A node of the list.

/// A value with the keys of the values before and after it, which are `None` at the ends of the list.
#[derive(Drop, Debug)]
pub struct Node<T> {
    pub value: T,
    pub prev: Option<usize>,
    pub next: Option<usize>,
}
