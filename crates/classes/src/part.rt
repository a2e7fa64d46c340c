// What the readers of a class find.

// A byte of a class, without the `\` before it, and the place after it.
#[derive(Clone, Copy)]
pub(crate) struct ClassByte {
    pub byte: u8,
    pub next: usize,
}

// An item of a class: its first and its last byte, and the place after it.
#[derive(Clone, Copy)]
pub(crate) struct ClassItem {
    pub first: u8,
    pub last: u8,
    pub next: usize,
}

// What stands where an item is due.
#[derive(Clone, Copy)]
pub(crate) enum Due {
    Item(ClassItem),
    // The `]` that ends the class.
    End,
}
