// The records of an open rig.

// A component stands in a mode.
#[derive(Clone, Copy)]
pub(crate) struct ComponentRecord {
    pub(crate) mode: u8,
}

// An element has a value if it is held, else 0.
#[derive(Clone, Copy)]
pub(crate) struct ElementRecord {
    pub(crate) value: i32,
}
