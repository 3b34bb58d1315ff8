// What a planned site's text is. In a module of its own, since `plan` is the function.

// A plan in a room: how many bytes of it the plan text fills, and the beacon order.
#[derive(Clone, Copy, Debug, PartialEq, Eq)]
pub struct Plan {
    pub length: usize,
    pub order: u8,
}
