// A wire leads from a point to a point, with a delay.
#[derive(Clone, Copy, Default, PartialEq, Eq, Debug)]
pub struct Wire {
    pub from: u8,
    pub to: u8,
    pub delay: u32,
}
