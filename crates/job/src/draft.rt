// A job as somebody outside proposes it: nothing but the argument's width is known of it.
#[derive(Drop)]
pub struct JobDraft {
    pub letter: char,
    pub argument: u32,
    pub urgency: u32,
    pub points: Vec<u32>,
}
