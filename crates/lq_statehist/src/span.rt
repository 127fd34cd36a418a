/// The seconds from one up to before another.
#[derive(Clone, Copy)]
pub(crate) struct Span {
    pub from: u64,
    pub until: u64,
}
