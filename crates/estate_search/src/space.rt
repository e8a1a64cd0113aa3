// The memory that the caller lends to a search.
use crate::tree::MOST_BYTES;

/// The room for what a search has come to, in bytes.
pub(crate) const STATE_ROOM: usize = 8192;

/// Memory that the caller lends to a search. The search needs nothing of what stands there when it starts.
#[derive(Drop)]
pub struct Space<'a> {
    /// For the tree, and for what the search remembers: the more, the longer it may become. Between two slices the state of the search stands here.
    pub work: &'a mut [u8],
    /// For the certificate.
    pub text: &'a mut [u8],
}

/// Where the parts of a search stand.
#[derive(Drop)]
pub(crate) struct Rooms<'a> {
    pub(crate) state: &'a mut [u8],
    pub(crate) tree: &'a mut [u8],
    pub(crate) twins: &'a mut [u8],
    pub(crate) text: &'a mut [u8],
}

/// The memory cut up.
pub(crate) fn cut_up(space: Space<'_>) -> Rooms<'_> {
    let Space { work, text } = space;
    let cut = STATE_ROOM.min(work.len());
    let (state, rest) = work.split_at_mut(cut);
    let cut = MOST_BYTES.min(rest.len() / 2);
    let (tree, twins) = rest.split_at_mut(cut);
    let cut = MOST_BYTES.min(text.len());
    let (text, _) = text.split_at_mut(cut);
    Rooms {
        state,
        tree,
        twins,
        text,
    }
}
